#![tactic(auto)]
// A block of a trace as it is read and judged: its places, and the four tests that it must pass to be replayed, in their order: its check, its
// layout, its number, its times. Each is a function of its own; `judge` says which fails first. `walking` goes from record to record. Nothing
// changes: the octets are lent to be read.
ghost use Rattle.std.specs.Prelude.{◌≡◌, true, ◌+◌, ◌≤◌, length, drop};
ghost use Rattle.refusal.specs.Limits.{is_port};
ghost use Rattle.refusal.specs.declared.Refusal.TheVariants.{Block};
ghost use Rattle.block.specs.Layout.{block_octets, records_at, number_of, first_time_of, time_at, port_at, end_at, entries_of};
ghost use Rattle.block.specs.Check.{is_checked};
ghost use Rattle.judging.specs.Tests.{all_zero, laid_from, is_laid, is_next, times_of, verdict_of};

use block::{HEAD, OCTETS, RECORDS};
use records::Records;
use refusal::Refusal;

pub mod records;
pub mod walking;

// A message that arrived, with its time and its port, as it is lent of a block.
#[derive(Clone, Copy)]
pub struct Arrival<'a> {
    pub time: u64,
    pub port: u8,
    pub message: &'a [u8],
    ghost of_port: { is_port port ≡ true },
}

// What a reader keeps from block to block: the lowest number that the next may have, and the last record's time. Both are 0 before the first.
#[derive(Clone, Copy, Debug, PartialEq, Eq)]
pub struct Reader {
    pub next: u64,
    pub last: u64,
}

// The test that a block fails first.
#[derive(Clone, Copy, Debug, PartialEq, Eq)]
pub enum Flaw {
    Check,
    Layout,
    Number,
    Time,
}

// Replay and export refuse a block with 20, whichever test it fails.
impl From<Flaw> for Refusal {
    ghost from_gives = { λ _ r. r ≡ Block };

    fn from(_flaw: Flaw) -> Refusal {
        Refusal::Block
    }
}

// The number of a block.
pub fn number(s: &[u8]) -> u32
    requires { 16 ≤ length s.now }
    ensures { result ≡ number_of s.now }
{
    octets::held::u32_at(s, 2)
}

// The time that its head says the first record has.
fn first_time(s: &[u8]) -> u64
    requires { 16 ≤ length s.now }
    ensures { result ≡ first_time_of s.now }
{
    octets::held::u64_at(s, 6)
}

// The time, the port and the end of the record that begins at an octet.
pub fn time_at(s: &[u8], at: usize) -> u64
    requires { at + 11 ≤ length s.now }
    ensures { result ≡ time_at s.now at }
{
    octets::held::u64_at(s, at)
}

pub fn port_at(s: &[u8], at: usize) -> u8
    requires { at + 11 ≤ length s.now }
    ensures { result ≡ port_at s.now at }
{
    s[at + 8]
}

pub fn end_at(s: &[u8], at: usize) -> usize
    requires { at + 11 ≤ length s.now }
    ensures { result ≡ end_at s.now at }
{
    at + HEAD + octets::held::u16_at(s, at + 9) as usize
}

// The check: a word that is not 0 and makes the sum of all a multiple of 65,535.
#[tactic(auto, unfolding(block::specs::Check::is_checked))]
pub fn is_checked(s: &[u8]) -> bool
    requires { length s.now ≡ block_octets }
    ensures { result ≡ is_checked s.now }
{
    let check = octets::held::u16_at(s, 0);
    let left = block::sums::remainder(s);
    (check != 0) & (left == 0)
}

// Whether every octet is zero, looked at eight at a time while there are eight.
fn is_zero(s: &[u8]) -> bool
    ensures { result ≡ all_zero s.now }
{
    let (eights, rest) = s.as_chunks::<8>();
    eights.iter().all(|e| u64::from_ne_bytes(*e) == 0) && rest.iter().all(|x| *x == 0)
}

// Whether so many whole records follow the head, of ports that there are, and zeros follow them.
fn are_laid(s: &[u8], n: u16) -> bool
    requires { length s.now ≡ block_octets }
    ensures { result ≡ laid_from n s.now records_at }
{
    let mut at = RECORDS;
    for _ in 0..n {
        let Some(place) = walking::next_at(s, at) else {
            return false;
        };
        at = place.end;
    }
    is_zero(&s[at..])
}

// The layout: 512 octets, at least one record, the first one's time in the head, whole records and zeros.
#[tactic(auto, unfolding(crate::specs::Tests::is_laid))]
pub fn is_laid(s: &[u8]) -> bool
    ensures { result ≡ is_laid s.now }
{
    s.len() == OCTETS
        && block::count(s) != 0
        && first_time(s) == time_at(s, RECORDS)
        && are_laid(s, block::count(s))
}

// The number: not below the one that is next.
pub fn is_next(s: &[u8], next: u64) -> bool
    requires { 16 ≤ length s.now }
    ensures { result ≡ is_next next s.now }
{
    next <= number(s) as u64
}

// The times: of a block whose layout is right, none below the one before it.
#[tactic(auto, unfolding(crate::specs::Tests::is_in_order, crate::specs::Tests::last_of))]
pub fn timed(s: &[u8], last: u64) -> Option<u64>
    requires { is_laid s.now ≡ true }
    ensures { result ≡ times_of last (entries_of s.now) }
{
    let mut t = last;
    for r in Records::of(s) {
        if r.time < t {
            return None;
        }
        t = r.time;
    }
    Some(t)
}

// What a reader keeps behind a sound block and those that it has read; or which of the four tests the block fails first.
#[tactic(auto, unfolding(crate::specs::Tests::verdict_of, crate::specs::Tests::is_laid, refusal::specs::Choice::refuse))]
pub fn judge(s: &[u8], reader: Reader) -> Result<Reader, Flaw>
    ensures { result ≡ verdict_of reader s.now }
{
    if s.len() != OCTETS {
        return Err(Flaw::Layout);
    }
    if !is_checked(s) {
        return Err(Flaw::Check);
    }
    if !is_laid(s) {
        return Err(Flaw::Layout);
    }
    if !is_next(s, reader.next) {
        return Err(Flaw::Number);
    }
    let last = timed(s, reader.last).ok_or(Flaw::Time)?;
    Ok(Reader {
        next: number(s) as u64 + 1,
        last,
    })
}
