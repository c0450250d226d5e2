#![tactic(auto)]
// One sender's record, and what an Announce does to a port's records, over plain values.
//
// A port keeps sixteen records. A record is live while its newest receipt lies in the window, and its sender is a candidate
// while its two latest receipts do and it is not too many steps away. What an Announce does is a plan: to refuse it, or to
// put a record into a slot. A live record is never put out for a new sender.
//
// Refused here: 12 (a live sender's sequenceId is not newer) and 13 (a new sender, and sixteen live ones). Where the
// records are kept, and what is refused before an Announce comes here, is left to those above.
ghost use Rattle.std.specs.Prelude.{◌≡◌, ◌-◌};
ghost use Rattle.senders.specs.Record.{window_of, is_of, is_live, is_free, is_distant, is_qualified, is_newer, fresh_of, next_of, candidate_of};
ghost use Rattle.senders.specs.Port.{known_of, new_in};

use identity::PortIdentity;
use rank::{Candidate, Grandmaster};
use refusal::Refusal;

// A port keeps so many records.
pub const SLOTS: usize = 16;

// What is kept of an Announce: who sent it, its number, and the data that a candidate is made of.
#[derive(Clone, Copy)]
pub struct Notice {
    pub sender: PortIdentity,
    pub sequence: u16,
    pub grandmaster: Grandmaster,
    pub steps: u16,
    pub wrflags: u16,
}

// What a slot holds: the last Announce of a sender and its two latest receipts. An empty slot has no receipts; where
// there is one, `older` is 0.
#[derive(Clone, Copy)]
pub struct Record {
    pub notice: Notice,
    pub receipts: u16,
    pub newest: u64,
    pub older: u64,
}

// Four intervals of an eighth of a second, in nanoseconds.
const LEAST: u64 = 500000000;

// The window of a port, four intervals of 2^k seconds; `e` is k modulo 8, and k is from -3 to 4.
pub fn window(e: u64) -> u64
    ensures { result ≡ window_of e }
{
    let n = (e % 8 + 3) % 8;
    LEAST << n
}

// How long ago a receipt was.
fn age(t: u64, receipt: u64) -> u64
    ensures { result ≡ t - receipt }
{
    t.saturating_sub(receipt)
}

// Whether the record is this sender's.
pub fn is_of(r: Record, x: PortIdentity) -> bool
    ensures { result ≡ is_of x r }
{
    // Not by `==` on the whole name, which takes a search of sixteen records past its bar: 198 instructions for 170.
    if r.notice.sender.clock != x.clock {
        return false;
    }
    (r.notice.sender.port == x.port) & (r.receipts != 0)
}

// Whether the sender was heard within the window.
pub fn is_live(r: Record, w: u64, t: u64) -> bool
    ensures { result ≡ is_live w t r }
{
    (r.receipts != 0) & (age(t, r.newest) <= w)
}

// Whether a new sender may have the slot.
pub fn is_free(r: Record, w: u64, t: u64) -> bool
    ensures { result ≡ is_free w t r }
{
    !is_live(r, w, t)
}

// So many steps from its grandmaster a clock counts for nothing: what it says may only be going round in a loop.
pub const DISTANT: u16 = 255;

// Whether the sender is so far away from the grandmaster that it announces.
pub fn is_distant(a: Notice) -> bool
    ensures { result ≡ is_distant a }
{
    DISTANT <= a.steps
}

// Whether the sender was heard twice within the window, and is not distant by what it said last.
pub fn is_qualified(r: Record, w: u64, t: u64) -> bool
    ensures { result ≡ is_qualified w t r }
{
    // written so that the compiled code looks at the receipts first: an empty slot is done with after one test
    !is_distant(r.notice) & (age(t, r.older) <= w) & (2 <= r.receipts)
}

// Whether a sequenceId comes after another, around the end of its 16 bits.
pub fn is_newer(new: u16, old: u16) -> bool
    ensures { result ≡ is_newer new old }
{
    (1..=32767).contains(&new.wrapping_sub(old))
}

// A record with one receipt.
pub fn fresh(a: Notice, t: u64) -> Record
    ensures { result ≡ fresh_of t a }
{
    Record {
        notice: a,
        receipts: 1,
        newest: t,
        older: 0,
    }
}

// The receipts shift, and the data is replaced.
pub fn next(r: Record, a: Notice, t: u64) -> Record
    ensures { result ≡ next_of r t a }
{
    Record {
        notice: a,
        receipts: 2,
        newest: t,
        older: r.newest,
    }
}

// What an Announce does whose sender has the record in slot `i`.
#[tactic(auto, unfolding(refusal::specs::Choice::refuse))]
pub fn known(r: Record, i: usize, w: u64, t: u64, a: Notice) -> Result<(usize, Record), Refusal>
    ensures { result ≡ known_of w t a i r }
{
    if !is_live(r, w, t) {
        return Ok((i, fresh(a, t)));
    }
    if !is_newer(a.sequence, r.notice.sequence) {
        return Err(Refusal::Stale);
    }
    Ok((i, next(r, a, t)))
}

// What an Announce of a new sender does, where `j` is the lowest free slot, if there is one; one past the sixteenth is none.
#[tactic(auto, unfolding(refusal::specs::Choice::refuse))]
pub fn unknown(j: Option<usize>, t: u64, a: Notice) -> Result<(usize, Record), Refusal>
    ensures { result ≡ new_in t a j }
{
    match j {
        Some(j) if j < SLOTS => Ok((j, fresh(a, t))),
        _ => Err(Refusal::Full),
    }
}

// The candidate that a record is on a port.
pub fn candidate(r: Record, port: u8) -> Candidate
    ensures { result ≡ candidate_of port r }
{
    let n = r.notice;
    Candidate {
        grandmaster: n.grandmaster,
        steps: n.steps,
        sender: n.sender,
        port,
        wrflags: n.wrflags,
    }
}
