#![tactic(auto)]
// Recording: messages go, in the order of their arrival, into blocks of 512 octets, each filled while the next record fits. The host lends the open
// block and three words; zeroed they are a fresh recording, whose blocks are numbered from 0. A record that no longer fits closes the
// block, which comes out, and opens the next.
//
// Refused in this order: 8 (a port outside 1 to 18), 19 (a message of more than 485 octets), 11 (a time below the last recorded one, on whatever port),
// 17 (a new block past number 4,294,967,295). Then nothing that was lent has changed. What is recorded is not looked into.
ghost use Rattle.std.specs.Prelude.{◌≡◌, true, ◌⊎◌, ◌≤◌, leb, length};
ghost use Rattle.block.specs.Layout.{records_at, longest};
ghost use Rattle.recording.specs.Recording.{entry_of, next_of, last_of, end_of, has_place, check_by, record_check, closes, open_with, words_by, words_with, out_with, recorded_of, open_after, words_after, out_after, is_open, finished, out_by};
ghost use Rattle.recording.specs.Refusing.{last_number};

use refusal::Refusal;

// The words: the number of the next block, the last recorded time, and where in the open block the next record goes, 0 where none is open.
pub const WORDS: usize = 3;

// The last number that a block can have.
const LAST: u64 = 4_294_967_295;

// Whether a block is open, in which the next record goes to octet `end`.
fn is_open(end: u64) -> bool
    ensures { result ≡ leb records_at end }
{
    block::RECORDS as u64 <= end
}

// Whether a message of n octets, which is not too long, fits into the open block.
fn has_place(end: u64, n: usize) -> bool
    requires { n ≤ longest }
    ensures { result ≡ has_place end n }
{
    let most = block::OCTETS - block::HEAD - n;
    is_open(end) & (end <= most as u64)
}

// The refusals, in their order.
#[tactic(auto, unfolding(crate::specs::Recording::check_by, refusal::specs::Choice::refuse))]
fn check(words: &[u64; WORDS], port: u8, t: u64, n: usize) -> Result<(), Refusal>
    ensures { result ≡ check_by (next_of words.now) (last_of words.now) (end_of words.now) port t n }
{
    let [next, last, end] = *words;
    if !refusal::is_port(port) {
        return Err(Refusal::Port);
    }
    if block::LONGEST < n {
        return Err(Refusal::Long);
    }
    if t < last {
        return Err(Refusal::Backward);
    }
    if !has_place(end, n) & (LAST < next) {
        return Err(Refusal::Many);
    }
    Ok(())
}

// The words move on behind a message of n octets at `t` that is not refused.
fn advance(words: &mut [u64; WORDS], t: u64, n: usize)
    requires { (n ≤ longest) × ((has_place (end_of words.old) n ≡ true) ⊎ (next_of words.old ≤ last_number)) }
    ensures { words.new ≡ words_by words.old t n }
{
    let [next, _, end] = *words;
    let size = (block::HEAD + n) as u64;
    if has_place(end, n) {
        *words = [next, t, end + size];
        return;
    }
    *words = [next + 1, t, block::RECORDS as u64 + size];
}

// Writes the open block closed, where one is open.
fn close(opened: &[u8; block::OCTETS], end: u64, out: &mut [u8; block::OCTETS]) -> bool
    ensures answer { result ≡ leb records_at end }
    ensures octets { out.new ≡ out_by (leb records_at end) opened.now out.old }
{
    if is_open(end) {
        block::making::seal(opened, out);
        return true;
    }
    false
}

// A message that is not refused goes behind those of the open block, or it closes that and opens the next. Whether it closed one.
fn put(
    opened: &mut [u8; block::OCTETS],
    words: &mut [u64; WORDS],
    port: u8,
    t: u64,
    message: &[u8],
    out: &mut [u8; block::OCTETS],
) -> bool
    requires { record_check words.old (entry_of t port message.now) ≡ Ok tt }
    ensures answer { result ≡ closes words.old (entry_of t port message.now) }
    ensures block { opened.new ≡ open_with opened.old words.old (entry_of t port message.now) }
    ensures words { words.new ≡ words_with words.old (entry_of t port message.now) }
    ensures octets { out.new ≡ out_with opened.old words.old (entry_of t port message.now) out.old }
{
    let [next, _, end] = *words;
    advance(words, t, message.len());
    if has_place(end, message.len()) {
        block::making::add(&mut opened[..], end as usize, t, port, message);
        return false;
    }
    let closed = close(opened, end, out);
    block::making::open(opened, next as u32, t);
    block::making::add(&mut opened[..], block::RECORDS, t, port, message);
    closed
}

// What recording a message would answer, and the words as it would leave them; no octet is written.
pub fn foresee(words: &mut [u64; WORDS], port: u8, t: u64, message: &[u8]) -> Result<(), Refusal>
    ensures answer { result ≡ record_check words.old (entry_of t port message.now) }
    ensures words { words.new ≡ words_after words.old (entry_of t port message.now) }
{
    let n = message.len();
    check(words, port, t, n)?;
    advance(words, t, n);
    Ok(())
}

// Records a message that arrived on a port at `t`, or refuses it. Where that closes a block, `out` has it.
pub fn record(
    opened: &mut [u8; block::OCTETS],
    words: &mut [u64; WORDS],
    port: u8,
    t: u64,
    message: &[u8],
    out: &mut [u8; block::OCTETS],
) -> Result<bool, Refusal>
    ensures answer { result ≡ recorded_of words.old (entry_of t port message.now) }
    ensures block { opened.new ≡ open_after opened.old words.old (entry_of t port message.now) }
    ensures words { words.new ≡ words_after words.old (entry_of t port message.now) }
    ensures octets { out.new ≡ out_after opened.old words.old (entry_of t port message.now) out.old }
{
    check(words, port, t, message.len())?;
    Ok(put(opened, words, port, t, message, out))
}

// The open block as it would be closed now goes to `out`: whether there is one. Nothing else changes.
pub fn finish(
    opened: &[u8; block::OCTETS],
    words: &[u64; WORDS],
    out: &mut [u8; block::OCTETS],
) -> bool
    ensures answer { result ≡ is_open words.now }
    ensures octets { out.new ≡ finished opened.now words.now out.old }
{
    close(opened, words[2], out)
}
