// Candidates by their places: a place is where a record begins in the words of eighteen ports, and tells the port that keeps it.
// Whoever compares many candidates keeps their places, and takes the few that are wanted out of the words.
ghost use Rattle.std.specs.Prelude.{◌≡◌, true, ◌+◌, ◌/◌, ◌≤◌, ◌<◌, ltb};
ghost use Rattle.rank.specs.Order.{earlier_of};
ghost use Rattle.rank.specs.Ranked.{is_port};
ghost use Rattle.ports.specs.Words.{port_at, all_words};
ghost use Rattle.ports.specs.Places.{place_on, port_by, candidate_at};
ghost use Rattle.slots.specs.Words.{port_words, block};

use crate::WORDS;
use rank::Candidate;

// Whether `t` lies before the last accepted time of a port.
pub fn is_late(words: &[u64; WORDS], port: u8, t: u64) -> bool
    requires { is_port port ≡ true }
    ensures { result ≡ ltb t (port_at words.now port).last }
{
    t < slots::last(crate::own(words, port))
}

// The place of a port's best candidate at `t`, or 0 where the port has none.
pub fn place(words: &[u64; WORDS], port: u8, t: u64) -> usize
    requires { is_port port ≡ true }
    ensures { result ≡ place_on words.now port t }
{
    let i = slots::place(crate::own(words, port), t);
    if i == 0 {
        return 0;
    }
    crate::start(port) + i
}

// The port of a place: 669 / 2^16 is hardly more than 1/98, and a product by so small a number is shifts and sums.
pub fn port_of(at: usize) -> usize
    requires { at ≤ all_words }
    ensures { result ≡ port_by at }
{
    at * 669 / 65536 + 1
}

// The six words of the record at a place.
fn record(words: &[u64; WORDS], at: usize) -> &[u64; slots::RECORD]
    requires { at + 6 ≤ all_words }
    ensures { result.now ≡ block words.now at 6 }
{
    words[at..at + slots::RECORD].as_array().unwrap()
}

// The candidate at a place.
pub fn candidate(words: &[u64; WORDS], at: usize) -> Candidate
    requires { at + 6 ≤ all_words }
    ensures { result ≡ candidate_at words.now at }
{
    senders::candidate(slots::read(record(words, at)), port_of(at) as u8)
}

// Whether the candidate at `a` stands before that at `b`, which is one of a port with a lower number.
pub fn is_before(words: &[u64; WORDS], a: usize, b: usize) -> bool
    requires { (a + 6 ≤ all_words) × (b + 6 ≤ all_words) × (b / port_words < a / port_words) }
    ensures { result ≡ earlier_of (candidate_at words.now a) (candidate_at words.now b) }
{
    slots::comes_before(record(words, a), record(words, b))
}
