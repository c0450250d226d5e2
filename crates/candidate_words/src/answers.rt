// What sender records, ranking and deciding answer, put into words that are lent: the number returned is 0, or that of the
// refusal, and then the words are as they were.
ghost use Rattle.std.specs.Prelude.{◌≡◌, []};
ghost use Rattle.refusal.specs.Refusal.{code_of};
ghost use Rattle.rank.specs.Calls.{outcome_of};
ghost use Rattle.candidate_words.specs.Answers.{status_code, status_words, record_words, looked_code, looked_words, decided_code, decided_words, leader_code, leader_words, comparison_number, ranking_words};

use decide::{Comparison, Decision};
use rank::{Candidate, Ranked};
use refusal::Refusal;
use senders::Record;

// A time and an exponent, each in a word.
fn port_words(x: (u64, i8)) -> [u64; 2]
    ensures { result ≡ status_words (Ok x) [] }
{
    [x.0, words::word_of_i8(x.1)]
}

// A port's last accepted time and its interval's exponent.
pub fn put_status(out: &mut [u64; 2], s: Result<(u64, i8), Refusal>) -> u64
    ensures answer { result ≡ status_code s }
    ensures words { out.new ≡ status_words s out.old }
{
    words::put(out, s.map(port_words).map_err(refusal::number))
}

// 1 and a record: the sender, sequenceId, how many receipts, the newest and the older, then what a candidate is made of.
fn record_words(r: Record) -> [u64; 15]
    ensures { result ≡ record_words r }
{
    let n = r.notice;
    let s = n.sender;
    let g = n.grandmaster;
    [
        1,
        s.clock,
        s.port as u64,
        n.sequence as u64,
        r.receipts as u64,
        r.newest,
        r.older,
        g.priority1 as u64,
        g.class as u64,
        g.accuracy as u64,
        g.variance as u64,
        g.priority2 as u64,
        g.identity,
        n.steps as u64,
        n.wrflags as u64,
    ]
}

// What looking into a slot gives: a record, or zeros where it never held one. They are written where they go: handed to `words::put` they would be
// copied, and `dz_record` of an empty slot takes 58 instructions for 27.
pub fn put_looked(out: &mut [u64; 15], l: Result<Option<Record>, Refusal>) -> u64
    ensures answer { result ≡ looked_code l }
    ensures words { out.new ≡ looked_words l out.old }
{
    match l {
        Err(x) => refusal::number(x),
        Ok(None) => {
            *out = [0; 15];
            0
        }
        Ok(Some(r)) => {
            *out = record_words(r);
            0
        }
    }
}

// What ranking and merging give. Forty-five words are written where they go: handed to `words::put` they would be copied.
pub fn put_ranking(out: &mut [u64; 45], x: Result<Ranked, Refusal>) -> u64
    ensures answer { result ≡ code_of (outcome_of x) }
    ensures words { out.new ≡ ranking_words x out.old }
{
    match x {
        Err(y) => refusal::answer(y),
        Ok(list) => {
            *out = crate::candidates::ranked_words(list);
            0
        }
    }
}

// A decision's number.
fn decision_words(d: Decision) -> [u64; 1]
    ensures { result ≡ decided_words (Ok d) [] }
{
    [election::code(d).into()]
}

// What deciding gives.
pub fn put_decided(out: &mut [u64; 1], a: Result<Decision, Refusal>) -> u64
    ensures answer { result ≡ decided_code a }
    ensures words { out.new ≡ decided_words a out.old }
{
    words::put(out, a.map(decision_words).map_err(refusal::number))
}

// Whom the clock follows: 1 and the parent, or zeros where our own clock leads.
pub fn put_leader(out: &mut [u64; 12], x: Result<Option<Candidate>, Refusal>) -> u64
    ensures answer { result ≡ leader_code x }
    ensures words { out.new ≡ leader_words x out.old }
{
    crate::candidates::put_asked(out, x)
}

// The number of a comparison's answer: 1 A better, 2 B better, 3 and 4 the same by topology, 5 error-1, 6 error-2. They are the C interface's,
// which counts from 1.
pub fn comparison_number(x: Comparison) -> u64
    ensures { result ≡ comparison_number x }
{
    match x {
        Comparison::ABetter => 1,
        Comparison::BBetter => 2,
        Comparison::ABetterByTopology => 3,
        Comparison::BBetterByTopology => 4,
        Comparison::Error1 => 5,
        Comparison::Error2 => 6,
    }
}
