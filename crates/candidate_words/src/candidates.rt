// Candidates, ranked lists, data sets and our own quality in words, in the order of docs/VECTORS.md. Out of words a number is taken modulo the
// width of its field; `fits` tells whether it is the number that stands there.
ghost use Rattle.std.specs.Prelude.{◌≡◌, ◌+◌, ◌≤◌, length};
ghost use Rattle.candidate_words.specs.Candidates.{grandmaster_at, identity_at, candidate_at, ranked_of, set_of, candidate_words, found_words, ranked_words, asked_code, asked_words, best_of};

use decide::DataSet;
use identity::PortIdentity;
use rank::{Candidate, Grandmaster, Ranked};
use refusal::Refusal;

// The grandmaster in the six words from `b` on.
pub fn grandmaster_at(w: &[u64], b: usize) -> Grandmaster
    requires { b + 6 ≤ length w.now }
    ensures { result ≡ grandmaster_at w.now b }
{
    Grandmaster {
        priority1: (w[b] % 256) as u8,
        class: (w[b + 1] % 256) as u8,
        accuracy: (w[b + 2] % 256) as u8,
        variance: (w[b + 3] % 65536) as u16,
        priority2: (w[b + 4] % 256) as u8,
        identity: w[b + 5],
    }
}

// The identity in the two words from `b` on.
fn identity_at(w: &[u64], b: usize) -> PortIdentity
    requires { b + 2 ≤ length w.now }
    ensures { result ≡ identity_at w.now b }
{
    PortIdentity {
        clock: w[b],
        port: (w[b + 1] % 65536) as u16,
    }
}

// The candidate in the eleven words from `b` on.
fn candidate_at(w: &[u64], b: usize) -> Candidate
    requires { b + 11 ≤ length w.now }
    ensures { result ≡ candidate_at w.now b }
{
    Candidate {
        grandmaster: grandmaster_at(w, b),
        steps: (w[b + 6] % 65536) as u16,
        sender: identity_at(w, b + 7),
        port: words::port_of(w[b + 9]),
        wrflags: (w[b + 10] % 65536) as u16,
    }
}

// The candidate in eleven words.
pub fn candidate_of(w: &[u64; 11]) -> Candidate
    ensures { result ≡ candidate_at w.now 0 }
{
    candidate_at(w, 0)
}

// The list in a count and four candidates; those past the count say nothing.
pub fn ranked_of(w: &[u64; 45]) -> Ranked
    ensures { result ≡ ranked_of w.now }
{
    let a = candidate_at(w, 1);
    let b = candidate_at(w, 12);
    let c = candidate_at(w, 23);
    let d = candidate_at(w, 34);
    Ranked {
        len: w[0] as usize,
        slots: [a, b, c, d],
    }
}

// The data set in eleven words.
pub fn set_of(w: &[u64; 11]) -> DataSet
    ensures { result ≡ set_of w.now }
{
    DataSet {
        grandmaster: grandmaster_at(w, 0),
        steps: (w[6] % 65536) as u16,
        sender: identity_at(w, 7),
        receiver: identity_at(w, 9),
    }
}

// A port's best in a word, 0 where there is none, and a candidate.
pub fn best_of(w: &[u64; 12]) -> Option<Candidate>
    ensures { result ≡ best_of w.now }
{
    if w[0] == 0 {
        return None;
    }
    Some(candidate_at(w, 1))
}

// A candidate in eleven words.
pub fn candidate_words(c: Candidate) -> [u64; 11]
    ensures { result ≡ candidate_words c }
{
    let g = c.grandmaster;
    let s = c.sender;
    [
        g.priority1 as u64,
        g.class as u64,
        g.accuracy as u64,
        g.variance as u64,
        g.priority2 as u64,
        g.identity,
        c.steps as u64,
        s.clock,
        s.port as u64,
        c.port as u64,
        c.wrflags as u64,
    ]
}

// 1 and a candidate.
pub fn found_words(c: Candidate) -> [u64; 12]
    ensures { result ≡ found_words c }
{
    let w = candidate_words(c);
    [
        1, w[0], w[1], w[2], w[3], w[4], w[5], w[6], w[7], w[8], w[9], w[10],
    ]
}

// A list in a count and four candidates.
pub fn ranked_words(r: Ranked) -> [u64; 45]
    ensures { result ≡ ranked_words r }
{
    let slots = r.slots;
    let a = candidate_words(slots[0]);
    let b = candidate_words(slots[1]);
    let c = candidate_words(slots[2]);
    let d = candidate_words(slots[3]);
    [
        r.len as u64,
        a[0],
        a[1],
        a[2],
        a[3],
        a[4],
        a[5],
        a[6],
        a[7],
        a[8],
        a[9],
        a[10],
        b[0],
        b[1],
        b[2],
        b[3],
        b[4],
        b[5],
        b[6],
        b[7],
        b[8],
        b[9],
        b[10],
        c[0],
        c[1],
        c[2],
        c[3],
        c[4],
        c[5],
        c[6],
        c[7],
        c[8],
        c[9],
        c[10],
        d[0],
        d[1],
        d[2],
        d[3],
        d[4],
        d[5],
        d[6],
        d[7],
        d[8],
        d[9],
        d[10],
    ]
}

// What asking for a candidate gives: 1 and the candidate, or zeros; a refusal leaves the words. They are written where they go: handed to
// `words::put`, `dz_candidate` takes 102 instructions for 74.
pub fn put_asked(out: &mut [u64; 12], a: Result<Option<Candidate>, Refusal>) -> u64
    ensures answer { result ≡ asked_code a }
    ensures words { out.new ≡ asked_words a out.old }
{
    match a {
        Err(x) => refusal::number(x),
        Ok(None) => {
            *out = [0; 12];
            0
        }
        Ok(Some(c)) => {
            *out = found_words(c);
            0
        }
    }
}
