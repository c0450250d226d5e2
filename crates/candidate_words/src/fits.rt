// Whether words are numbers that their fields can hold. A candidate's port is not asked for here: a port that is none of 1 to 18 is refused by
// the engine itself, and that of a port's best is not looked at.
ghost use Rattle.std.specs.Prelude.{◌≡◌, ◌+◌, ◌*◌, ◌≤◌, ◌<◌, length};
ghost use Rattle.candidate_words.specs.Fits.{grandmaster_fits, candidate_fits, slot_fits, list_fits, set_fits, best_fits, ranking_fitted, answer_fitted, leader_fitted};

use decide::Decision;
use rank::{Candidate, Ranked};
use refusal::Refusal;

// The six words of a grandmaster from `b` on.
pub fn grandmaster_fits(w: &[u64], b: usize) -> bool
    requires { b + 6 ≤ length w.now }
    ensures { result ≡ grandmaster_fits w.now b }
{
    (w[b] < 256) & (w[b + 1] < 256) & (w[b + 2] < 256) & (w[b + 3] < 65536) & (w[b + 4] < 256)
}

// The eleven words of a candidate from `b` on.
fn candidate_fits(w: &[u64], b: usize) -> bool
    requires { b + 11 ≤ length w.now }
    ensures { result ≡ candidate_fits w.now b }
{
    let g = grandmaster_fits(w, b);
    g & (w[b + 6] < 65536) & (w[b + 8] < 65536) & (w[b + 10] < 65536)
}

// The eleven words of a candidate.
pub fn one_fits(w: &[u64; 11]) -> bool
    ensures { result ≡ candidate_fits w.now 0 }
{
    candidate_fits(w, 0)
}

// Slot `i` of a list; those past the count say nothing.
fn slot_fits(w: &[u64; 45], i: usize) -> bool
    requires { i < 4 }
    ensures { result ≡ slot_fits w.now i }
{
    let fits = candidate_fits(w, 1 + 11 * i);
    (w[0] <= i as u64) | fits
}

// A list.
pub fn list_fits(w: &[u64; 45]) -> bool
    ensures { result ≡ list_fits w.now }
{
    let a = slot_fits(w, 0);
    let b = slot_fits(w, 1);
    let c = slot_fits(w, 2);
    let d = slot_fits(w, 3);
    a & b & c & d
}

// A data set.
pub fn set_fits(w: &[u64; 11]) -> bool
    ensures { result ≡ set_fits w.now }
{
    let g = grandmaster_fits(w, 0);
    g & (w[6] < 65536) & (w[8] < 65536) & (w[10] < 65536)
}

// A port's best, where there is one.
pub fn best_fits(w: &[u64; 12]) -> bool
    ensures { result ≡ best_fits w.now }
{
    let fits = candidate_fits(w, 1);
    (w[0] == 0) | fits
}

// What ranking or merging answers whose words may not fit: 18 where they do not, unless the call itself refuses. This and the two below
// differ in the type alone, and stay apart as their definitions and `.._determined` theorems do.
pub fn ranking_fitted(r: Result<Ranked, Refusal>, fits: bool) -> Result<Ranked, Refusal>
    ensures { result ≡ ranking_fitted fits r }
{
    match r {
        Ok(_) if !fits => Err(Refusal::Field),
        _ => r,
    }
}

// The same of deciding.
pub fn answer_fitted(d: Result<Decision, Refusal>, fits: bool) -> Result<Decision, Refusal>
    ensures { result ≡ answer_fitted fits d }
{
    match d {
        Ok(_) if !fits => Err(Refusal::Field),
        _ => d,
    }
}

// The same of asking for the parent.
pub fn leader_fitted(
    p: Result<Option<Candidate>, Refusal>,
    fits: bool,
) -> Result<Option<Candidate>, Refusal>
    ensures { result ≡ leader_fitted fits p }
{
    match p {
        Ok(_) if !fits => Err(Refusal::Field),
        _ => p,
    }
}
