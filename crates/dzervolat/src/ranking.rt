// Ranking, merging, deciding and comparing. A candidate is eleven words, a ranked list a count and four candidates, our own
// quality the first six words of a candidate, with our clockIdentity as its grandmaster.
//
// What a word's field cannot hold is refused with 18, after all that the call itself refuses.
ghost use Rattle.std.specs.Prelude.{◌≡◌};
ghost use Rattle.refusal.specs.Refusal.{code_of};
ghost use Rattle.rank.specs.Calls.{outcome_of};
ghost use Rattle.candidate_words.specs.Answers.{ranking_words, decided_code, decided_words, leader_code, leader_words};
ghost use Rattle.dzervolat.specs.Ranking.{ranked_run, merged_lists, decided_fits, decided_by, elected_by, decisions_after, parent_in, sets_fit, compared_of, compared_after};

use candidate_words::{candidates, fits};
use decide::Decision;
use rank::{Candidate, Ranked};
use refusal::Refusal;

// The ranked list of a run of candidates, in any order, with repeats.
#[unsafe(no_mangle)]
pub extern "C" fn dz_rank(run: &[[u64; 11]], list: &mut [u64; 45]) -> u64
    ensures answer { result ≡ code_of (outcome_of (ranked_run run.now)) }
    ensures words { list.new ≡ ranking_words (ranked_run run.now) list.old }
{
    candidate_words::places::rank_run(run, list)
}

// The ranked list of all that two ranked lists were ranked of.
#[unsafe(no_mangle)]
pub extern "C" fn dz_merge(a: &[u64; 45], b: &[u64; 45], list: &mut [u64; 45]) -> u64
    ensures answer { result ≡ code_of (outcome_of (merged_lists a.now b.now)) }
    ensures words { list.new ≡ ranking_words (merged_lists a.now b.now) list.old }
{
    candidate_words::places::merge_lists(a, b, list)
}

// Whether the words that a port is decided by all fit.
fn decided_fits(own: &[u64; 6], list: &[u64; 45], best: &[u64; 12]) -> bool
    ensures { result ≡ decided_fits own.now list.now best.now }
{
    let ours = fits::grandmaster_fits(own, 0);
    let ranks = fits::list_fits(list);
    let its = fits::best_fits(best);
    ours & ranks & its
}

// The decision of a port, and whether the words fit.
fn decided(
    own: &[u64; 6],
    list: &[u64; 45],
    port: u64,
    best: &[u64; 12],
) -> Result<Decision, Refusal>
    ensures { result ≡ decided_by own.now list.now port best.now }
{
    let g = candidates::grandmaster_at(own, 0);
    let l = candidates::ranked_of(list);
    let e = candidates::best_of(best);
    let p = words::port_of(port);
    let d = decide::decide(g, l, p, e);
    fits::answer_fitted(d, decided_fits(own, list, best))
}

// The decision of a port by our own quality, the ranked list of all ports, and the port's best.
#[unsafe(no_mangle)]
pub extern "C" fn dz_decide(
    own: &[u64; 6],
    list: &[u64; 45],
    port: u64,
    best: &[u64; 12],
    decision: &mut [u64; 1],
) -> u64
    ensures answer { result ≡ decided_code (decided_by own.now list.now port best.now) }
    ensures words { decision.new ≡ decided_words (decided_by own.now list.now port best.now) decision.old }
{
    candidate_words::answers::put_decided(decision, decided(own, list, port, best))
}

// Every port decided where our own quality's words fit; where they do not, the list alone, and no decision is written.
fn elected(
    ports: &[u64; ports::WORDS],
    t: u64,
    own: &[u64; 6],
    decisions: &mut [u8; refusal::PORTS],
) -> Result<Ranked, Refusal>
    ensures answer { result ≡ elected_by own.now ports.now t }
    ensures octets { decisions.new ≡ decisions_after own.now ports.now t decisions.old }
{
    if !fits::grandmaster_fits(own, 0) {
        return fits::ranking_fitted(election::elect(ports, t), false);
    }
    let g = candidates::grandmaster_at(own, 0);
    fits::ranking_fitted(election::decide_all(ports, g, t, decisions), true)
}

// Every port's decision at a time, from the ports' words and our own quality; and the ranked list of all ports.
#[unsafe(no_mangle)]
pub extern "C" fn dz_decide_all(
    ports: &[u64; ports::WORDS],
    t: u64,
    own: &[u64; 6],
    decisions: &mut [u8; refusal::PORTS],
    list: &mut [u64; 45],
) -> u64
    ensures answer { result ≡ code_of (outcome_of (elected_by own.now ports.now t)) }
    ensures octets { decisions.new ≡ decisions_after own.now ports.now t decisions.old }
    ensures words { list.new ≡ ranking_words (elected_by own.now ports.now t) list.old }
{
    let r = elected(ports, t, own, decisions);
    candidate_words::answers::put_ranking(list, r)
}

// The parent by our own quality and a list, and whether their words fit.
fn parent(own: &[u64; 6], list: &[u64; 45]) -> Result<Option<Candidate>, Refusal>
    ensures { result ≡ parent_in own.now list.now }
{
    let g = candidates::grandmaster_at(own, 0);
    let l = candidates::ranked_of(list);
    let x = election::parent(g, l);
    let ours = fits::grandmaster_fits(own, 0);
    let ranks = fits::list_fits(list);
    fits::leader_fitted(x, ours & ranks)
}

// The parent by our own quality and the ranked list of all ports; the rest of the list are its backups.
#[unsafe(no_mangle)]
pub extern "C" fn dz_parent(own: &[u64; 6], list: &[u64; 45], found: &mut [u64; 12]) -> u64
    ensures answer { result ≡ leader_code (parent_in own.now list.now) }
    ensures words { found.new ≡ leader_words (parent_in own.now list.now) found.old }
{
    candidate_words::answers::put_leader(found, parent(own, list))
}

// Whether the words of two data sets fit.
fn sets_fit(a: &[u64; 11], b: &[u64; 11]) -> bool
    ensures { result ≡ sets_fit a.now b.now }
{
    let first = fits::set_fits(a);
    let second = fits::set_fits(b);
    first & second
}

// The comparison of two data sets.
#[unsafe(no_mangle)]
pub extern "C" fn dz_compare(a: &[u64; 11], b: &[u64; 11], answer: &mut [u64; 1]) -> u64
    ensures answer { result ≡ code_of (compared_of a.now b.now) }
    ensures words { answer.new ≡ compared_after a.now b.now answer.old }
{
    if !sets_fit(a, b) {
        return refusal::code(Err(Refusal::Field));
    }
    let x = candidates::set_of(a);
    let y = candidates::set_of(b);
    *answer = [candidate_words::answers::comparison_number(decide::compare(x, y))];
    0
}
