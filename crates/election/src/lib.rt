#![tactic(auto)]
// Every port's decision in one call: from the clock's words, our own set and a time, the ranked list of all that eighteen
// ports hear, and what each port does about it. The first of the list is Ebest, the rest are the backups.
//
// Refused with 11 where asking some port for its candidates at that time is; then no decision is written. What a decision
// brings about is left to the host.
ghost use Rattle.std.specs.Prelude.{◌≡◌, [], map, suc, ◌≤◌, get_or};
ghost use Rattle.rank.specs.Ranked.{pack};
ghost use Rattle.senders.specs.Port.{tab};
ghost use Rattle.ports.specs.Places.{candidate_at, found_at};
ghost use Rattle.election.specs.Elected.{every_port, any_late, elected_of};
ghost use Rattle.election.specs.Decisions.{code_of, erbest_of, out_after, parent_of};
ghost use Rattle.election.specs.Places.{top_of, rank_among, put_at, with_place, gather, places_at, listed_in, octet_by, Each, Inside, Comes, Joins, Held};
ghost use Rattle.refusal.specs.Limits.{port_count};

use decide::{Decision, Lead};
use ports::WORDS;
use rank::{Candidate, Grandmaster, Ranked};
use refusal::Refusal;

// The ports of the clock are numbered from 1 to this.
const PORTS: u8 = refusal::PORTS as u8;

// The best candidates that some ports hear, by their places in the words, best first: the first `len` places. One of a port,
// and no more than four. It is an array with a length beside, as there is no heap.
#[derive(Clone, Copy)]
struct Top {
    len: usize,
    places: [usize; 4],
}

impl Top {
    // The places.
    fn used(&self) -> &[usize]
        requires { self.now.len ≤ 4 }
        ensures { result.now ≡ top_of self.now }
    {
        &self.places[..self.len]
    }
}

// How many of the places of `top` the candidate at `a` does not stand before.
fn position(words: &[u64; WORDS], top: Top, a: usize) -> usize
    requires { Comes a top }
    ensures { result ≡ rank_among words.now a (top_of top) }
{
    for i in 0..top.len {
        if ports::places::is_before(words, a, top.places[i]) {
            return i;
        }
    }
    top.len
}

// The places with one more behind the first `i` of them.
fn put_at(top: Top, i: usize, a: usize) -> Top
    requires { (top.len ≤ 4) × (i ≤ top.len) }
    ensures { (top_of result ≡ put_at i a (top_of top)) × (result.len ≤ 4) }
{
    let [b, c, d, _] = top.places;
    let places = match i {
        0 => [a, b, c, d],
        1 => [b, a, c, d],
        2 => [b, c, a, d],
        3 => [b, c, d, a],
        _ => return top,
    };
    Top {
        len: (top.len + 1).min(4),
        places,
    }
}

// The places with one port's more, where it has one. 0 stays for none: no record is there, and eighteen places are as many plain words.
fn with_place(words: &[u64; WORDS], top: Top, a: usize) -> Top
    requires { Joins a top }
    ensures { (top_of result ≡ with_place words.now (top_of top) a) × (result.len ≤ 4) }
{
    if a == 0 {
        return top;
    }
    put_at(top, position(words, top, a), a)
}

// Asks each port for its best at `t`: the place of each, and those of the four best of all.
fn listen(words: &[u64; WORDS], t: u64, places: &mut [usize; refusal::PORTS]) -> Top
    ensures top { (top_of result ≡ gather words.now t [] every_port) × (result.len ≤ 4) }
    ensures places { places.new ≡ places_at words.now t }
{
    let mut top = Top {
        len: 0,
        places: [0; 4],
    };
    for p in 1..PORTS + 1 {
        let a = ports::places::place(words, p, t);
        places[p as usize - 1] = a;
        top = with_place(words, top, a);
    }
    top
}

// The ranked list of the candidates at the places.
fn list_of(words: &[u64; WORDS], top: Top) -> Ranked
    requires { Held top }
    ensures { result ≡ pack (map (candidate_at words.now) (top_of top)) }
{
    let mut list = rank::empty();
    list.len = top.len;
    for i in 0..top.len {
        list.slots[i] = ports::places::candidate(words, top.places[i]);
    }
    list
}

// Whether `t` lies before the last accepted time of some port.
fn late(words: &[u64; WORDS], t: u64) -> bool
    ensures { result ≡ any_late words.now t every_port }
{
    for p in 1..PORTS + 1 {
        if ports::places::is_late(words, p, t) {
            return true;
        }
    }
    false
}

// The ranked list of all candidates of all ports at `t`: of each port the best alone can be in it.
pub fn elect(words: &[u64; WORDS], t: u64) -> Result<Ranked, Refusal>
    ensures { result ≡ elected_of words.now t every_port }
{
    if late(words, t) {
        return Err(Refusal::Backward);
    }
    let top = listen(words, t, &mut [0; refusal::PORTS]);
    Ok(list_of(words, top))
}

// A decision's number: M1, M2, M3, S1, S2, P1, P2 are 1 to 7. These are the C interface's; `as u8` would put them into the order of the variants.
pub fn code(d: Decision) -> u8
    ensures { result ≡ code_of d }
{
    match d {
        Decision::M1 => 1,
        Decision::M2 => 2,
        Decision::M3 => 3,
        Decision::S1 => 4,
        Decision::S2 => 5,
        Decision::P1 => 6,
        Decision::P2 => 7,
    }
}

// Whether one of the places is of port `p`.
fn listed(top: Top, p: u8) -> bool
    requires { (top.len ≤ 4) × Each Inside (top_of top) }
    ensures { result ≡ listed_in p (top_of top) }
{
    for a in top.used() {
        if ports::places::port_of(*a) == p as usize {
            return true;
        }
    }
    false
}

// The candidate at a port's place, as deciding takes it.
fn erbest(words: &[u64; WORDS], a: usize) -> Option<Candidate>
    requires { Inside a }
    ensures { result ≡ erbest_of (found_at words.now a) }
{
    if a == 0 {
        return None;
    }
    Some(ports::places::candidate(words, a))
}

// The octet of port `p`, whose best is at `a`.
fn octet(words: &[u64; WORDS], own: Grandmaster, lead: Lead, top: Top, p: u8, a: usize) -> u8
    requires { Held top × Inside a }
    ensures { result ≡ octet_by words.now own lead (top_of top) p a }
{
    let best = erbest(words, a);
    let its = listed(top, p);
    code(decide::led(own, lead, its, p, best))
}

// Writes each port's octet.
fn write(
    words: &[u64; WORDS],
    own: Grandmaster,
    lead: Lead,
    top: Top,
    places: &[usize; refusal::PORTS],
    out: &mut [u8; refusal::PORTS],
)
    requires { Held top × Each Inside places.now }
    ensures { out.new ≡ tab port_count (λ i. octet_by words.now own lead (top_of top) (suc i) (get_or places.now i 0)) }
{
    for p in 1..PORTS + 1 {
        let a = places[p as usize - 1];
        out[p as usize - 1] = octet(words, own, lead, top, p, a);
    }
}

// Decides every port at `t`: the ranked list of all ports, and in `out` the number of each port's decision, port 1 first.
pub fn decide_all(
    words: &[u64; WORDS],
    own: Grandmaster,
    t: u64,
    out: &mut [u8; refusal::PORTS],
) -> Result<Ranked, Refusal>
    ensures { (result ≡ elected_of words.now t every_port) × (out.new ≡ out_after own words.now t out.old) }
{
    if late(words, t) {
        return Err(Refusal::Backward);
    }
    let mut places = [0; refusal::PORTS];
    let top = listen(words, t, &mut places);
    let list = list_of(words, top);
    let lead = decide::leading(own, list);
    write(words, own, lead, top, &places, out);
    Ok(list)
}

// The parent by a ranked list: Ebest, unless our own clock leads. Refused with 15 where the list is not a ranked list.
pub fn parent(own: Grandmaster, list: Ranked) -> Result<Option<Candidate>, Refusal>
    ensures { result ≡ parent_of own list }
{
    if !rank::is_ranked(list) {
        return Err(Refusal::Unranked);
    }
    match decide::leading(own, list) {
        Lead::Ebest(e) => Ok(Some(e)),
        Lead::Class | Lead::Ours => Ok(None),
    }
}
