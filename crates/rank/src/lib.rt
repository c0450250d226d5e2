#![tactic(auto)]
// Candidates, ranked. A candidate is what a card knows of one master that it hears on one port. Rank order
// sorts candidates; a ranked list holds the best candidate of each port, in rank order, cut after four.
// Ranked lists merge, in any order and any grouping, to the ranked list of everything that was heard.
//
// Ranking a run refuses 17 (more than 288 candidates), then 8 (a port outside 1 to 18); merging refuses 15
// (a list that is not a ranked list).
// Which candidates a port has is left to the sender records, and what a port does about them to the decision.
ghost use Rattle.std.specs.Prelude.{◌≡◌, []};
ghost use Rattle.rank.specs.Order.{identity_of, grade_of, lex, earlier_of};
ghost use Rattle.rank.specs.Ranked.{blank_of, pack, unpack, left_out, sink_of, insert_of, insert_all, holds_of, is_ranked};
ghost use Rattle.rank.specs.Calls.{merge_of, ranking_of};

use identity::PortIdentity;
use refusal::Refusal;

// A ranked list is cut after so many.
const PLACES: usize = 4;

// A run holds at most so many candidates.
const MOST: usize = 288;

// A grandmaster as it announces itself: its quality, and its clockIdentity. The fields stand in the order in which rank order looks at them.
#[derive(Clone, Copy, Debug, PartialEq, Eq, PartialOrd, Ord)]
pub struct Grandmaster {
    pub priority1: u8,
    pub class: u8,
    pub accuracy: u8,
    pub variance: u16,
    pub priority2: u8,
    pub identity: u64,
}

// What a card knows of one master: the ten keys of rank order, in that order, and nothing else.
#[derive(Clone, Copy, Debug, PartialEq, Eq, PartialOrd, Ord)]
pub struct Candidate {
    pub grandmaster: Grandmaster,
    pub steps: u16,
    pub sender: PortIdentity,
    pub port: u8,
    pub wrflags: u16,
}

// Whether `i` comes before `j` as ten octets, clock then port.
pub fn precedes(i: PortIdentity, j: PortIdentity) -> bool
    ensures { result ≡ lex (identity_of i) (identity_of j) }
{
    i < j
}

// Whether grandmaster `g` comes before `h`: at the first of its six keys that differs, the lower.
pub fn outranks(g: Grandmaster, h: Grandmaster) -> bool
    ensures { result ≡ lex (grade_of g) (grade_of h) }
{
    g < h
}

// Whether `a` stands before `b` in rank order.
pub fn earlier(a: Candidate, b: Candidate) -> bool
    ensures { result ≡ earlier_of a b }
{
    a < b
}

// A ranked list: the first `len` of the slots, or all of them where it says more. The slots past them say nothing. A length stands beside a buffer
// of fixed size: there is no heap, and a list that says more than four is told from a ranked list by `is_ranked`.
#[derive(Clone, Copy)]
pub struct Ranked {
    pub len: usize,
    pub slots: [Candidate; PLACES],
}

impl Ranked {
    // The slots that are used.
    fn used(&self) -> &[Candidate]
        ensures { result.now ≡ unpack self.now }
    {
        &self.slots[..self.len.min(PLACES)]
    }
}

// What an unused slot holds.
fn blank() -> Candidate
    ensures { result ≡ blank_of }
{
    Candidate {
        grandmaster: Grandmaster {
            priority1: 0,
            class: 0,
            accuracy: 0,
            variance: 0,
            priority2: 0,
            identity: 0,
        },
        steps: 0,
        sender: PortIdentity { clock: 0, port: 0 },
        port: 0,
        wrflags: 0,
    }
}

// The ranked list of nothing.
pub fn empty() -> Ranked
    ensures { result ≡ pack [] }
{
    Ranked {
        len: 0,
        slots: [blank(); PLACES],
    }
}

// Whether a list is full and a candidate does not stand before its last: then there is no place for it.
fn left_out(r: Ranked, c: Candidate) -> bool
    ensures { result ≡ left_out r c }
{
    r.len == PLACES && !earlier(c, r.slots[3])
}

// A candidate goes down the list, and whichever of two stands later goes on, until one is left out: at an entry of the
// candidate's own port, or past the last slot.
fn sink(r: Ranked, c: Candidate) -> Ranked
    ensures { result ≡ sink_of r c }
{
    let p = c.port;
    let n = r.len.min(PLACES);
    let mut slots = r.slots;
    let mut x = c;
    for i in 0..n {
        let y = slots[i];
        if earlier(x, y) {
            slots[i] = x;
            x = y;
        }
        if y.port == p {
            return Ranked { len: n, slots };
        }
    }
    if n < PLACES {
        slots[n] = x;
        return Ranked { len: n + 1, slots };
    }
    Ranked { len: n, slots }
}

// The ranked list with one candidate more.
fn insert(r: Ranked, c: Candidate) -> Ranked
    ensures { result ≡ insert_of r c }
{
    if left_out(r, c) {
        return r;
    }
    sink(r, c)
}

// The same list with its unused slots blank.
fn tidy(r: Ranked) -> Ranked
    ensures { result ≡ pack (unpack r) }
{
    let n = r.len.min(PLACES);
    let mut slots = r.slots;
    slots[n..].fill(blank());
    Ranked { len: n, slots }
}

// A ranked list with each candidate of another more.
fn insert_all(to: Ranked, from: Ranked) -> Ranked
    ensures { result ≡ insert_all to (unpack from) }
{
    let mut r = to;
    for c in from.used() {
        r = insert(r, *c);
    }
    r
}

// Whether one of some candidates is of port `p`.
fn any_of(list: &[Candidate], p: u8) -> bool
    ensures { result ≡ holds_of p list.now }
{
    list.iter().any(|c| c.port == p)
}

// Whether a candidate of port `p` is in the list.
pub fn holds(r: Ranked, p: u8) -> bool
    ensures { result ≡ holds_of p (unpack r) }
{
    any_of(r.used(), p)
}

// Whether a list is a ranked list: at most four, of different ports from 1 to 18, rising strictly in rank order. Each slot's
// port is the clock's and no later slot's, and the next slot's candidate stands after it.
pub fn is_ranked(r: Ranked) -> bool
    ensures { result ≡ is_ranked r }
{
    if PLACES < r.len {
        return false;
    }
    let mut rest = r.used();
    while let [x, later @ ..] = rest {
        if !refusal::is_port(x.port) {
            return false;
        }
        if any_of(later, x.port) {
            return false;
        }
        if let [y, ..] = later {
            if !earlier(*x, *y) {
                return false;
            }
        }
        rest = later;
    }
    true
}

// The ranked list of all that two ranked lists were ranked of.
#[tactic(auto, unfolding(refusal::specs::Choice::refuse))]
pub fn merge(a: Ranked, b: Ranked) -> Result<Ranked, Refusal>
    ensures { result ≡ merge_of a b }
{
    if !(is_ranked(a) & is_ranked(b)) {
        return Err(Refusal::Unranked);
    }
    Ok(insert_all(tidy(a), b))
}

// The ranked list of a run of candidates, which come in any order and may be repeated.
#[tactic(auto, unfolding(refusal::specs::Choice::refuse))]
pub fn rank(run: &[Candidate]) -> Result<Ranked, Refusal>
    ensures { result ≡ ranking_of run.now }
{
    if MOST < run.len() {
        return Err(Refusal::Many);
    }
    let mut list = empty();
    for c in run {
        if !refusal::is_port(c.port) {
            return Err(Refusal::Port);
        }
        list = insert(list, *c);
    }
    Ok(list)
}
