#![tactic(auto)]
// What a port of the clock does about the masters that are heard: data sets compared as IEEE 1588-2008 compares them
// (9.3.4, figures 27 and 28), and the decision of each port (9.3.3, figure 26).
//
// Deciding refuses 8 (a port outside 1 to 18), then 15 (a list that is not a ranked list), also where the list is not
// looked at. The ranked list and the port's best come from `rank`. What a LISTENING port without Erbest does is left to
// the host, and so is everything that a decision brings about.
ghost use Rattle.std.specs.Prelude.{◌≡◌, ◌<◌};
ghost use Rattle.rank.specs.Ranked.{unpack};
ghost use Rattle.decide.specs.Comparing.{fewer_of, even_of, mirror_of, compare_of};
ghost use Rattle.decide.specs.Deciding.{own_set, set_of, beats_of, by_topology, own_beats, beats_erbest, nearer_of, decision_of, decide_of};
ghost use Rattle.decide.specs.Leading.{lead_of, by_class_of, by_ebest_of, led_of};

use identity::PortIdentity;
use rank::{Candidate, Grandmaster, Ranked};
use refusal::Refusal;

// What the comparison looks at: the grandmaster that a set leads to, in how many steps, who sent the set, and on which
// port it was received.
#[derive(Clone, Copy, Debug, PartialEq, Eq)]
pub struct DataSet {
    pub grandmaster: Grandmaster,
    pub steps: u16,
    pub sender: PortIdentity,
    pub receiver: PortIdentity,
}

// The six answers of the comparison of a set A with a set B.
#[derive(Clone, Copy, Debug, PartialEq, Eq)]
pub enum Comparison {
    ABetter,
    BBetter,
    ABetterByTopology,
    BBetterByTopology,
    Error1,
    Error2,
}

impl Comparison {
    // The same answer, with A and B changing places.
    fn mirror(self) -> Comparison
        ensures { result ≡ mirror_of self }
    {
        match self {
            Comparison::ABetter => Comparison::BBetter,
            Comparison::BBetter => Comparison::ABetter,
            Comparison::ABetterByTopology => Comparison::BBetterByTopology,
            Comparison::BBetterByTopology => Comparison::ABetterByTopology,
            error => error,
        }
    }

    // Whether A beats B: it is better, or better by topology. An error beats nothing.
    fn beats(self) -> bool
        ensures { result ≡ beats_of self }
    {
        matches!(self, Comparison::ABetter | Comparison::ABetterByTopology)
    }

    // Whether A is better by topology.
    fn by_topology(self) -> bool
        ensures { result ≡ by_topology self }
    {
        matches!(self, Comparison::ABetterByTopology)
    }
}

// One grandmaster, and A has fewer steps than B: A is better by two steps or more; by a single step the receiver and
// the sender of B say how.
fn fewer(a: DataSet, b: DataSet) -> Comparison
    requires { a.steps < b.steps }
    ensures { result ≡ fewer_of a b }
{
    if 2 <= b.steps - a.steps {
        return Comparison::ABetter;
    }
    let r = b.receiver;
    let s = b.sender;
    if rank::precedes(r, s) {
        return Comparison::ABetter;
    }
    if rank::precedes(s, r) {
        return Comparison::ABetterByTopology;
    }
    Comparison::Error1
}

// One grandmaster in as many steps: the lower sender, then the lower receiver port number. Test by test: by `cmp` and a match on its answer a
// comparison takes twelve instructions more, and deciding all ports 9,147 where 9,000 are wanted.
fn even(a: DataSet, b: DataSet) -> Comparison
    ensures { result ≡ even_of a b }
{
    let s = a.sender;
    let t = b.sender;
    if rank::precedes(s, t) {
        return Comparison::ABetterByTopology;
    }
    if rank::precedes(t, s) {
        return Comparison::BBetterByTopology;
    }
    let q = a.receiver;
    let r = b.receiver;
    if q.port < r.port {
        return Comparison::ABetterByTopology;
    }
    if r.port < q.port {
        return Comparison::BBetterByTopology;
    }
    Comparison::Error2
}

// The comparison of two data sets.
pub fn compare(a: DataSet, b: DataSet) -> Comparison
    ensures { result ≡ compare_of a b }
{
    let g = a.grandmaster;
    let h = b.grandmaster;
    if g.identity != h.identity {
        if rank::outranks(g, h) {
            return Comparison::ABetter;
        }
        return Comparison::BBetter;
    }
    if a.steps < b.steps {
        return fewer(a, b);
    }
    if b.steps < a.steps {
        return fewer(b, a).mirror();
    }
    even(a, b)
}

// Our own set: our clock is its grandmaster, in no steps, and with port 0 its sender and receiver.
pub fn own_set(own: Grandmaster) -> DataSet
    ensures { result ≡ own_set own }
{
    let clock = own.identity;
    DataSet {
        grandmaster: own,
        steps: 0,
        sender: PortIdentity { clock, port: 0 },
        receiver: PortIdentity { clock, port: 0 },
    }
}

// The set of a candidate that `clock`, our own, received on port `port`.
fn set_of(c: Candidate, clock: u64, port: u8) -> DataSet
    ensures { result ≡ set_of c clock port }
{
    DataSet {
        grandmaster: c.grandmaster,
        steps: c.steps,
        sender: c.sender,
        receiver: PortIdentity {
            clock,
            port: port as u16,
        },
    }
}

// Whether our own set beats a candidate on port `port`.
#[tactic(auto, unfolding(crate::specs::Deciding::own_beats))]
fn own_beats(own: Grandmaster, c: Candidate, port: u8) -> bool
    ensures { result ≡ own_beats own c port }
{
    compare(own_set(own), set_of(c, own.identity, port)).beats()
}

// Whether our own set beats the best of port `port`; anything beats an absent one.
fn beats_erbest(own: Grandmaster, port: u8, best: Option<Candidate>) -> bool
    ensures { result ≡ beats_erbest own port best }
{
    best.is_none_or(|c| own_beats(own, c, port))
}

// Whether Ebest, the candidate `e`, is better by topology than the best of port `port`; not so where that is absent.
#[tactic(auto, unfolding(crate::specs::Deciding::nearer_of))]
fn nearer(e: Candidate, clock: u64, port: u8, best: Option<Candidate>) -> bool
    ensures { result ≡ nearer_of e clock port best }
{
    best.is_some_and(|c| compare(set_of(e, clock, e.port), set_of(c, clock, port)).by_topology())
}

// What a port is told to do: be a master (M), a slave (S) or passive (P), and by which rule.
#[derive(Clone, Copy, Debug, PartialEq, Eq)]
pub enum Decision {
    M1,
    M2,
    M3,
    P1,
    P2,
    S1,
    S2,
}

// Whose lead all ports follow: our own clock's by its class, our own clock's because nothing that is heard beats it, or that
// of Ebest.
#[derive(Clone, Copy, Debug, PartialEq, Eq)]
pub enum Lead {
    Class,
    Ours,
    Ebest(Candidate),
}

// The lead by our own clock and a ranked list. It is the same for every port.
pub fn leading(own: Grandmaster, list: Ranked) -> Lead
    ensures { result ≡ lead_of own (unpack list) }
{
    if (1 <= own.class) & (own.class <= 127) {
        return Lead::Class;
    }
    if list.len == 0 {
        return Lead::Ours;
    }
    let e = list.slots[0];
    if own_beats(own, e, e.port) {
        return Lead::Ours;
    }
    Lead::Ebest(e)
}

// The decision of port `port` where our class is one of 1 to 127.
fn by_class(own: Grandmaster, port: u8, best: Option<Candidate>) -> Decision
    ensures { result ≡ by_class_of own port best }
{
    if beats_erbest(own, port, best) {
        return Decision::M1;
    }
    Decision::P1
}

// The decision of port `port` where Ebest, the candidate `e`, leads; `listed` says whether the port is in the ranked list.
fn by_ebest(e: Candidate, clock: u64, listed: bool, port: u8, best: Option<Candidate>) -> Decision
    ensures { result ≡ by_ebest_of e clock listed port best }
{
    if e.port == port {
        return Decision::S1;
    }
    if !nearer(e, clock, port, best) {
        return Decision::M3;
    }
    if listed {
        return Decision::S2;
    }
    Decision::P2
}

// The decision of port `port`, a port of the clock, by the lead, and by whether the port is in the ranked list.
pub fn led(
    own: Grandmaster,
    lead: Lead,
    listed: bool,
    port: u8,
    best: Option<Candidate>,
) -> Decision
    ensures { result ≡ led_of own lead listed port best }
{
    match lead {
        Lead::Class => by_class(own, port, best),
        Lead::Ours => Decision::M2,
        Lead::Ebest(e) => by_ebest(e, own.identity, listed, port, best),
    }
}

// The decision of port `port`, a port of the clock, by a ranked list.
fn rule(own: Grandmaster, list: Ranked, port: u8, best: Option<Candidate>) -> Decision
    ensures { result ≡ decision_of own (unpack list) port best }
{
    let lead = leading(own, list);
    let listed = rank::holds(list, port);
    led(own, lead, listed, port, best)
}

// The decision of port `port`: by our own clock, the ranked list of all ports, and the port's best.
#[tactic(auto, unfolding(refusal::specs::Choice::refuse))]
pub fn decide(
    own: Grandmaster,
    list: Ranked,
    port: u8,
    best: Option<Candidate>,
) -> Result<Decision, Refusal>
    ensures { result ≡ decide_of own list port best }
{
    if !refusal::is_port(port) {
        return Err(Refusal::Port);
    }
    if !rank::is_ranked(list) {
        return Err(Refusal::Unranked);
    }
    Ok(rule(own, list, port, best))
}
