// Who the parent is: by the cards' merged lists, or by the ports' bests; and a change of it.
use board::{Now, Parent};
use rank::Ranked;
use refusal::Refusal;
use std::io;
use std::io::Write;

// What every port is to do, and the ranked list of them all.
pub fn decided(now: Now<'_>) -> ([u8; refusal::PORTS], Result<Ranked, Refusal>) {
    let mut decisions = [0u8; refusal::PORTS];
    let list = election::decide_all(now.words, cast::OWN, now.t, &mut decisions);
    (decisions, list)
}

// The parent by a ranked list; none where our own clock leads.
fn led_by(list: Result<Ranked, Refusal>) -> Option<Parent> {
    let leader = election::parent(cast::OWN, list.ok()?).ok()?;
    leader.map(board::sender_of)
}

// The parent from the cards' merged lists.
pub fn by_cards(now: Now<'_>) -> Option<Parent> {
    led_by(now.merged())
}

// The same, from the ports' bests, which is faster.
fn by_ports(now: Now<'_>) -> Option<Parent> {
    let (_, list) = decided(now);
    led_by(list)
}

// What tells one parent from another.
fn name(p: Option<Parent>) -> Option<(u64, u8)> {
    p.map(|p| (p.clock, p.port))
}

// The parent; where it is another than before, the page says why.
pub fn watched<W: Write>(
    out: &mut W,
    now: Now<'_>,
    old: Option<Parent>,
) -> io::Result<Option<Parent>> {
    let new = by_ports(now);
    if name(new) != name(old) {
        now.change_told(out, old, new, cast::OWN)?;
    }
    Ok(new)
}
