// Three cards of six ports. Each ranks what its own ports hear, as a run of candidates, and the lists are merged upward.
ghost use Rattle.std.specs.Prelude.{◌≡◌, ◌≤◌, take};
ghost use Rattle.rank.specs.Calls.{ranking_of};

use crate::Now;
use rank::{Candidate, Ranked};
use refusal::Refusal;
use senders::SLOTS;

// Ports on a card, and candidates that they hear at most.
const PORTS: u8 = 6;

const MOST: usize = 96;

// The candidates of a card: the first n that it holds. The contract of `ranked` speaks of the first n of a buffer of fixed size.
#[derive(Clone, Copy)]
struct Heard {
    n: usize,
    held: [Candidate; MOST],
}

// The ranked list of the first n of a run.
fn ranked(held: [Candidate; MOST], n: usize) -> Result<Ranked, Refusal>
    requires { n ≤ 96 }
    ensures { result ≡ ranking_of (take n held) }
{
    rank::rank(&held[..n])
}

// The first port of a card.
pub fn first(card: u8) -> u8
    ensures { result ≤ 13 }
{
    card % 3 * PORTS + 1
}

// What the ports of a card hear.
fn run(now: Now<'_>, card: u8) -> Heard
    ensures { result.n ≤ 96 }
{
    // what stands in an unused slot of a ranked list fills the room that is not taken
    let mut held = [rank::empty().slots[0]; MOST];
    let mut n: usize = 0;
    let from = first(card);
    for i in 0..MOST {
        let port = from + (i / SLOTS) as u8;
        if let Ok(Some(c)) = ports::asking::candidate(now.words, port, i % SLOTS, now.t) {
            held[n] = c;
            n += 1;
        }
    }
    Heard { n, held }
}

impl Now<'_> {
    // A card's ranked list.
    pub fn list(self, card: u8) -> Result<Ranked, Refusal> {
        let Heard { n, held } = run(self, card);
        ranked(held, n)
    }

    // The ranked list of all cards.
    pub fn merged(self) -> Result<Ranked, Refusal> {
        let lower = rank::merge(self.list(0)?, self.list(1)?)?;
        rank::merge(lower, self.list(2)?)
    }
}
