#![tactic(auto)]
// What the ports keep and how it ranks, as the program `day` tells it: a port's live records, the record of a sender, why a parent
// is another than before, what each card ranks, and the table of ports. Everything is asked of the engine. No contract can say what
// is printed, so but for `cards::ranked` its functions have none that fixes an answer: they are proved to end and to stay in
// bounds, and what they print is compared with a stored page.
use rank::Candidate;
use std::fmt;

pub mod cards;
pub mod change;
pub mod kept;
pub mod table;

// The clock's ports at a time: everything that the day tells of them is asked of this.
#[derive(Clone, Copy)]
pub struct Now<'a> {
    pub words: &'a [u64; ports::WORDS],
    pub t: u64,
}

// A parent that is another clock than ours: its name, the port that hears it, and its wrFlags.
#[derive(Clone, Copy)]
pub struct Parent {
    pub clock: u64,
    pub port: u8,
    pub flags: u16,
}

// The sender of a candidate as parent.
pub fn sender_of(c: Candidate) -> Parent {
    Parent {
        clock: c.sender.clock,
        port: c.port,
        flags: c.wrflags,
    }
}

// The parent by its name, or none where our own clock leads.
#[derive(Clone, Copy)]
pub struct Named(pub Option<Parent>);

impl fmt::Display for Named {
    fn fmt<W: fmt::Write>(&self, f: &mut fmt::Formatter<W>) -> fmt::Result {
        match self.0 {
            Some(p) => write!(f, "{:016x} on port {}", p.clock, p.port),
            None => write!(f, "our own clock"),
        }
    }
}
