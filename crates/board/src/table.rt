// The table of the ports at the day's end, and what each card ranks.
use crate::{Named, Now, Parent, cards};
use page::Tally;
use rank::Ranked;
use refusal::Refusal;
use std::io;
use std::io::Write;

// A ranked list, in its order; one that is refused has nothing in it.
fn list_told<W: Write>(out: &mut W, list: Result<Ranked, Refusal>) -> io::Result<()> {
    let list = list.unwrap_or(rank::empty());
    if list.len == 0 {
        write!(out, "  nothing")?;
    }
    for c in list.slots.iter().take(list.len) {
        write!(out, "  {:016x} on {}", c.sender.clock, c.port)?;
    }
    writeln!(out)
}

impl Now<'_> {
    // A port's line: the decision, the sender, grandmaster and steps of its best, dashes where it has none, and how many records are
    // live.
    fn port_told<W: Write>(self, out: &mut W, port: u8, code: u8) -> io::Result<()> {
        write!(out, " {port:3}  {}        ", page::decision(code))?;
        if let Ok(Some(c)) = ports::asking::best(self.words, port, self.t) {
            let sender = c.sender.clock;
            let grandmaster = c.grandmaster.identity;
            write!(out, "{sender:016x}  {grandmaster:016x} {:6}", c.steps)?;
        } else {
            write!(out, "-                 -                     -")?;
        }
        writeln!(out, " {:5}/16", self.kept(port).live)
    }

    // The lines of the ports that heard anything.
    fn ports_told<W: Write>(
        self,
        out: &mut W,
        tally: &Tally,
        decisions: &[u8; refusal::PORTS],
    ) -> io::Result<()> {
        for port in 1..=18 {
            if tally.port(port).any() {
                self.port_told(out, port, decisions[port as usize - 1])?;
            }
        }
        Ok(())
    }

    // What each card hears, and all of them merged.
    fn cards_told<W: Write>(self, out: &mut W) -> io::Result<()> {
        writeln!(
            out,
            "\nwhat each card ranked of its own six ports, best first, and the three lists merged"
        )?;
        for card in 0..3 {
            let from = cards::first(card);
            write!(out, "  ports {from:2} to {:2}", from + 5)?;
            list_told(out, self.list(card))?;
        }
        write!(out, "  merged        ")?;
        list_told(out, self.merged())
    }

    // The table of decisions, with what they mean; what the cards rank; and the parent by it.
    pub fn table_told<W: Write>(
        self,
        out: &mut W,
        tally: &Tally,
        decisions: &[u8; refusal::PORTS],
        p: Option<Parent>,
    ) -> io::Result<()> {
        writeln!(
            out,
            "\nport  decision  best sender       grandmaster       steps  records"
        )?;
        self.ports_told(out, tally, decisions)?;
        page::decisions_explained(out)?;
        let distant = senders::DISTANT;
        writeln!(
            out,
            "no best: no live record was heard twice in its window at fewer than {distant} steps"
        )?;
        self.cards_told(out)?;
        writeln!(out, "parent: {}", Named(p))
    }
}
