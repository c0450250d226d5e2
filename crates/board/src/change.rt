// Why the parent is another than before.
use crate::{Named, Now, Parent};
use page::Moment;
use rank::Grandmaster;
use senders::Record;
use std::io;
use std::io::Write;

// The first field that two clocks differ in, in the order in which they are compared.
fn difference(a: Grandmaster, b: Grandmaster) -> &'static str {
    if a.priority1 != b.priority1 {
        "priority1"
    } else if a.class != b.class {
        "class"
    } else if a.accuracy != b.accuracy {
        "accuracy"
    } else if a.variance != b.variance {
        "variance"
    } else if a.priority2 != b.priority2 {
        "priority2"
    } else if a.identity != b.identity {
        "grandmasterIdentity"
    } else {
        "a longer way"
    }
}

impl Now<'_> {
    // Why the sender of a record on a port is not the parent any more: it says itself how far away its grandmaster is, another is better,
    // or it fell silent.
    fn lost_told<W: Write>(
        self,
        out: &mut W,
        port: u8,
        r: Record,
        new: Grandmaster,
    ) -> io::Result<()> {
        let notice = r.notice;
        let window = self.window(port);
        if senders::is_distant(notice) {
            let steps = notice.steps;
            let most = senders::DISTANT - 1;
            writeln!(
                out,
                ": {steps} steps from its grandmaster, and {most} are the most that count"
            )
        } else if senders::is_qualified(r, window, self.t) {
            writeln!(out, ": worse by {}", difference(new, notice.grandmaster))
        } else {
            let heard = if senders::is_live(r, window, self.t) {
                "twice"
            } else {
                "at all"
            };
            let last = Moment(r.newest);
            let seconds = window / 1_000_000_000;
            writeln!(
                out,
                ": last heard at {last}, not {heard} in its window of {seconds} s"
            )
        }
    }

    // A change of parent: the new one, by which Announce, the one before, and why it is not the parent any more.
    pub fn change_told<W: Write>(
        self,
        out: &mut W,
        old: Option<Parent>,
        new: Option<Parent>,
        own: Grandmaster,
    ) -> io::Result<()> {
        write!(out, "{}  parent: {}", Moment(self.t), Named(new))?;
        let is = new.and_then(|p| self.record(p));
        if let Some(r) = is {
            let newest = Moment(r.newest);
            write!(out, ", by its Announce {} of {newest}", r.notice.sequence)?;
        }
        write!(out, "\n          before: {}", Named(old))?;
        let better = is.map_or(own, |r| r.notice.grandmaster);
        if let Some(p) = old
            && let Some(r) = self.record(p)
        {
            return self.lost_told(out, p.port, r, better);
        }
        writeln!(out, ": worse by {}", difference(better, own))
    }
}
