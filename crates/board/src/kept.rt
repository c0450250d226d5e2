// What a port keeps: how many of its sixteen records are live, how many are candidates, and the record of a sender.
use crate::{Named, Now, Parent};
use identity::PortIdentity;
use senders::{Record, SLOTS};
use std::io;
use std::io::Write;

// How many records of a port are live, and how many of those are candidates.
#[derive(Clone, Copy)]
pub struct Records {
    pub live: usize,
    pub candidates: usize,
}

// What a port's slot holds.
fn seen(words: &[u64; ports::WORDS], port: u8, slot: usize) -> Option<Record> {
    ports::asking::look(words, port, slot).unwrap_or(None)
}

impl Now<'_> {
    // What a port keeps.
    pub fn kept(self, port: u8) -> Records {
        let Now { words, t } = self;
        let w = self.window(port);
        let records = || (0..SLOTS).filter_map(|slot| seen(words, port, slot));
        Records {
            live: records().filter(|r| senders::is_live(*r, w, t)).count(),
            candidates: records()
                .filter(|r| senders::is_qualified(*r, w, t))
                .count(),
        }
    }

    // A port's window in nanoseconds.
    pub fn window(self, port: u8) -> u64 {
        match ports::asking::port_status(self.words, port) {
            Ok((_, k)) => senders::window(u64::from(k.cast_unsigned())),
            Err(_) => 0,
        }
    }

    // The record of a parent's first port on the port that hears it.
    pub fn record(self, p: Parent) -> Option<Record> {
        let words = self.words;
        let name = PortIdentity {
            clock: p.clock,
            port: 1,
        };
        (0..SLOTS)
            .filter_map(|slot| seen(words, p.port, slot))
            .find(|r| senders::is_of(*r, name))
    }

    // What a port that was flooded keeps, and who the parent is meanwhile.
    pub fn meanwhile<W: Write>(self, out: &mut W, port: u8, p: Option<Parent>) -> io::Result<()> {
        let Records { live, candidates } = self.kept(port);
        writeln!(
            out,
            "          meanwhile: {live}/16 records live, {candidates} of them candidates; parent: {}",
            Named(p)
        )
    }
}
