// What became of what each port heard, and whom the clock followed at each hour's end.
ghost use Rattle.std.specs.Prelude.{◌<◌};

use crate::names;
use refusal::{PORTS, Refusal};
use std::mem;

// The hours of the day.
pub(crate) const HOURS: usize = 24;

// A port's Announces: how many were taken and refused, the last refusal, and how many were refused since the hour began; and a letter for each hour.
#[derive(Clone, Copy)]
pub struct Heard {
    pub taken: u64,
    pub refused: u64,
    pub last: Option<Refusal>,
    pub lately: u64,
    pub letters: [u8; HOURS],
}

impl Heard {
    // Whether the port heard anything.
    pub fn any(&self) -> bool {
        self.taken != 0 || self.refused != 0
    }
}

#[derive(Drop)]
pub struct Tally {
    ports: [Heard; PORTS],
    leaders: [Option<u64>; HOURS],
}

// Where a port of 1 to 18 stands.
fn index(port: u8) -> usize
    ensures { result < 18 }
{
    port.wrapping_sub(1) as usize % PORTS
}

impl Tally {
    // Nothing was heard.
    pub fn new() -> Tally {
        let silent = Heard {
            taken: 0,
            refused: 0,
            last: None,
            lately: 0,
            letters: [b'-'; HOURS],
        };
        Tally {
            ports: [silent; PORTS],
            leaders: [None; HOURS],
        }
    }

    // What a port heard.
    pub fn port(&self, port: u8) -> &Heard {
        &self.ports[index(port)]
    }

    // Notes what became of an Announce on a port.
    pub fn note(&mut self, port: u8, x: Result<(), Refusal>) {
        let heard = &mut self.ports[index(port)];
        match x {
            Ok(()) => heard.taken = heard.taken.saturating_add(1),
            Err(r) => {
                heard.last = Some(r);
                heard.refused = heard.refused.saturating_add(1);
                heard.lately = heard.lately.saturating_add(1);
            }
        }
    }

    // An hour's end: a letter for each port, by its decision, and whom the clock follows.
    pub fn close(&mut self, decisions: &[u8; PORTS], hour: u64, leader: Option<u64>) {
        let h = (hour % 24) as usize;
        self.leaders[h] = leader;
        for (i, code) in decisions.iter().enumerate() {
            let refused = mem::take(&mut self.ports[i].lately);
            self.ports[i].letters[h] = names::letter(*code, refused);
        }
    }

    // Whom the clock followed at an hour's end; none where it led itself.
    pub fn leader(&self, hour: u64) -> Option<u64> {
        self.leaders[(hour % 24) as usize]
    }
}
