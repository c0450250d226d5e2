#![tactic(auto)]
// Who is heard on the day that the program `day` tells: two masters, a boundary clock, a tenant's own clock, a looped cable, tenants
// with endless new names, and two clocks of a tenant that follow each other. Their messages are made here as they stand on the wire, one by one;
// each is recorded, and the clock takes it from the octets. Beside it the slave port's exchange. All of it is made up, so there is nothing that a
// contract could hold it to: its functions are proved to end and to stay in bounds.
ghost use Rattle.std.specs.Prelude.{◌≤◌, ◌<◌, ◌^◌};

use page::{Moment, Refused, Tally};
use ports::intake::Settings;
use rank::Grandmaster;
use std::io;
use std::io::Write;
use tape::Trace;

pub mod exchange;
pub mod tape;
#[cfg(test)]
mod tests;

// Our own clock.
pub const OURS: u64 = 0x00c0_ffee_0000_0001;

// The magic of White Rabbit's TLVs.
const MAGIC: u16 = 0xABCD;

// The two masters, the boundary clock behind which either is heard, and a tenant's own clock.
const FIRST: u64 = 0x00a1_0000_0000_0001;

const SECOND: u64 = 0x00b2_0000_0000_0002;

const BOUNDARY: u64 = 0x00b3_0000_0000_0003;

const TENANT: u64 = 0x00e4_0000_0000_0004;

// The nanoseconds of a second.
const NANOS: u64 = refusal::SECOND_NANOS as u64;

// The first master is there from 00:20 on, and falls silent at 13:00.
const DAWN: u64 = 20 * 60;

const SILENCE: u64 = 13 * 3600;

// Seconds from one Announce of a sender to its next; every port's interval is set to it.
pub const BEAT: u64 = 2;

// The octets of an Announce, and of a White Rabbit suffix.
const ANNOUNCE: usize = 64;

const SUFFIX: usize = 14;

// priority2 of the two masters, which are on satellite time, and of a clock that runs free.
const BETTER: u8 = 10;

const WORSE: u8 = 20;

const FREE: u8 = 128;

// Who announces, on which of our ports, and which grandmaster.
#[derive(Clone, Copy)]
struct Speaker {
    clock: u64,
    port: u8,
    identity: u64,
    priority2: u8,
    steps: u16,
}

// An Announce: whose, when in nanoseconds, its sequenceId, and whether a White Rabbit suffix stands behind it.
#[derive(Clone, Copy)]
struct Said {
    by: Speaker,
    t: u64,
    sequence: u16,
    suffix: bool,
}

// The clock on that day: what its ports keep, the counts of what they heard, and the trace of it.
#[derive(Drop)]
pub struct Clock<F> {
    pub words: [u64; ports::WORDS],
    pub tally: Tally,
    trace: Trace<F>,
}

// What an Announce on our ports is judged by.
const SETTINGS: Settings = Settings {
    domain: 0,
    clock: OURS,
    magic: MAGIC,
};

// Our own quality: a clock that leads only where nobody better is heard.
pub const OWN: Grandmaster = Grandmaster {
    priority1: 128,
    class: 248,
    accuracy: 254,
    variance: 65535,
    priority2: FREE,
    identity: OURS,
};

// Class, accuracy, variance and priority2 in five octets: those of a clock on satellite time, or of one that runs free.
fn grade(priority2: u8) -> u64
    ensures { result < 2 ^ 40 }
{
    if priority2 == FREE {
        0xf8_fe_ffff_80
    } else {
        0x06_21_4e5d_00 | u64::from(priority2)
    }
}

// Whether the first master is there.
fn is_first(second: u64) -> bool {
    (DAWN..SILENCE).contains(&second)
}

// The boundary clock follows the first master while it is there, a minute later than we do, else the second.
fn boundary(second: u64) -> Speaker {
    let (identity, priority2) = if is_first(second) && DAWN + 60 <= second {
        (FIRST, BETTER)
    } else {
        (SECOND, WORSE)
    };
    Speaker {
        clock: BOUNDARY,
        port: 3,
        identity,
        priority2,
        steps: 1,
    }
}

// A clock that names itself as grandmaster.
fn leading(clock: u64, port: u8, priority2: u8) -> Speaker {
    Speaker {
        clock,
        port,
        identity: clock,
        priority2,
        steps: 0,
    }
}

// A message is made of numbers of eight octets each: type, length, domain and flags; the correction; the first half of the sender's clock;
// the second half with its port 1 and the sequenceId, which this is; then controlField, logMessageInterval and the body.
fn sender(clock: u64, sequence: u16) -> u64 {
    (clock & 0xffff_ffff) << 32 | 0x1_0000 | u64::from(sequence)
}

impl Said {
    // The octets of the Announce: currentUtcOffset 37, priority1 128, timeSource 0x20. Behind its 64 octets stands a White Rabbit
    // suffix: type 3 with 10 octets, the OUI and MAGIC, version 1, 0x2000, and as wrFlags config 1, calibrated.
    fn octets(self) -> [[u8; 8]; 10] {
        let by = self.by;
        let eights: [u64; 10] = [
            0x0b02_0000_0000_0008 | (self.length() as u64) << 32,
            0,
            by.clock >> 32,
            sender(by.clock, self.sequence),
            0x0501_0000_0000_0000,
            0x0000_0000_0025_0080,
            grade(by.priority2) << 24 | by.identity >> 40,
            (by.identity & 0xff_ffff_ffff) << 24 | u64::from(by.steps) << 8 | 0x20,
            0x0003_000a_0800_30ab,
            0xcd01_2000_0005_0000,
        ];
        eights.map(u64::to_be_bytes)
    }

    // How many of them are sent.
    fn length(self) -> usize
        ensures { result ≤ 78 }
    {
        if self.suffix {
            ANNOUNCE + SUFFIX
        } else {
            ANNOUNCE
        }
    }
}

// A second of the day in nanoseconds.
pub fn instant(second: u64) -> u64
    ensures { result < 86_400_000_000_000 }
{
    second % 86_400 * NANOS
}

// What is said at a second, with nothing behind the Announce. sequenceIds count beats, and wrap.
fn plain(by: Speaker, second: u64) -> Said {
    Said {
        by,
        t: instant(second),
        sequence: (second / BEAT % 65536) as u16,
        suffix: false,
    }
}

// What a master says at a second: it sends the White Rabbit suffix.
fn master(by: Speaker, second: u64) -> Said {
    Said {
        suffix: true,
        ..plain(by, second)
    }
}

// ---- A tenant's cable

// The hour in which it brings our own Announces back to a port, for how many seconds, and so how many.
const LOOP: u64 = 3;

const LOOPED: u64 = 120;

const BROUGHT: u64 = LOOPED / BEAT;

const CABLE: u8 = 9;

// ---- Floods

// The seconds of an hour in which names flood a port, names between two beats, and nanoseconds from one of their Announces to the next.
const FLOODED: u64 = 200;

const NAMES: u64 = 100;

const APART: u64 = 10_000_000;

// Announces of ten thousand names, each heard twice.
const FLOOD: u64 = 2 * NAMES * FLOODED / BEAT;

// The time of the j-th Announce of new names behind a beat.
fn spoken(second: u64, j: u64) -> u64 {
    instant(second) + j % 256 * APART
}

// The time of the last.
pub fn flood_end(second: u64) -> u64 {
    spoken(second, 2 * NAMES - 1)
}

// The j-th Announce of a hundred new names on a port between two beats. Each speaks twice, so that it counts as a candidate where it is kept.
fn new_name(port: u8, second: u64, j: u64) -> Said {
    let from = 0x00f0_0000_0000_0000 + second % 3600 / BEAT * NAMES;
    Said {
        by: leading(from + j / 2, port, FREE),
        t: spoken(second, j),
        sequence: (j % 2 + 1) as u16,
        suffix: false,
    }
}

// ---- The echo

// Two clocks of a tenant follow each other from 12:52 on: what the first master announced goes round between them and gains a step
// at each beat, also when that master has fallen silent. One of the two is heard on our port.
const ECHO: u64 = 0x00e5_0000_0000_0005;

const CORNER: u8 = 16;

const CIRCLES: u64 = 12 * 3600 + 52 * 60;

// How many steps the echo is away: 1 at first.
fn rounds(second: u64) -> u16 {
    (second.saturating_sub(CIRCLES) / BEAT % 65535) as u16 + 1
}

fn echo(steps: u16) -> Speaker {
    Speaker {
        clock: ECHO,
        port: CORNER,
        identity: FIRST,
        priority2: BETTER,
        steps,
    }
}

// ---- All that is heard

// What tenants make of a second, behind its beat; a flood with its port: a tenant's, then the parent's own.
#[derive(Clone, Copy)]
enum Trouble {
    Cable,
    Flood(u8),
    Echo,
}

fn trouble_at(second: u64) -> Option<Trouble> {
    let into = second % 3600;
    match second / 3600 {
        LOOP if into < LOOPED => Some(Trouble::Cable),
        5 if into < FLOODED => Some(Trouble::Flood(12)),
        6 if into < FLOODED => Some(Trouble::Flood(1)),
        _ if CIRCLES <= second => Some(Trouble::Echo),
        _ => None,
    }
}

impl<F: Write> Clock<F> {
    // A clock that heard nothing yet. Every port's interval is set to two seconds. The trace goes to the file, if there is one.
    pub fn new(file: Option<F>) -> Clock<F> {
        let mut words = [0u64; ports::WORDS];
        for port in 1..=18 {
            let _ = ports::interval::set_interval(&mut words, port, 1);
        }
        Clock {
            words,
            tally: Tally::new(),
            trace: Trace::new(file),
        }
    }

    // One Announce: recorded, and taken from the octets that its sender wrote; and what became of it.
    fn hear(&mut self, said: Said) -> io::Result<()> {
        let port = said.by.port;
        let sent = said.octets();
        let octets = &sent.as_flattened()[..said.length()];
        self.trace.record(port, said.t, octets)?;
        let taken = ports::intake::take(&mut self.words, port, said.t, octets, SETTINGS);
        self.tally.note(port, taken);
        Ok(())
    }

    // What every beat brings: an Announce of each of those that are there.
    pub fn beat(&mut self, second: u64) -> io::Result<()> {
        if is_first(second) {
            self.hear(master(leading(FIRST, 1, BETTER), second))?;
        }
        self.hear(master(leading(SECOND, 2, WORSE), second))?;
        self.hear(plain(boundary(second), second))?;
        self.hear(plain(leading(TENANT, 14, FREE), second))
    }

    // What the tenants do behind the beat of a second, and what the page says of it: the port on which a flood is over with it, if one is.
    pub fn tenants<W: Write>(&mut self, out: &mut W, second: u64) -> io::Result<Option<u8>> {
        let into = second % 3600;
        match trouble_at(second) {
            None => Ok(None),
            Some(Trouble::Cable) => {
                self.hear(plain(leading(OURS, CABLE, FREE), second))?;
                if into == LOOPED - BEAT {
                    let what = "a tenant's cable brings our own Announces back";
                    self.tried_told(out, instant(second), CABLE, what, BROUGHT)?;
                }
                Ok(None)
            }
            Some(Trouble::Flood(port)) => {
                for j in 0..2 * NAMES {
                    self.hear(new_name(port, second, j))?;
                }
                if into != FLOODED - BEAT {
                    return Ok(None);
                }
                let what = "10000 new names, each heard twice";
                self.tried_told(out, flood_end(second), port, what, FLOOD)?;
                Ok(Some(port))
            }
            Some(Trouble::Echo) => {
                let steps = rounds(second);
                self.hear(plain(echo(steps), second))?;
                self.echo_told(out, instant(second), steps)?;
                Ok(None)
            }
        }
    }

    // What became of so many Announces of a tenant in this hour.
    fn tried_told<W: Write>(
        &self,
        out: &mut W,
        t: u64,
        port: u8,
        what: &str,
        all: u64,
    ) -> io::Result<()> {
        let heard = self.tally.port(port);
        let refused = heard.lately;
        let taken = all.saturating_sub(refused);
        write!(
            out,
            "{}  port {port}: {what}: {taken} Announces taken, {refused} refused",
            Moment(t)
        )?;
        if let Some(last) = heard.last {
            write!(out, " with {}", Refused(last))?;
        }
        writeln!(out)
    }

    // Where the echo begins, and where it is so far away that it does not count any more.
    fn echo_told<W: Write>(&self, out: &mut W, t: u64, steps: u16) -> io::Result<()> {
        let t = Moment(t);
        match steps {
            1 => writeln!(
                out,
                "{t}  port {CORNER}: two clocks of a tenant follow each other and announce {FIRST:016x}, a step more each time"
            ),
            senders::DISTANT => {
                let taken = self.tally.port(CORNER).taken;
                writeln!(
                    out,
                    "{t}  port {CORNER}: the loop goes on: {taken} Announces taken, the last of {steps} steps"
                )
            }
            _ => Ok(()),
        }
    }

    // The trace's last block, at the end of the day.
    pub fn finish(&mut self) -> io::Result<()> {
        self.trace.finish()
    }

    // The same, and the trace's file comes back.
    pub fn release(&mut self) -> io::Result<Option<F>> {
        self.trace.release()
    }
}
