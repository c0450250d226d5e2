#![tactic(auto)]
// A White Rabbit link coming up on the slave's side, as the program `day` tells it: each event is a step of the engine's link, and what it
// sends is counted. What happens is made up, so there is nothing that a contract could hold it to: its functions are proved to end
// and to stay in bounds.
use link::{Event, Sends, Settings};
use page::Moment;
use std::io;
use std::io::Write;
use tlv::form::{CALIBRATE, CALIBRATED, LOCK, MODE_ON};

// The nanoseconds of a second.
const NANOS: u64 = refusal::SECOND_NANOS as u64;

// A port that may be slave and needs calibration.
const SLAVE: Settings = Settings {
    config: 2,
    calibrate: true,
    retry: 3,
    period: 3000,
    tx: 14_680_064_000,
    rx: 15_073_280_000,
};

// What happens to a link on the way up to a parent, in its order. The parent's part in wrFlags: config in bits 0 and 1, its mode in bit 3.
fn way_up(flags: u16) -> [Event; 7] {
    [
        Event::Start {
            config: (flags % 4) as u8,
            mode: flags / 8 % 2 == 1,
        },
        Event::Message(LOCK),
        Event::Done,
        Event::Message(CALIBRATE),
        Event::Message(CALIBRATED),
        Event::Done,
        Event::Message(MODE_ON),
    ]
}

fn messages(s: Sends) -> u64 {
    match s {
        Sends::Nothing => 0,
        Sends::One(_) => 1,
        Sends::Two(_, _) => 2,
    }
}

// How many messages a fresh link sends on this way, if the last step reports that it is on.
fn brought_up(way: &[Event]) -> Option<u64> {
    let mut link = link::fresh();
    let mut sent: u64 = 0;
    let mut on = false;
    for event in way {
        let step = link::step(SLAVE, link, *event);
        link = step.link;
        sent = sent.saturating_add(messages(step.sends));
        on = step.report;
    }
    on.then_some(sent)
}

// The seconds at which the link to a new parent is brought up.
const FIRST: u64 = 3600;

const SECOND: u64 = 14 * 3600;

// At those seconds the link to the parent on `port` is brought up, and the page says whether it is on.
pub fn begun<W: Write>(out: &mut W, port: u8, flags: u16, second: u64) -> io::Result<()> {
    if second != FIRST && second != SECOND {
        return Ok(());
    }
    let way = way_up(flags);
    let t = Moment(second * NANOS);
    match brought_up(&way) {
        Some(sent) => {
            let events = way.len();
            writeln!(
                out,
                "{t}  port {port}: White Rabbit link on after {events} events; messages sent: {sent}"
            )
        }
        None => writeln!(out, "{t}  port {port}: White Rabbit link not on"),
    }
}
