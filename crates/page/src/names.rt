// Names for the engine's numbers.
use refusal::Refusal;
use std::fmt;

// The refusals by their numbers, of which 1 is the first.
const REFUSALS: [&str; 22] = [
    "SHORT", "VERSION", "TYPE", "LENGTH", "STAMP", "TLV", "WRBAD", "PORT", "DOMAIN", "OWN",
    "BACKWARD", "STALE", "FULL", "RANGE", "UNRANKED", "ROOM", "MANY", "FIELD", "LONG", "BLOCK",
    "PCAP", "EXPORT",
];

// A refusal by its number and name, as `13 FULL`.
#[derive(Clone, Copy)]
pub struct Refused(pub Refusal);

impl fmt::Display for Refused {
    fn fmt<W: fmt::Write>(&self, f: &mut fmt::Formatter<W>) -> fmt::Result {
        let number = refusal::number(self.0);
        let name = REFUSALS[number as usize - 1];
        write!(f, "{number} {name}")
    }
}

// A decision by its number, 1 to 7.
pub fn decision(code: u8) -> &'static str {
    match code {
        1 => "M1",
        2 => "M2",
        3 => "M3",
        4 => "S1",
        5 => "S2",
        6 => "P1",
        7 => "P2",
        _ => "--",
    }
}

// An hour of a port in one letter: its decision, a capital where Announces were refused in that hour.
pub(crate) fn letter(code: u8, refused: u64) -> u8 {
    let quiet = match code {
        1..=3 => b'm',
        4 => b's',
        5 => b'b',
        6 | 7 => b'p',
        _ => b'-',
    };
    if refused == 0 {
        quiet
    } else {
        quiet.to_ascii_uppercase()
    }
}
