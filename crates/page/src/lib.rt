#![tactic(auto)]
// The page that the program `day` is told on: how times, nanoseconds and refusals are printed, names for decisions, and what each port
// heard, hour by hour. It stands apart from `day` because it needs nothing of the engine but the numbers of refusals. No contract
// can say what is printed, so its functions have none: they are proved to end and to stay in bounds, and what they print is
// compared with a stored page.
mod names;
pub mod strips;
pub mod tally;
mod text;

pub use names::{Refused, decision};
use std::io;
use std::io::Write;
pub use tally::{Heard, Tally};
pub use text::{Moment, Nanoseconds};

// What stands above the day.
pub fn heading<W: Write>(out: &mut W) -> io::Result<()> {
    writeln!(
        out,
        "A day on the eighteen ports of a boundary clock. Who announces is made up; decisions, counts, delays and offsets are the engine's.\n"
    )
}

// Below the table of decisions.
pub fn decisions_explained<W: Write>(out: &mut W) -> io::Result<()> {
    writeln!(
        out,
        "S1 slave: follows the parent    S2 backup: hears the parent's grandmaster by another way, and is in the ranked list of four"
    )?;
    writeln!(
        out,
        "M1 M2 master: our own clock leads (M1 where our class is 1 to 127)    M3 master: the parent is heard on another port"
    )?;
    writeln!(
        out,
        "P1 passive: our class is 1 to 127 and the port hears a better clock    P2 passive: as S2, but not in the list"
    )
}
