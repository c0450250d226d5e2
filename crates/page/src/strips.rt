// The table of the ports: a letter an hour for each, and what became of what it heard.
use crate::{Heard, Refused, Tally};
use std::io;
use std::io::Write;

// A port's day: its strip, and what became of what it heard.
fn strip_told<W: Write>(out: &mut W, port: u8, heard: &Heard) -> io::Result<()> {
    write!(out, " {port:3}  ")?;
    out.write_all(&heard.letters)?;
    write!(out, " {:9} {:9}", heard.taken, heard.refused)?;
    if let Some(last) = heard.last {
        write!(out, "  {}", Refused(last))?;
    }
    writeln!(out)
}

// What the letters and the refusals mean.
fn explained<W: Write>(out: &mut W) -> io::Result<()> {
    writeln!(
        out,
        "a letter an hour: s follows the parent, b backup, m master, p passive; a capital where Announces were refused in that hour"
    )?;
    writeln!(
        out,
        "refusals: 9 DOMAIN another domain, 10 OWN our own clock, 11 BACKWARD the time runs back, 12 STALE sequenceId not newer,"
    )?;
    writeln!(
        out,
        "          13 FULL a new name and sixteen live records; 1 to 7: not a message that can be read"
    )
}

impl Tally {
    // The strips of the ports that heard anything, what they mean, and the other ports in one line.
    pub fn told<W: Write>(&self, out: &mut W) -> io::Result<()> {
        writeln!(
            out,
            "\nport  00    06    12    18         taken   refused  last refusal"
        )?;
        for port in 1..=18 {
            let heard = self.port(port);
            if heard.any() {
                strip_told(out, port, heard)?;
            }
        }
        explained(out)?;
        write!(out, "ports that heard nothing:")?;
        for port in 1..=18 {
            if !self.port(port).any() {
                write!(out, " {port}")?;
            }
        }
        writeln!(out)
    }
}
