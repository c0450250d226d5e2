#![tactic(auto)]
// A day on eighteen ports: two masters, a boundary clock, a tenant's own clock, a cable that loops, two floods of ten thousand
// names, White Rabbit links that come up, a master that falls silent, its echo in a tenant's loop, and the one that takes over. What is announced is made
// up; every decision, count, delay and offset comes from the proved engine.
use board::{Now, Parent};
use cast::{BEAT, Clock};
use std::io;
use std::io::{BufWriter, Write};

mod lead;

// A clock's ports at `t`.
fn at<F>(clock: &Clock<F>, t: u64) -> Now<'_> {
    Now {
        words: &clock.words,
        t,
    }
}

// The beat of a second: a link may begin, who is there speaks, the parent is asked for, and the tenants do what they do.
fn beat<W: Write, F: Write>(
    out: &mut W,
    clock: &mut Clock<F>,
    second: u64,
    old: Option<Parent>,
) -> io::Result<Option<Parent>> {
    if let Some(p) = old {
        rise::begun(out, p.port, p.flags, second)?;
    }
    clock.beat(second)?;
    let new = lead::watched(out, at(clock, cast::instant(second)), old)?;
    if let Some(port) = clock.tenants(out, second)? {
        at(clock, cast::flood_end(second)).meanwhile(out, port, new)?;
    }
    Ok(new)
}

// All beats. At the end of an hour, a second after its last beat, each port gets its letter. The trace's file comes back.
fn hours<W: Write, F: Write>(out: &mut W, clock: &mut Clock<F>) -> io::Result<Option<F>> {
    let mut p = None;
    for n in 0..86_400 / BEAT {
        let second = n * BEAT;
        p = beat(out, clock, second, p)?;
        if second % 3600 == 3600 - BEAT {
            let (decisions, _) = lead::decided(at(clock, cast::instant(second + 1)));
            clock
                .tally
                .close(&decisions, second / 3600, p.map(|p| p.clock));
        }
    }
    clock.release()
}

// What the day comes to.
fn end<W: Write, F: Write>(out: &mut W, clock: &Clock<F>) -> io::Result<()> {
    let now = at(clock, cast::instant(86_399));
    let (decisions, _) = lead::decided(now);
    let p = lead::by_cards(now);
    now.table_told(out, &clock.tally, &decisions, p)?;
    cast::exchange::told(out, &clock.tally, p.map(|p| p.clock))
}

fn main(rt: HostRuntime) -> io::Result<()> {
    let mut out = BufWriter::new(rt.alloc(), io::writer(&rt))?;
    let mut clock = Clock::new(cast::tape::file(&rt));
    page::heading(&mut out)?;
    // closed before the page is written: whoever reads both may read the trace to its end first
    drop(hours(&mut out, &mut clock)?);
    clock.tally.told(&mut out)?;
    end(&mut out, &clock)?;
    out.flush()
}
