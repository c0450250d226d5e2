#![tactic(auto)]
// Replays a trace: reads it from standard input block by block, takes its messages again on a fresh clock, and prints what each port is to do at the last
// record's time, or at 0 where the trace is empty. Where a block's check, layout, number or times are wrong it prints `refused 20` alone.
//
// The settings are built in: domain 0, clockIdentity 0, 001's example magic, intervals of a second, and our own quality that of a clock
// without a better source.
ghost use Rattle.std.specs.Prelude.{◌≤◌, length, IfOk};

use ports::intake::Settings;
use rank::Grandmaster;
use refusal::Refusal;
use std::io;
use std::io::{BufReader, BufWriter, Read, Write};

// What an Announce is judged by.
const SETTINGS: Settings = Settings {
    domain: 0,
    clock: 0,
    magic: 0xABCD,
};

// Our own quality.
const OWN: Grandmaster = Grandmaster {
    priority1: 128,
    class: 248,
    accuracy: 254,
    variance: 65535,
    priority2: 128,
    identity: 0,
};

// Why a trace is not replayed to its end: standard input cannot be read, or a block is refused.
#[derive(Drop)]
enum Fault {
    Read(io::Error),
    Refused(Refusal),
}

impl From<io::Error> for Fault {
    fn from(e: io::Error) -> Fault {
        Fault::Read(e)
    }
}

impl From<Refusal> for Fault {
    fn from(r: Refusal) -> Fault {
        Fault::Refused(r)
    }
}

// A trace has no more blocks than there are numbers for them, and one turn more finds its end.
const TURNS: u64 = 4_294_967_296 + 1;

// Reads until the space is full or the input ends: how many octets it put at the start of the space.
// The loop counts by hand: a read brings as many octets as it likes, and `read_exact` does not say how many came before the end.
fn read_full<I: Read>(input: &mut I, space: &mut [u8]) -> io::Result<usize>
    ensures { IfOk result (λ n. n ≤ length space.new) }
{
    let mut done: usize = 0;
    while done < space.len() {
        let n = input.read(&mut space[done..])?;
        if n == 0 {
            return Ok(done);
        }
        done += n;
    }
    Ok(done)
}

// Reads all blocks and replays them, up to one that is refused.
fn replayed<I: Read>(
    input: &mut I,
    words: &mut [u64; ports::WORDS],
    reader: &mut [u64; playback::READER],
) -> Result<(), Fault> {
    let mut space = [0u8; block::OCTETS];
    for _ in 0..TURNS {
        let n = read_full(input, &mut space)?;
        if n == 0 {
            return Ok(());
        }
        playback::replay_block(words, reader, &space[..n], SETTINGS)?;
    }
    Ok(())
}

// Each port's decision at `t`.
fn told<W: Write>(out: &mut W, words: &[u64; ports::WORDS], t: u64) -> io::Result<()> {
    let mut decisions = [0u8; refusal::PORTS];
    let _ = election::decide_all(words, OWN, t, &mut decisions);
    for (port, code) in (1..=18).zip(decisions) {
        writeln!(out, "{port} {}", page::decision(code))?;
    }
    Ok(())
}

fn main(rt: HostRuntime) -> io::Result<()> {
    let mut input = BufReader::new(rt.alloc(), rt.reader())?;
    let mut out = BufWriter::new(rt.alloc(), io::writer(&rt))?;
    let mut words = [0u64; ports::WORDS];
    let mut reader = [0u64; playback::READER];
    match replayed(&mut input, &mut words, &mut reader) {
        Ok(()) => told(&mut out, &words, reader[1])?,
        Err(Fault::Read(e)) => return Err(e),
        Err(Fault::Refused(r)) => {
            // whoever writes the trace can go on to its end
            io::copy(&mut input, &mut io::sink())?;
            writeln!(out, "refused {}", refusal::number(r))?;
        }
    }
    out.flush()
}
