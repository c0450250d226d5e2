// The exchange of the slave port once an hour: Sync and Follow_Up out of which the engine takes the origin time, a
// Delay_Req and its answer, and what they give. What the fibre and our oscillator do is made up; the delay and the offset
// are the engine's.
use crate::{MAGIC, sender};
use delay::{
    Asymmetry, Corrections, Exchange, FineStamp, Latencies, Offset, ScaledNs, ScaledPs, Stamp,
    Stamps,
};
use page::{Nanoseconds, Refused, Tally};
use refusal::Refusal;
use std::io;
use std::io::Write;

// A nanosecond and a picosecond, times 2^16.
const SCALE: u64 = 65536;

// The nanoseconds of a second.
const NANOS: u64 = refusal::SECOND_NANOS as u64;

// The fibre's one way and the four latencies, in nanoseconds.
const FIBRE: u64 = 24_480;

const MASTER_TX: u64 = 226;

const MASTER_RX: u64 = 232;

const SLAVE_TX: u64 = 224;

const SLAVE_RX: u64 = 230;

// Delay_Req leaves half a second after Sync, in nanoseconds.
const HALF: u64 = 500_000_000;

// How long after t1 the slave takes t2 and t3, in nanoseconds times 2^16, and the master t4, in nanoseconds.
const T2: u64 = (MASTER_TX + FIBRE + SLAVE_RX) * SCALE;

const T3: u64 = HALF * SCALE;

const T4: u32 = (HALF + SLAVE_TX + FIBRE + MASTER_RX) as u32;

// A nanosecond in picoseconds times 2^16.
const LATENCY: u64 = 1000 * SCALE;

// A time of our clock that would be `scaled` if it were not off, in nanoseconds times 2^16: half as much each hour, and anew with each master. It
// is ahead of the first and behind the second.
fn shown(scaled: u64, hour: u64) -> u64 {
    let h = hour % 24;
    if h < 13 {
        scaled.wrapping_add(800 * SCALE >> h)
    } else {
        scaled.wrapping_sub(40 * SCALE >> (h - 13))
    }
}

// A Sync or a Follow_Up of a master, 44 octets, by what it begins with and by what stands behind its sender: controlField, logMessageInterval
// and the seconds of its timestamp.
fn stamped(begin: u64, master: u64, sequence: u16, behind: u64) -> [[u8; 8]; 10] {
    let half = master >> 32;
    let rest = sender(master, sequence);
    [begin, 0, half, rest, behind, 0, 0, 0, 0, 0].map(u64::to_be_bytes)
}

// t1 of the hour, from the Follow_Up of a two-step Sync, whose own timestamp is 0.
fn origin_time(master: u64, h: u64) -> Stamp {
    let n = (h % 24) as u16;
    let precise = 0x0201_0000_0000_0000 + h % 24 * 3600;
    let sync = stamped(0x0002_002c_0000_0200, master, n, 0x0001_0000_0000_0000);
    let follow = stamped(0x0802_002c_0000_0000, master, n, precise);
    let part = origin::origin(sync.as_flattened(), follow.as_flattened(), MAGIC);
    Stamp {
        seconds: octets::u48_at(part, 0),
        nanos: octets::u32_at(part, 6),
    }
}

fn fine(seconds: u64, scaled: u64) -> FineStamp {
    FineStamp {
        seconds,
        nanos: (scaled / SCALE % NANOS) as u32,
        fraction: (scaled % SCALE) as u16,
    }
}

// The four times of the hour's exchange.
fn stamps(master: u64, h: u64) -> Stamps {
    let t1 = origin_time(master, h);
    let seconds = t1.seconds;
    Stamps {
        t1,
        t2: fine(seconds, shown(T2, h)),
        t3: fine(seconds, shown(T3, h)),
        t4: Stamp { seconds, nanos: T4 },
    }
}

const LATENCIES: Latencies = Latencies {
    mtx: ScaledPs(MASTER_TX * LATENCY),
    mrx: ScaledPs(MASTER_RX * LATENCY),
    stx: ScaledPs(SLAVE_TX * LATENCY),
    srx: ScaledPs(SLAVE_RX * LATENCY),
};

// The hour's delay and offset from a master.
fn measured(master: u64, h: u64) -> Result<(ScaledNs, Offset), Refusal> {
    delay::measure(Exchange {
        stamps: stamps(master, h),
        corrections: Corrections {
            sync: ScaledNs(0),
            follow: ScaledNs(0),
            resp: ScaledNs(0),
        },
        latencies: LATENCIES,
        asymmetry: Asymmetry(0),
    })
}

// A second in nanoseconds times 2^16.
const SECOND: i64 = (NANOS * SCALE) as i64;

// An offset below a second, ahead or behind, in nanoseconds times 2^16; a longer one is not told.
fn near(x: Offset) -> Nanoseconds {
    let rest = x.rest.cast_signed();
    Nanoseconds(match x.seconds {
        0 => Some(rest),
        -1 => Some(rest.wrapping_sub(SECOND)),
        _ => None,
    })
}

// The offset at an hour's end from the clock that was followed, if one was.
fn offset_at(tally: &Tally, hour: u64) -> Nanoseconds {
    match tally.leader(hour).map(|master| measured(master, hour)) {
        Some(Ok((_, x))) => near(x),
        _ => Nanoseconds(None),
    }
}

// Six hours of offsets a line.
fn offsets_told<W: Write>(out: &mut W, tally: &Tally) -> io::Result<()> {
    write!(out, "\noffset from the parent at each hour's end, ns")?;
    for hour in 0..24 {
        if hour % 6 == 0 {
            write!(out, "\n  {hour:02}")?;
        }
        write!(out, " {:9}", offset_at(tally, hour))?;
    }
    writeln!(out)
}

// The day's last delay and offset, in a line.
fn last_told<W: Write>(out: &mut W, master: u64) -> io::Result<()> {
    match measured(master, 23) {
        Ok((d, x)) => writeln!(
            out,
            "delay {} ns, offset {} ns",
            Nanoseconds(Some(d.0)),
            near(x)
        ),
        Err(x) => writeln!(out, "refused: {}", Refused(x)),
    }
}

// The day's last delay and offset from the parent, if there is one, and the offsets of all hours.
pub fn told<W: Write>(out: &mut W, tally: &Tally, parent: Option<u64>) -> io::Result<()> {
    if let Some(master) = parent {
        last_told(out, master)?;
    }
    offsets_told(out, tally)
}
