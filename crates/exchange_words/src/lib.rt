#![tactic(auto)]
// An exchange in eighteen words, in the order of the call `delay` (docs/VECTORS.md), and its delay and offset in three. A word that its field cannot
// hold is a number outside a limit, as the engine's own limits are: 14.
ghost use Rattle.std.specs.Prelude.{◌≡◌, ◌+◌, ◌≤◌, [], Some, None, Ok};
ghost use Rattle.refusal.specs.Choice.{pick};
ghost use Rattle.exchange_words.specs.Exchanges.{stamp_at, fine_at, ns_at, stamps_of, corrections_of, latencies_of, asymmetry_of, exchange_of, stamp_fits, fine_fits, exchange_fits, measured_of, measured_code, measured_words};

use delay::{
    Asymmetry, Corrections, Exchange, FineStamp, Latencies, Offset, ScaledNs, ScaledPs, Stamp,
    Stamps,
};
use refusal::Refusal;

// A stamp of a message: seconds and nanoseconds. None where the word of the nanoseconds does not fit.
fn stamp_at(w: &[u64; 18], at: usize) -> Option<Stamp>
    requires { at + 2 ≤ 18 }
    ensures { result ≡ pick (stamp_fits w.now at) (Some (stamp_at w.now at)) None }
{
    Some(Stamp {
        seconds: w[at],
        nanos: u32::try_from(w[at + 1]).ok()?,
    })
}

// A stamp of our own hardware, with a fraction of a nanosecond besides.
fn fine_at(w: &[u64; 18], at: usize) -> Option<FineStamp>
    requires { at + 3 ≤ 18 }
    ensures { result ≡ pick (fine_fits w.now at) (Some (fine_at w.now at)) None }
{
    let Stamp { seconds, nanos } = stamp_at(w, at)?;
    let fraction = u16::try_from(w[at + 2]).ok()?;
    Some(FineStamp {
        seconds,
        nanos,
        fraction,
    })
}

// The four stamps.
fn stamps_of(w: &[u64; 18]) -> Option<Stamps>
    ensures { result ≡ pick (exchange_fits w.now) (Some (stamps_of w.now)) None }
{
    Some(Stamps {
        t1: stamp_at(w, 0)?,
        t2: fine_at(w, 4)?,
        t3: fine_at(w, 7)?,
        t4: stamp_at(w, 10)?,
    })
}

// A signed number of scaled nanoseconds.
fn ns_at(w: &[u64; 18], at: usize) -> ScaledNs
    requires { at + 1 ≤ 18 }
    ensures { result ≡ ns_at w.now at }
{
    ScaledNs(w[at].cast_signed())
}

// The three corrections.
fn corrections_of(w: &[u64; 18]) -> Corrections
    ensures { result ≡ corrections_of w.now }
{
    Corrections {
        sync: ns_at(w, 2),
        follow: ns_at(w, 3),
        resp: ns_at(w, 12),
    }
}

// The four latencies.
fn latencies_of(w: &[u64; 18]) -> Latencies
    ensures { result ≡ latencies_of w.now }
{
    Latencies {
        mtx: ScaledPs(w[13]),
        mrx: ScaledPs(w[14]),
        stx: ScaledPs(w[15]),
        srx: ScaledPs(w[16]),
    }
}

// The asymmetry.
fn asymmetry_of(w: &[u64; 18]) -> Asymmetry
    ensures { result ≡ asymmetry_of w.now }
{
    Asymmetry(w[17].cast_signed())
}

// The exchange in eighteen words. Any word is a second, a correction, a latency or an asymmetry.
fn exchange_of(w: &[u64; 18]) -> Option<Exchange>
    ensures { result ≡ pick (exchange_fits w.now) (Some (exchange_of w.now)) None }
{
    Some(Exchange {
        stamps: stamps_of(w)?,
        corrections: corrections_of(w),
        latencies: latencies_of(w),
        asymmetry: asymmetry_of(w),
    })
}

// What the exchange in eighteen words measures.
#[tactic(auto, unfolding(refusal::specs::Choice::refuse))]
pub fn measured(w: &[u64; 18]) -> Result<(ScaledNs, Offset), Refusal>
    ensures { result ≡ measured_of w.now }
{
    delay::measure(exchange_of(w).ok_or(Refusal::Range)?)
}

// Delay, and the offset's whole seconds and its rest.
fn result_words(m: (ScaledNs, Offset)) -> [u64; 3]
    ensures { result ≡ measured_words (Ok m) [] }
{
    let (delay, offset) = m;
    [
        delay.0.cast_unsigned(),
        offset.seconds.cast_unsigned(),
        offset.rest,
    ]
}

// What an exchange measures.
pub fn put_measured(out: &mut [u64; 3], m: Result<(ScaledNs, Offset), Refusal>) -> u64
    ensures answer { result ≡ measured_code m }
    ensures words { out.new ≡ measured_words m out.old }
{
    words::put(out, m.map(result_words).map_err(refusal::number))
}
