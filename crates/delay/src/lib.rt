#![tactic(auto)]
// Delay and offset of one exchange with a master, exact to 2^-16 of a nanosecond: four stamps, three corrections, four
// latencies and an asymmetry in, the delay and the offset out. A number outside a limit of the delay section is
// refused with 14, and nothing else is. Which messages the numbers come from, and steering a clock by the offset, are
// left to others. Inside, a signed number is raised by a power of two, so that it is added and compared as an
// unsigned one; no number is wider than 64 bits. Nothing is multiplied or divided but by shifting, comparing, adding
// and subtracting: a small line card's processor can do no more.
ghost use Rattle.std.specs.Prelude.{◌≡◌, ◌&&◌, neg_ℤ, ◌≤ℤ◌, pos, ◌+ℤ◌, ◌-ℤ◌, ◌+◌, ◌-◌, ◌*◌, ◌/◌, ◌%◌, ◌^◌, ◌≤◌, ◌<◌};
ghost use Rattle.std.specs.Int.Signed.{lt_z};
ghost use Rattle.signed.specs.Limits.{Within};
ghost use Rattle.delay.specs.Delay.{fine, t1, t2, t3, t4, in_ns, delay, second, in_seconds};
ghost use Rattle.delay.specs.Range.{corrections_good, latencies_good, stamp_good, stamps_good, inputs_good, StampIn, LatenciesIn, InputsIn};
ghost use Rattle.delay.specs.Answer.{measure_of};
ghost use Rattle.delay.specs.Inside.{time_of, TimeIs, SpanIs, MIs, ShareIs, DelayIs};

mod time;

use quotient::Part;
use refusal::Refusal;
use time::Time;

// Nanoseconds times 2^16: corrections, D, the delay.
#[derive(Clone, Copy)]
pub struct ScaledNs(pub i64);

// Picoseconds times 2^16: latencies and their sums.
#[derive(Clone, Copy)]
pub struct ScaledPs(pub u64);

// The asymmetry, a ratio times 2^40.
#[derive(Clone, Copy)]
pub struct Asymmetry(pub i64);

// A time that a message carries: t1 and t4.
#[derive(Clone, Copy)]
pub struct Stamp {
    pub seconds: u64,
    pub nanos: u32,
}

// A time that the slave's own hardware takes, with a fraction of a nanosecond times 2^16: t2 and t3.
#[derive(Clone, Copy)]
pub struct FineStamp {
    pub seconds: u64,
    pub nanos: u32,
    pub fraction: u16,
}

// Sync leaves the master at t1 and reaches the slave at t2; Delay_Req leaves the slave at t3 and reaches the master
// at t4.
#[derive(Clone, Copy)]
pub struct Stamps {
    pub t1: Stamp,
    pub t2: FineStamp,
    pub t3: FineStamp,
    pub t4: Stamp,
}

// The correctionFields of Sync, Follow_Up (0 where there is none) and Delay_Resp.
#[derive(Clone, Copy)]
pub struct Corrections {
    pub sync: ScaledNs,
    pub follow: ScaledNs,
    pub resp: ScaledNs,
}

// The master's latencies for sending and receiving, and the slave's.
#[derive(Clone, Copy)]
pub struct Latencies {
    pub mtx: ScaledPs,
    pub mrx: ScaledPs,
    pub stx: ScaledPs,
    pub srx: ScaledPs,
}

// All that one exchange gives.
#[derive(Clone, Copy)]
pub struct Exchange {
    pub stamps: Stamps,
    pub corrections: Corrections,
    pub latencies: Latencies,
    pub asymmetry: Asymmetry,
}

// Whole seconds, rounded down, and a rest in nanoseconds times 2^16, less than a second.
#[derive(Clone, Copy)]
pub struct Offset {
    pub seconds: i64,
    pub rest: u64,
}

// One second in nanoseconds times 2^16.
const SECOND: u64 = 65_536_000_000_000;

// And so many seconds: around 64 lies an offset of less than one, raised by as many.
const SECONDS_63: u64 = 63 * SECOND;

const SECONDS_64: u64 = 64 * SECOND;

const SECONDS_65: u64 = 65 * SECOND;

// The limits: of corrections and differences, of the asymmetry, of latencies, and of a stamp's seconds.
const CORRECTION: i64 = 1 << 47;

const ASYMMETRY: i64 = 1 << 39;

const LATENCY: u64 = 1 << 50;

const SECONDS: u64 = 1 << 48;

// Powers of two by which numbers are raised, and the one that the asymmetry is counted in.
const TWO_40: u64 = 1 << 40;

const TWO_47: u64 = 1 << 47;

const TWO_48: u64 = 1 << 48;

const TWO_49: u64 = 1 << 49;

// Whether a number lies strictly between -limit and limit.
fn is_within(x: i64, limit: i64) -> bool
    requires { pos 0 ≤ℤ limit }
    ensures { result ≡ lt_z (neg_ℤ limit) x && lt_z x limit }
{
    -limit < x && x < limit
}

// Whether all three corrections lie strictly between -2^47 and 2^47.
// Here and below `&` stays: with `&&`, which branches at each test, `dz_measure` takes nine instructions more and misses its 400.
#[tactic(auto, unfolding(crate::specs::Range::corrections_good))]
fn corrections_good(c: Corrections) -> bool
    ensures { result ≡ corrections_good c }
{
    is_within(c.sync.0, CORRECTION)
        & is_within(c.follow.0, CORRECTION)
        & is_within(c.resp.0, CORRECTION)
}

// Whether all four latencies are below 2^50.
#[tactic(auto, unfolding(crate::specs::Range::latencies_good))]
fn latencies_good(l: Latencies) -> bool
    ensures { result ≡ latencies_good l }
{
    [l.mtx, l.mrx, l.stx, l.srx].iter().all(|l| l.0 < LATENCY)
}

// Whether a stamp's seconds are below 2^48 and its nanoseconds below 10^9.
#[tactic(auto, unfolding(crate::specs::Range::stamp_good))]
fn stamp_good(seconds: u64, nanos: u32) -> bool
    ensures { result ≡ stamp_good seconds nanos }
{
    seconds < SECONDS && nanos < refusal::SECOND_NANOS
}

// Whether all four stamps are good.
#[tactic(auto, unfolding(crate::specs::Range::stamps_good))]
fn stamps_good(s: Stamps) -> bool
    ensures { result ≡ stamps_good s }
{
    stamp_good(s.t1.seconds, s.t1.nanos)
        & stamp_good(s.t2.seconds, s.t2.nanos)
        & stamp_good(s.t3.seconds, s.t3.nanos)
        & stamp_good(s.t4.seconds, s.t4.nanos)
}

// Whether all that was handed in is within its limits; the two differences are still to be looked at. The asymmetry lies strictly
// between -2^39 and 2^39.
#[tactic(auto, unfolding(crate::specs::Range::inputs_good))]
fn inputs_good(x: Exchange) -> bool
    ensures { result ≡ inputs_good x }
{
    stamps_good(x.stamps)
        & corrections_good(x.corrections)
        & is_within(x.asymmetry.0, ASYMMETRY)
        & latencies_good(x.latencies)
}

// A correction, raised by 2^47.
fn raised(c: ScaledNs) -> u64
    requires { Within 47 c.0 }
    ensures { pos result ≡ c.0 +ℤ pos (2 ^ 47) }
{
    signed::raised(c.0, TWO_47)
}

// 2^40 + a, the numerator of the share; the denominator is 2^40 more.
fn numerator(a: Asymmetry) -> u64
    requires { Within 39 a.0 }
    ensures { pos result ≡ pos (2 ^ 40) +ℤ a.0 }
{
    signed::raised(a.0, TWO_40)
}

// t1, with the Sync and Follow_Up corrections added.
// The limits stay a clause here and in t4, outer and inner: a struct that held them would be read through at each field.
fn t1(x: Exchange) -> Time
    requires { InputsIn x }
    ensures { TimeIs (t1 x) result }
{
    let Stamp { seconds, nanos } = x.stamps.t1;
    let part = (u64::from(nanos) << 16) + raised(x.corrections.sync) + raised(x.corrections.follow);
    Time { seconds, part }
}

// t2 or t3, as it stands.
fn slave_time(s: FineStamp) -> Time
    requires { StampIn s.seconds s.nanos }
    ensures { TimeIs (pos (fine s)) result }
{
    let part = (u64::from(s.nanos) << 16) + u64::from(s.fraction) + TWO_48;
    Time {
        seconds: s.seconds,
        part,
    }
}

// t4, with the Delay_Resp correction taken off.
fn t4(x: Exchange) -> Time
    requires { InputsIn x }
    ensures { TimeIs (t4 x) result }
{
    let Stamp { seconds, nanos } = x.stamps.t4;
    let part = (u64::from(nanos) << 16) + TWO_48 + TWO_47 - raised(x.corrections.resp);
    Time { seconds, part }
}

// How far s whole seconds are ahead of t; nothing where they are not.
fn ahead(s: u64, t: u64) -> u64
    requires { s ≤ t + 32 }
    ensures { result ≡ (s - t) * second }
{
    quotient::times(s.saturating_sub(t), SECOND)
}

// over - under, raised by 2^47, where it lies strictly between -2^47 and 2^47.
fn apart(over: u64, under: u64) -> Option<u64>
    requires { over < 2 ^ 62 }
    ensures { SpanIs (pos over -ℤ pos under) result }
{
    (over + TWO_47)
        .checked_sub(under)
        .filter(|n| (1..TWO_48).contains(n))
}

// a - b, raised by 2^47, where it lies strictly between -2^47 and 2^47. Mostly both are in the same second.
fn between(a: Time, b: Time) -> Option<u64>
    ensures { SpanIs (pos (time_of a) -ℤ pos (time_of b)) result }
{
    let s = a.seconds;
    let t = b.seconds;
    if s == t {
        return apart(a.part, b.part);
    }
    if 32 < s.abs_diff(t) {
        return None;
    }
    apart(ahead(s, t) + a.part, ahead(t, s) + b.part)
}

// t4 - t1.
fn outer(x: Exchange) -> Option<u64>
    requires { InputsIn x }
    ensures { SpanIs (t4 x -ℤ t1 x) result }
{
    between(t4(x), t1(x))
}

// t3 - t2.
fn inner(x: Exchange) -> Option<u64>
    requires { InputsIn x }
    ensures { SpanIs (t3 x -ℤ t2 x) result }
{
    between(slave_time(x.stamps.t3), slave_time(x.stamps.t2))
}

// M = (t4 - t1) - (t3 - t2), raised by 2^48, where nothing is outside its limit.
#[tactic(auto, using(crate::proofs::Ranges::no_inputs, crate::proofs::Ranges::no_outer, crate::proofs::Ranges::no_inner))]
fn two_way(x: Exchange) -> Option<u64>
    ensures { MIs x result }
{
    if !inputs_good(x) {
        return None;
    }
    let there = outer(x)?;
    let back = inner(x)?;
    Some(there + TWO_48 - back)
}

// The sum of four latencies.
fn both_ways(l: Latencies) -> ScaledPs
    requires { LatenciesIn l }
    ensures { result.0 ≡ l.mtx.0 + l.mrx.0 + l.stx.0 + l.srx.0 }
{
    ScaledPs(l.mtx.0 + l.mrx.0 + l.stx.0 + l.srx.0)
}

// The latencies of the way from master to slave: master tx and slave rx.
fn one_way(l: Latencies) -> ScaledPs
    requires { LatenciesIn l }
    ensures { result.0 ≡ l.mtx.0 + l.srx.0 }
{
    ScaledPs(l.mtx.0 + l.srx.0)
}

// The one way from picoseconds to nanoseconds: a sum, divided by 1000 and rounded down.
pub fn in_ns(sum: ScaledPs) -> ScaledNs
    ensures { result.0 ≡ in_ns sum.0 }
{
    ScaledNs(quotient::thousandth(sum.0) as i64)
}

// floor((2^40 + a) z / (2^41 + a)). Both z and the answer are raised by 2^49; a negative z is moved up by 256 times the
// denominator, and the answer down by as many numerators.
fn share(a: Asymmetry, z: u64) -> u64
    requires { Within 39 a.0 × (2 ^ 47 ≤ z) × (z < 7 * 2 ^ 47) }
    ensures { ShareIs a.0 z result }
{
    let p = numerator(a);
    if TWO_49 <= z {
        return quotient::portion(p, z - TWO_49) + TWO_49;
    }
    let q = p + TWO_40;
    let n = quotient::portion(p, z + (q << 8) - TWO_49);
    n + TWO_49 - (p << 8)
}

// The delay, raised by 2^49, of an exchange whose M comes raised by 2^48.
fn delay_of(x: Exchange, m: u64) -> u64
    requires { MIs x (Some m) }
    ensures { DelayIs (delay x) result }
{
    let both = in_ns(both_ways(x.latencies));
    let one = in_ns(one_way(x.latencies));
    let z = m + TWO_48 + TWO_47 - raised(both);
    share(x.asymmetry, z) + raised(one) - TWO_47
}

// A delay that comes raised by 2^49.
fn lowered(delay: u64) -> ScaledNs
    requires { delay < 2 ^ 51 }
    ensures { result.0 ≡ pos delay -ℤ pos (2 ^ 49) }
{
    ScaledNs(signed::difference(delay, TWO_49))
}

// Whole seconds and a rest of what was raised by 64 seconds. Offsets of less than a second, either way, lie around 64, and there comparisons
// tell.
fn split(parts: u64) -> Part
    requires { parts < 128 * second }
    ensures { (result.whole ≡ parts / second) × (result.rest ≡ parts % second) }
{
    match parts {
        SECONDS_63..SECONDS_64 => Part {
            whole: 63,
            rest: parts - SECONDS_63,
        },
        SECONDS_64..SECONDS_65 => Part {
            whole: 64,
            rest: parts - SECONDS_64,
        },
        _ => quotient::divided(parts, SECOND, 7),
    }
}

// t2 - t1 - delay, in whole seconds and a rest. The times are raised alike, the delay by 2^49.
fn offset_of(t2: Time, t1: Time, delay: u64) -> Offset
    requires { delay < 2 ^ 51 }
    ensures { result ≡ in_seconds (pos (time_of t2) -ℤ pos (time_of t1) -ℤ (pos delay -ℤ pos (2 ^ 49))) }
{
    let parts = split(t2.part + SECONDS_64 + TWO_49 - t1.part - delay);
    let seconds = signed::difference(t2.seconds + parts.whole, t1.seconds + 64);
    Offset {
        seconds,
        rest: parts.rest,
    }
}

// The delay and the offset of an exchange, or 14 where a number is outside its limit.
pub fn measure(x: Exchange) -> Result<(ScaledNs, Offset), Refusal>
    ensures { result ≡ measure_of x }
{
    let m = two_way(x).ok_or(Refusal::Range)?;
    let delay = delay_of(x, m);
    let offset = offset_of(slave_time(x.stamps.t2), t1(x), delay);
    Ok((lowered(delay), offset))
}
