#![tactic(auto)]
// Products and quotients by shifting, comparing, adding and subtracting alone: the processor of the small line card neither multiplies nor divides.
// One division by binary digits serves every divisor; a thousandth and the asymmetry's quotient have shorter ways besides, which are exact too.
ghost use Rattle.std.specs.Prelude.{◌≡◌, ◌+◌, ◌-◌, ◌*◌, ◌/◌, ◌%◌, ◌^◌, ◌<◌, ◌≤◌};

// What a division gives: the quotient, rounded down, and the rest, which is below the divisor.
#[derive(Clone, Copy)]
pub struct Part {
    pub whole: u64,
    pub rest: u64,
}

// The denominator of the asymmetry, and the bound below which a number takes the asymmetry's short way.
const TWO_40: u64 = 1 << 40;

const FEW: u64 = 1 << 30;

// One digit further. The number v is doubled; where the divisor, twice `half`, goes into it, the divisor is taken off and a 1 becomes the last digit.
// To take off the divisor less 1 is to add `less`, which wraps.
fn digit(v: u64, half: u64, less: u64) -> u64
    requires { (v < 2 * half) × (half ≤ 2 ^ 62) × (less + 2 * half ≡ 2 ^ 64 + 1) }
    ensures { (result + v / half * (2 * half - 1) ≡ 2 * v) × (result < 2 * half) }
{
    let twice = v + v;
    if v < half {
        twice
    } else {
        twice.wrapping_add(less)
    }
}

// n divided by q, where the quotient has at most `digits` binary digits. The divisor stands above so many places; n is moved up through them digit by
// digit, and into the places that it leaves come the digits of the quotient.
pub fn divided(n: u64, q: u64, digits: u64) -> Part
    requires { (n < q * 2 ^ digits) × (q * 2 ^ digits ≤ 2 ^ 63) × (0 < digits) × (digits < 64) }
    ensures { (result.whole ≡ n / q) × (result.rest ≡ n % q) }
{
    let high = q << digits;
    let half = high >> 1;
    let less = 1_u64.wrapping_sub(high);
    let mut v = n;
    for _ in 0..digits {
        v = digit(v, half, less);
    }
    let rest = v >> digits;
    Part {
        whole: v - (rest << digits),
        rest,
    }
}

// So many digits more: what has been divided so far, times a power of two, divided by the same number.
fn further(a: Part, digits: u64, q: u64) -> Part
    requires { (a.rest < q) × (q * 2 ^ digits ≤ 2 ^ 63) × (0 < digits) × (digits < 64) × (a.whole * 2 ^ digits < 2 ^ 63) }
    ensures { (result.whole * q + result.rest ≡ 2 ^ digits * (a.whole * q + a.rest)) × (result.rest < q) }
{
    let next = divided(a.rest << digits, q, digits);
    Part {
        whole: (a.whole << digits) + next.whole,
        rest: next.rest,
    }
}

// 2^40 x / q for an x below 2^30: its first ten digits are zeros and take no step.
fn few_digits(x: u64, q: u64) -> Part
    requires { (x < 2 ^ 30) × (2 ^ 40 ≤ q) × (q < 2 ^ 42) }
    ensures { (result.whole * q + result.rest ≡ 2 ^ 40 * x) × (result.rest < q) }
{
    let start = Part {
        whole: 0,
        rest: x << 10,
    };
    let most = further(start, 20, q);
    further(most, 10, q)
}

// What q makes of x alone: nothing, where x is below 2^40 and so below q.
fn start(x: u64, q: u64) -> Part
    requires { (x < 2 ^ 50) × (2 ^ 40 ≤ q) × (q < 2 ^ 42) }
    ensures { (result.whole * q + result.rest ≡ x) × (result.rest < q) }
{
    if x < TWO_40 {
        Part { whole: 0, rest: x }
    } else {
        divided(x, q, 10)
    }
}

// 2^40 x / q, with all its digits.
fn all_digits(x: u64, q: u64) -> Part
    requires { (x < 2 ^ 50) × (2 ^ 40 ≤ q) × (q < 2 ^ 42) }
    ensures { (result.whole * q + result.rest ≡ 2 ^ 40 * x) × (result.rest < q) }
{
    let most = further(start(x, q), 20, q);
    further(most, 20, q)
}

// 2^40 x / q, by whichever way is the shorter.
fn lacking(x: u64, q: u64) -> Part
    requires { (x < 2 ^ 50) × (2 ^ 40 ≤ q) × (q < 2 ^ 42) }
    ensures { (result.whole * q + result.rest ≡ 2 ^ 40 * x) × (result.rest < q) }
{
    if x < FEW {
        few_digits(x, q)
    } else {
        all_digits(x, q)
    }
}

// p x / (p + 2^40), rounded down: with p = 2^40 + a this is the asymmetry's quotient. What p x lacks of q x, where q is p + 2^40, is 2^40 x, and that is a shift:
// so no product is worked out, and only what is lacking is divided. Without asymmetry it is half of x.
pub fn portion(p: u64, x: u64) -> u64
    requires { (2 ^ 39 < p) × (p < 3 * 2 ^ 39) × (x < 2 ^ 50) }
    ensures { result ≡ p * x / (p + 2 ^ 40) }
{
    if p == TWO_40 {
        return x >> 1;
    }
    let gone = lacking(x, p + TWO_40);
    let n = x - gone.whole;
    if gone.rest == 0 { n } else { n - 1 }
}

// A little less than the 125th part: 1/125 is 1/128 times (1 + e)(1 + e^2)(1 + e^4).., where e is 3/128.
fn nearly(n: u64) -> u64
    requires { n < 2 ^ 61 }
    ensures { (125 * result ≤ n) × (n < 125 * result + 2 ^ 18) }
{
    let a = n >> 7;
    let b = a + ((a + a + a) >> 7);
    let c = b + (((b << 3) + b) >> 14);
    let nine = (c << 3) + c;
    c + (((nine << 3) + nine) >> 28)
}

// The 125th part of a small number: again nearly, with one factor, and then by 131 / 2^14, of one more than is left.
fn small(n: u64) -> u64
    requires { n < 2 ^ 18 }
    ensures { result ≡ n / 125 }
{
    let a = n >> 7;
    let b = a + ((a + a + a) >> 7);
    let left = n + 1 - ((b << 7) - b - b - b);
    b + (((left << 7) + left + left + left) >> 14)
}

// The thousandth part of any number, rounded down: the 125th part of its eighth. It is nearly found, and the rest is a small number.
pub fn thousandth(n: u64) -> u64
    ensures { result ≡ n / 1000 }
{
    let eighth = n >> 3;
    let most = nearly(eighth);
    let rest = eighth - ((most << 7) - most - most - most);
    most + small(rest)
}

// p where the last digit of y is 1, and 0 where it is 0.
fn last(y: u64, p: u64) -> u64
    ensures { (result ≡ y % 2 * p) × (result ≤ p) }
{
    if y % 2 == 0 { 0 } else { p }
}

// k times n, a digit of k at a time, from the last one on; zeros at the front of k take no step.
pub fn times(k: u64, n: u64) -> u64
    requires { k * n < 2 ^ 63 }
    ensures { result ≡ k * n }
{
    let mut left = k;
    let mut unit = n;
    let mut sum = 0;
    // The loop stays: as many turns as k has digits, and none for a 0, so there is no range to go over.
    while 0 < left {
        sum += last(left, unit);
        unit += unit;
        left >>= 1;
    }
    sum
}
