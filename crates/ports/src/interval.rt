// The announce interval of a port, 2^k seconds with k from -3 to 4. It is kept as k modulo 8, so that a word of zero is an
// interval of one second. Refused: 8 (a port outside 1 to 18), then 18 (k out of range).
ghost use Rattle.std.specs.Prelude.{◌≡◌};
ghost use Rattle.ports.specs.Interval.{is_interval, interval_of, interval_set, interval_after};

use crate::WORDS;
use refusal::Refusal;

// Whether k is from -3 to 4.
fn is_interval(k: i8) -> bool
    ensures { result ≡ is_interval k }
{
    (-3..=4).contains(&k)
}

// The k from -3 to 4 that a word means.
pub fn interval_of(e: u64) -> i8
    ensures { result ≡ interval_of e }
{
    let m = (e % 8) as u8;
    if m < 5 {
        m.cast_signed()
    } else {
        (m + 248).cast_signed()
    }
}

// Sets a port's interval, or refuses it.
pub fn set_interval(words: &mut [u64; WORDS], port: u8, k: i8) -> Result<(), Refusal>
    ensures { (result ≡ interval_set port k) × (words.new ≡ interval_after words.old port k) }
{
    if !refusal::is_port(port) {
        return Err(Refusal::Port);
    }
    if !is_interval(k) {
        return Err(Refusal::Field);
    }
    let b = crate::start(port);
    slots::set_exponent(
        &mut words[b..b + slots::WORDS],
        u64::from(k.cast_unsigned() % 8),
    );
    Ok(())
}
