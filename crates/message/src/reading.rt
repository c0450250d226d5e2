// The checks of reading.
ghost use Rattle.std.specs.Prelude.{◌≡◌, ◌+◌, ◌≤◌, ◌<◌, length, Err};
ghost use Rattle.tlv.specs.Faults.{fault_of};
ghost use Rattle.message.specs.Reading.{bad_stamp, IsPlaced, fault_check, head_of, check_of, takes_of};

use crate::fields::SIGNALING;
use refusal::Refusal;
use tlv::walk::Fault;

// Where the tail of a message begins, and where the message ends.
#[derive(Clone, Copy)]
pub struct Bounds {
    pub size: usize,
    pub length: usize,
}

// Whether the octets carry a timestamp of 10^9 nanoseconds or more. A Signaling has an identity in that place.
pub fn bad_stamp(s: &[u8], kind: u8) -> bool
    requires { 44 ≤ length s.now }
    ensures { result ≡ bad_stamp kind s.now }
{
    kind != SIGNALING && octets::held::u32_at(s, 40) >= refusal::SECOND_NANOS
}

// A place in the tail as one in the message, whose fixed part has `size` octets.
pub fn place_in(size: usize, p: usize) -> u16
    requires { size + p < 65536 }
    ensures { result ≡ size + p }
{
    (size + p) as u16
}

// What a fault of the tail refuses, with its place in the message.
fn refused(size: usize, x: Fault) -> Refusal
    requires { IsPlaced size (Err x) }
    ensures { Err result ≡ fault_check size (Err x) }
{
    match x {
        Fault::Broken(p) => Refusal::Tlv(place_in(size, p)),
        Fault::Misfit(p) => Refusal::WrBad(place_in(size, p)),
    }
}

// The checks of a tail behind a fixed part of `size` octets: 6, then 7.
pub fn tail_check(t: &[u8], size: usize, magic: u16) -> Result<(), Refusal>
    requires { size + length t.now < 65536 }
    ensures { result ≡ fault_check size (fault_of magic t.now) }
{
    tlv::walk::first_fault(t, magic).map_err(|x| refused(size, x))
}

// The checks before the tail's: under 34 octets, 2, 3, 4, messageLength, 5.
pub fn head(s: &[u8]) -> Result<Bounds, Refusal>
    ensures { result ≡ head_of s.now }
{
    if s.len() < 34 {
        return Err(Refusal::Short);
    }
    if s[1] % 16 != 2 {
        return Err(Refusal::Version);
    }
    let kind = s[0] % 16;
    let size = crate::fields::fixed_size(kind);
    if size == 0 {
        return Err(Refusal::Type);
    }
    let length = octets::held::u16_at(s, 2) as usize;
    if length < size {
        return Err(Refusal::Length);
    }
    if s.len() < length {
        return Err(Refusal::Short);
    }
    if bad_stamp(s, kind) {
        return Err(Refusal::Stamp);
    }
    Ok(Bounds { size, length })
}

// All the checks: those before the tail's, then the tail's 6 and 7.
pub fn check(s: &[u8], magic: u16) -> Result<(), Refusal>
    ensures { result ≡ check_of magic s.now }
{
    let b = head(s)?;
    if b.length == b.size {
        return Ok(());
    }
    tail_check(&s[b.size..b.length], b.size, magic)
}

// The checks of a call that takes messages of one type: those of reading, then 3 if it is another message.
pub fn takes(s: &[u8], kind: u8, magic: u16) -> Result<(), Refusal>
    ensures { result ≡ takes_of magic kind s.now }
{
    check(s, magic)?;
    if s[0] % 16 == kind {
        Ok(())
    } else {
        Err(Refusal::Type)
    }
}
