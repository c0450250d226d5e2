#![tactic(auto, unfolding(crate::specs::Be::be))]
// Big-endian numbers in octets, read at any place of a slice.
//
// Reading never fails: an octet past the end of the slice counts as 0, and the contracts say so. Where the caller
// has shown that the octets are there, `held` reads them without looking at the length again.
// Signed numbers are two's complement.
ghost use Rattle.std.specs.Prelude.{◌≡◌, ◌+◌, ◌≤◌, get_or};
ghost use Rattle.std.specs.Int.{w8, w16, w64};
ghost use Rattle.std.proofs.Common.{to_z, of_z};
ghost use Rattle.octets.specs.Be.{be};

pub mod held;

// The octet i places behind `at`. The place is added up only where it is in s: elsewhere it may be no usize.
fn octet_behind(s: &[u8], at: usize, i: usize) -> u8
    ensures { result ≡ get_or s.now (at + i) 0 }
{
    if at < s.len() && i < s.len() - at {
        s[at + i]
    } else {
        0
    }
}

// The number in the n octets at `at`.
fn number(s: &[u8], at: usize, n: usize) -> u64
    requires { n ≤ 8 }
    ensures { result ≡ be n s.now at }
{
    let mut v = 0;
    for i in 0..n {
        v = v * 256 + u64::from(octet_behind(s, at, i));
    }
    v
}

pub fn octet_at(s: &[u8], at: usize) -> u8
    ensures { result ≡ get_or s.now at 0 }
{
    s.get(at).copied().unwrap_or(0)
}

pub fn u16_at(s: &[u8], at: usize) -> u16
    ensures { result ≡ be 2 s.now at }
{
    number(s, at, 2) as u16
}

pub fn u32_at(s: &[u8], at: usize) -> u32
    ensures { result ≡ be 4 s.now at }
{
    number(s, at, 4) as u32
}

pub fn u48_at(s: &[u8], at: usize) -> u64
    ensures { result ≡ be 6 s.now at }
{
    number(s, at, 6)
}

pub fn u64_at(s: &[u8], at: usize) -> u64
    ensures { result ≡ be 8 s.now at }
{
    number(s, at, 8)
}

// The number whose two's complement is v.
pub fn signed8(v: u8) -> i8
    ensures { result ≡ to_z w8 v }
{
    u8::cast_signed(v)
}

pub fn signed16(v: u16) -> i16
    ensures { result ≡ to_z w16 v }
{
    u16::cast_signed(v)
}

pub fn signed64(v: u64) -> i64
    ensures { result ≡ to_z w64 v }
{
    u64::cast_signed(v)
}

// The two's complement of x.
pub fn bits8(x: i8) -> u8
    ensures { result ≡ of_z w8 x }
{
    i8::cast_unsigned(x)
}

pub fn bits64(x: i64) -> u64
    ensures { result ≡ of_z w64 x }
{
    i64::cast_unsigned(x)
}
