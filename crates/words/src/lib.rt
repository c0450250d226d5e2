#![tactic(auto)]
// How single numbers lie in words of 64 bits that a host written in C lends: signed numbers as their two's complement, a port
// as itself. The crates beside this one pack whole values: candidates, messages, link steps and exchanges.
//
// No word is cut: a word that is no port is 0, which every call refuses, and the packing crates tell the words that do not fit.
ghost use Rattle.std.specs.Prelude.{◌≡◌};
ghost use Rattle.std.specs.Int.{w64};
ghost use Rattle.std.proofs.Common.{of_z};
ghost use Rattle.words.specs.Words.{port_of, returned, lent};

// A signed octet as a word.
pub fn word_of_i8(octet: i8) -> u64
    ensures { result ≡ of_z w64 octet }
{
    i64::from(octet).cast_unsigned()
}

// A signed number of two octets as a word.
pub fn word_of_i16(x: i16) -> u64
    ensures { result ≡ of_z w64 x }
{
    i64::from(x).cast_unsigned()
}

// The port that a word names, 0 where it is none of 1 to 18: C's words and the definition say it by 0, which every call refuses.
pub fn port_of(w: u64) -> u8
    ensures { result ≡ port_of w }
{
    if w <= refusal::PORTS as u64 {
        w as u8
    } else {
        0
    }
}

// Writes a result into the words that a host lends for it, and returns 0; or leaves them as they are, and returns the code that refuses.
pub fn put<const N: usize>(out: &mut [u64; N], x: Result<[u64; N], u64>) -> u64
    ensures answer { result ≡ returned x.entry }
    ensures words { out.new ≡ lent x.entry out.old }
{
    match x {
        Ok(words) => {
            *out = words;
            0
        }
        Err(code) => code,
    }
}
