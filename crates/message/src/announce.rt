// An Announce as those take it who choose a parent: header, body, and the wrFlags of its suffix.
ghost use Rattle.std.specs.Prelude.{◌≡◌};
ghost use Rattle.std.specs.Result.{result_ok};
ghost use Rattle.message.specs.Announced.{announce_length, refusal_of, announced_of};

use crate::fields::{ANNOUNCE, Announce, Header};
use refusal::Refusal;

#[derive(Clone, Copy)]
pub struct Heard {
    pub header: Header,
    pub announce: Announce,
    pub flags: u16,
}

// messageLength of octets that are an Announce as far as version, type and lengths go.
fn announce_length(s: &[u8]) -> Option<usize>
    ensures { result ≡ announce_length s.now }
{
    if s.len() < 64 || s[1] % 16 != 2 || s[0] % 16 != ANNOUNCE {
        return None;
    }
    let length = octets::held::u16_at(s, 2) as usize;
    if length < 64 || s.len() < length {
        return None;
    }
    Some(length)
}

// An Announce in which nothing is wrong, read in one walk over its tail.
fn sound_announce(s: &[u8], magic: u16) -> Option<Heard>
    ensures { result ≡ result_ok (announced_of magic s.now) }
{
    let length = announce_length(s)?;
    let nanoseconds = octets::held::u32_at(s, 40);
    if refusal::SECOND_NANOS <= nanoseconds {
        return None;
    }
    let t = &s[64..length];
    let p = tlv::walk::sound_suffix(t, magic)?;
    Some(Heard {
        header: crate::fields::header_of(s),
        announce: crate::fields::announce_of(s, nanoseconds),
        flags: tlv::wr::wr_flags(tlv::wr::suffix_at(t, p)),
    })
}

// What refuses octets that cannot be read as an Announce: a reading check, else 3.
fn refusal_of(s: &[u8], magic: u16) -> Refusal
    ensures { result ≡ refusal_of magic s.now }
{
    crate::reading::check(s, magic)
        .err()
        .unwrap_or(Refusal::Type)
}

// The reading checks, then 3 if it is another message. What is wrong with octets that are no sound Announce is left to the checks.
pub fn read_announce(s: &[u8], magic: u16) -> Result<Heard, Refusal>
    ensures { result ≡ announced_of magic s.now }
{
    match sound_announce(s, magic) {
        Some(h) => Ok(h),
        None => Err(refusal_of(s, magic)),
    }
}
