// Parts of a message: its tail, the data of its first TLV of a type, and what White Rabbit's TLVs say.
//
// A part is handed back as a slice of the message lent. It is empty where the message is refused or has no such part;
// the call beside says which.
ghost use Rattle.std.specs.Prelude.{◌≡◌, ◌≤◌, length};
ghost use Rattle.message.specs.Fields.{tail_of};
ghost use Rattle.message.specs.Reading.{Bounded};
ghost use Rattle.contents.specs.Parts.{tail_in, data_in, lookup_of, IsWithin, data_length, suffix_of, link_of};

use message::fields::{ANNOUNCE, SIGNALING};
use refusal::Refusal;
use tlv::wr::LinkMessage;

// The tail of a message whose lengths have been checked.
pub fn checked_tail(s: &[u8]) -> &[u8]
    requires { Bounded s.now }
    ensures { result.now ≡ tail_of s.now }
{
    let size = message::fields::fixed_size(s[0] % 16);
    let length = octets::held::u16_at(s, 2) as usize;
    &s[size..length]
}

// What stands between the fixed part and messageLength.
pub fn tail(s: &[u8], magic: u16) -> &[u8]
    ensures { result.now ≡ tail_in magic s.now }
{
    match message::reading::check(s, magic) {
        Err(_) => &s[..0],
        Ok(()) => checked_tail(s),
    }
}

// The data of the first TLV of a type.
pub fn lookup(s: &[u8], kind: u16, magic: u16) -> &[u8]
    ensures { result.now ≡ data_in magic kind s.now }
{
    let t = tail(s, magic);
    crate::search::data_of(t, kind)
}

// Why `lookup` hands back what it does. A message in which nothing is wrong is walked over once; what is wrong with any
// other is left to the checks.
pub fn looked_up(s: &[u8], kind: u16, magic: u16) -> Result<Option<usize>, Refusal>
    ensures { result ≡ lookup_of magic kind s.now }
{
    let b = message::reading::head(s)?;
    let t = &s[b.size..b.length];
    let Some(p) = crate::search::sound_place(t, kind, magic) else {
        message::reading::check(s, magic)?;
        return Ok(None);
    };
    if p < t.len() {
        Ok(Some(b.size + p + 4))
    } else {
        Ok(None)
    }
}

// How many octets of data the TLV has that was found, read before them.
pub fn data_length(s: &[u8], x: Result<Option<usize>, Refusal>) -> usize
    requires { IsWithin x s.now }
    ensures { result ≡ data_length x s.now }
{
    match x {
        Ok(Some(at)) => octets::held::u16_at(s, at - 2) as usize,
        _ => 0,
    }
}

// The suffix of an Announce: the reading checks, then 3 if it is another message.
pub fn suffix(s: &[u8], magic: u16) -> Result<Option<u16>, Refusal>
    ensures { result ≡ suffix_of magic s.now }
{
    message::reading::takes(s, ANNOUNCE, magic)?;
    Ok(crate::wr::first_suffix(checked_tail(s), magic))
}

// The first link message of a Signaling: the reading checks, then 3 if it is another message.
pub fn link_message(s: &[u8], magic: u16) -> Result<Option<LinkMessage>, Refusal>
    ensures { result ≡ link_of magic s.now }
{
    message::reading::takes(s, SIGNALING, magic)?;
    Ok(crate::wr::first_link(checked_tail(s), magic))
}
