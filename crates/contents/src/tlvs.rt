// The TLVs of a message, one after another.
//
// A walk is a loop: it asks for the TLV at 0, which is the first, then for the one at the end of that, until there is none. At 0 the whole
// message is checked as reading checks it. A call that goes on looks at one TLV alone, so that a tail is gone through once, and needs
// no buffer.
ghost use Rattle.std.specs.Prelude.{◌≡◌, ◌+◌, ◌-◌, ◌<◌, length};
ghost use Rattle.message.specs.Fields.{type_of, fixed_size, tail_of};
ghost use Rattle.message.specs.Reading.{headed, check_of, by};
ghost use Rattle.contents.specs.Tlvs.{standing, next_in, data_from};

use refusal::Refusal;

// A TLV: where it stands in the message, its type, and how many octets of data stand behind these four octets.
#[derive(Clone, Copy)]
pub struct Tlv {
    pub place: u16,
    pub kind: u16,
    pub length: u16,
}

// What stands at `p` of a tail that begins at `size` in its message.
fn stands_at(t: &[u8], size: usize, p: usize, magic: u16) -> Result<Option<Tlv>, Refusal>
    requires { size + length t.now < 65536 }
    ensures { result ≡ standing magic size t.now p }
{
    if t.len() <= p {
        return Ok(None);
    }
    let place = message::reading::place_in(size, p);
    let Some(q) = tlv::walk::step(t, p) else {
        return Err(Refusal::Tlv(place));
    };
    let l = q - p - 4;
    let x = tlv::form::number_at(t, p, l, magic);
    if tlv::form::misfits(x, l) {
        return Err(Refusal::WrBad(place));
    }
    Ok(Some(Tlv {
        place,
        kind: octets::held::u16_at(t, p),
        length: l as u16,
    }))
}

// The first TLV, where nothing is wrong with the message.
fn begin(s: &[u8], magic: u16) -> Result<Option<Tlv>, Refusal>
    ensures { result ≡ by (check_of magic s.now) Err (standing magic (fixed_size (type_of s.now)) (tail_of s.now) 0) }
{
    message::reading::check(s, magic)?;
    let size = message::fields::fixed_size(s[0] % 16);
    stands_at(crate::parts::checked_tail(s), size, 0, magic)
}

// The TLV at octet `from`, where nothing is wrong with what stands before the tail; an octet of the fixed part stands for the tail's start.
fn go_on(s: &[u8], from: usize, magic: u16) -> Result<Option<Tlv>, Refusal>
    ensures { result ≡ headed Err (standing magic (fixed_size (type_of s.now)) (tail_of s.now) (from - fixed_size (type_of s.now))) s.now }
{
    let b = message::reading::head(s)?;
    stands_at(
        &s[b.size..b.length],
        b.size,
        from.saturating_sub(b.size),
        magic,
    )
}

// The TLV that stands at octet `from` of the message; the first at 0.
pub fn next_tlv(s: &[u8], from: usize, magic: u16) -> Result<Option<Tlv>, Refusal>
    ensures { result ≡ next_in magic from s.now }
{
    if from == 0 {
        return begin(s, magic);
    }
    go_on(s, from, magic)
}

// Its data, as a part of the message; empty where it is refused or has no such TLV.
pub fn next_data(s: &[u8], from: usize, magic: u16) -> &[u8]
    ensures { result.now ≡ data_from magic from s.now }
{
    match next_tlv(s, from, magic) {
        Ok(Some(x)) => {
            let a = x.place as usize + 4;
            let n = x.length as usize;
            &s[a..a + n]
        }
        // two arms: an arm for both does not say that there is none, and `returns` stayed open
        Ok(None) => &s[..0],
        Err(_) => &s[..0],
    }
}
