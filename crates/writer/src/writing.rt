// A message and its tail, checked and written.
//
// 18 comes first: transportSpecific of 16 or more, a timestamp with seconds of 2^48 or more or nanoseconds of 10^9 or more,
// a length past 65,535, a tail that reading would refuse with 6 or 7 under the set magic. Then 16. A message is of a listed
// type by its variant; `check_type` is for a caller that has a bare type number.
ghost use Rattle.std.specs.Prelude.{◌≡◌};
ghost use Rattle.writer.specs.Writing.{stamp_fits, body_fits, type_check, write_check, write_of, buffer_of};

use message::fields::{Body, Message, Timestamp};
use refusal::Refusal;

// Whether a timestamp fits its field and would be read.
fn stamp_fits(t: Timestamp) -> bool
    ensures { result ≡ stamp_fits t }
{
    t.seconds < 0x1_0000_0000_0000 && t.nanoseconds < refusal::SECOND_NANOS
}

// The same of a message, by its type; a Signaling has no timestamp.
fn body_fits(b: Body) -> bool
    ensures { result ≡ body_fits b }
{
    match b {
        Body::Sync(t) | Body::DelayReq(t) | Body::FollowUp(t) => stamp_fits(t),
        Body::DelayResp(r) => stamp_fits(r.receive),
        Body::Announce(a) => stamp_fits(a.origin),
        Body::Signaling(_) => true,
    }
}

// For a caller that has a type number and no message yet: 18 if the type is not listed.
pub fn check_type(kind: u8) -> Result<(), Refusal>
    ensures { result ≡ type_check kind }
{
    if message::fields::fixed_size(kind) == 0 {
        return Err(Refusal::Field);
    }
    Ok(())
}

// The checks: 18, then 16 against the room there is.
fn check(m: Message, tail: &[u8], magic: u16, room: usize) -> Result<(), Refusal>
    ensures { result ≡ write_check magic m tail.now room }
{
    let b = m.body;
    let h = m.header;
    if h.transport >= 16 {
        return Err(Refusal::Field);
    }
    if !body_fits(b) {
        return Err(Refusal::Field);
    }
    let size = message::fields::fixed_size(layout::kind_of(b));
    if tail.len() > 65535 - size {
        return Err(Refusal::Field);
    }
    message::reading::tail_check(tail, size, magic).or(Err(Refusal::Field))?;
    if room < size + tail.len() {
        return Err(Refusal::Room);
    }
    Ok(())
}

// A message and its tail go into the front of the buffer.
pub fn write(out: &mut [u8], m: Message, tail: &[u8], magic: u16) -> Result<usize, Refusal>
    ensures answer { result ≡ write_of magic m tail.now out.old }
    ensures buffer { out.new ≡ buffer_of magic m tail.now out.old }
{
    check(m, tail, magic, out.len())?;
    let b = m.body;
    let h = m.header;
    let size = message::fields::fixed_size(layout::kind_of(b));
    let n = size + tail.len();
    layout::put_header(out, h, b, n as u16);
    layout::put_body(out, b);
    stores::copy_in(out, size, tail);
    Ok(n)
}
