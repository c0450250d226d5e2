// A message read whole: header and body. The readers here are for octets that have been checked, but for `read`, which checks them.
ghost use Rattle.std.specs.Prelude.{◌≡◌, ◌≤◌, length};
ghost use Rattle.message.specs.Fields.{type_of, fixed_size, identity_at, stamp_of, body_of};
ghost use Rattle.message.specs.Reading.{read_of};

use message::fields::{
    ANNOUNCE, Body, DELAY_REQ, DELAY_RESP, DelayResp, FOLLOW_UP, Message, SYNC, Timestamp,
};
use refusal::Refusal;

fn stamp_of(s: &[u8]) -> Timestamp
    requires { 44 ≤ length s.now }
    ensures { result ≡ stamp_of s.now }
{
    message::fields::stamp_with(s, octets::held::u32_at(s, 40))
}

fn delay_resp_of(s: &[u8]) -> DelayResp
    requires { 54 ≤ length s.now }
    ensures { result ≡ record { receive = stamp_of s.now; requester = identity_at s.now 44 } }
{
    DelayResp {
        receive: stamp_of(s),
        requester: message::fields::identity_at(s, 44),
    }
}

pub fn body_of(s: &[u8]) -> Body
    requires { (44 ≤ length s.now) × (fixed_size (type_of s.now) ≤ length s.now) }
    ensures { result ≡ body_of s.now }
{
    let kind = s[0] % 16;
    match kind {
        SYNC => Body::Sync(stamp_of(s)),
        DELAY_REQ => Body::DelayReq(stamp_of(s)),
        FOLLOW_UP => Body::FollowUp(stamp_of(s)),
        DELAY_RESP => Body::DelayResp(delay_resp_of(s)),
        ANNOUNCE => Body::Announce(message::fields::announce_of(s, octets::held::u32_at(s, 40))),
        _ => Body::Signaling(message::fields::identity_at(s, 34)),
    }
}

// Any octets at all, read.
pub fn read(s: &[u8], magic: u16) -> Result<Message, Refusal>
    ensures { result ≡ read_of magic s.now }
{
    message::reading::check(s, magic)?;
    Ok(Message {
        header: message::fields::header_of(s),
        body: body_of(s),
    })
}
