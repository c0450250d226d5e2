#![tactic(auto)]
// Messages in twenty words, in the order of docs/VECTORS.md: nine for the header, type first, and eleven for the body; those
// that a type has no field for are zero. Into words, and out of them.
//
// A word that its field cannot hold is not the message's: `is_whole` tells, and writing refuses it with 18. Words that the type
// has no field for are not looked at.
ghost use Rattle.std.specs.Prelude.{◌≡◌, ◌+◌, ◌≤◌, length};
ghost use Rattle.rank.specs.Order.{same};
ghost use Rattle.message_words.specs.Words.{pair_words, announce_words, resp_words, body_words, message_words, stamp_of, identity_at, header_of, announce_of, body_of, message_of, is_whole};
ghost use Rattle.message_words.specs.Fits.{signed8_fits, signed16_fits, signed64_fits, header_fits, stamp_fits, announce_fits};

use identity::PortIdentity;
use message::fields::{Announce, Body, DelayResp, Header, Message, Timestamp};

pub mod answers;
pub mod reading;
pub mod straight;
pub mod writing;

// Two numbers, and zeros.
fn pair_words(a: u64, b: u64) -> [u64; 11]
    ensures { result ≡ pair_words a b }
{
    [a, b, 0, 0, 0, 0, 0, 0, 0, 0, 0]
}

// The body of a Delay_Resp.
fn resp_words(x: DelayResp) -> [u64; 11]
    ensures { result ≡ resp_words x }
{
    let t = x.receive;
    let p = x.requester;
    [
        t.seconds,
        t.nanoseconds as u64,
        p.clock,
        p.port as u64,
        0,
        0,
        0,
        0,
        0,
        0,
        0,
    ]
}

// The body of an Announce.
fn announce_words(a: Announce) -> [u64; 11]
    ensures { result ≡ announce_words a }
{
    let t = a.origin;
    let utc = words::word_of_i16(a.utc);
    [
        t.seconds,
        t.nanoseconds as u64,
        utc,
        a.priority1 as u64,
        a.class as u64,
        a.accuracy as u64,
        a.variance as u64,
        a.priority2 as u64,
        a.grandmaster,
        a.steps as u64,
        a.timesource as u64,
    ]
}

// The body of any message.
fn body_words(b: Body) -> [u64; 11]
    ensures { result ≡ body_words b }
{
    match b {
        Body::Sync(t) => pair_words(t.seconds, t.nanoseconds as u64),
        Body::DelayReq(t) => pair_words(t.seconds, t.nanoseconds as u64),
        Body::FollowUp(t) => pair_words(t.seconds, t.nanoseconds as u64),
        Body::DelayResp(r) => resp_words(r),
        Body::Announce(a) => announce_words(a),
        Body::Signaling(p) => pair_words(p.clock, p.port as u64),
    }
}

// A message in twenty words.
pub fn message_words(m: Message) -> [u64; 20]
    ensures { result ≡ message_words m }
{
    let h = m.header;
    let p = h.source;
    let body = m.body;
    let kind = layout::kind_of(body);
    let correction = octets::bits64(h.correction);
    let interval = words::word_of_i8(h.interval);
    let b = body_words(body);
    [
        kind as u64,
        h.transport as u64,
        h.domain as u64,
        h.flags as u64,
        correction,
        p.clock,
        p.port as u64,
        h.sequence as u64,
        interval,
        b[0],
        b[1],
        b[2],
        b[3],
        b[4],
        b[5],
        b[6],
        b[7],
        b[8],
        b[9],
        b[10],
    ]
}

// The timestamp that a body begins with.
fn stamp_of(w: &[u64; 20]) -> Timestamp
    ensures { result ≡ stamp_of w.now }
{
    Timestamp {
        seconds: w[9],
        nanoseconds: (w[10] % 0x1_0000_0000) as u32,
    }
}

// The identity in two words.
pub fn identity_at(w: &[u64; 20], at: usize) -> PortIdentity
    requires { at + 2 ≤ 20 }
    ensures { result ≡ identity_at w.now at }
{
    PortIdentity {
        clock: w[at],
        port: (w[at + 1] % 65536) as u16,
    }
}

// The header in the first nine words.
pub fn header_of(w: &[u64; 20]) -> Header
    ensures { result ≡ header_of w.now }
{
    Header {
        transport: (w[1] % 256) as u8,
        domain: (w[2] % 256) as u8,
        flags: (w[3] % 65536) as u16,
        correction: octets::signed64(w[4]),
        source: identity_at(w, 5),
        sequence: (w[7] % 65536) as u16,
        interval: octets::signed8((w[8] % 256) as u8),
    }
}

// The body of an Announce.
fn announce_of(w: &[u64; 20]) -> Announce
    ensures { result ≡ announce_of w.now }
{
    Announce {
        origin: stamp_of(w),
        utc: octets::signed16((w[11] % 65536) as u16),
        priority1: (w[12] % 256) as u8,
        class: (w[13] % 256) as u8,
        accuracy: (w[14] % 256) as u8,
        variance: (w[15] % 65536) as u16,
        priority2: (w[16] % 256) as u8,
        grandmaster: w[17],
        steps: (w[18] % 65536) as u16,
        timesource: (w[19] % 256) as u8,
    }
}

// The body of the type in the first word; a type that is not listed is none of these, and `is_whole` refuses it.
fn body_of(w: &[u64; 20]) -> Body
    ensures { result ≡ body_of w.now }
{
    let kind = w[0];
    match kind {
        0x0 => Body::Sync(stamp_of(w)),
        0x1 => Body::DelayReq(stamp_of(w)),
        0x8 => Body::FollowUp(stamp_of(w)),
        0x9 => Body::DelayResp(DelayResp {
            receive: stamp_of(w),
            requester: identity_at(w, 11),
        }),
        0xB => Body::Announce(announce_of(w)),
        _ => Body::Signaling(identity_at(w, 9)),
    }
}

// The message in twenty words.
pub fn message_of(w: &[u64; 20]) -> Message
    ensures { result ≡ message_of w.now }
{
    Message {
        header: header_of(w),
        body: body_of(w),
    }
}

// Whether two runs of words are the same.
pub fn are_same(a: &[u64], b: &[u64]) -> bool
    requires { length a.now ≡ length b.now }
    ensures { result ≡ same a.now b.now }
{
    a == b
}

// Whether a word is a signed octet.
fn signed8_fits(x: u64) -> bool
    ensures { result ≡ signed8_fits x }
{
    (x < 0x80) | (x >= 0xffff_ffff_ffff_ff80)
}

// Whether a word is a signed number of two octets.
fn signed16_fits(x: u64) -> bool
    ensures { result ≡ signed16_fits x }
{
    (x < 0x8000) | (x >= 0xffff_ffff_ffff_8000)
}

// Whether a word is a signed number of eight octets: every word is.
fn signed64_fits(x: u64) -> bool
    ensures { result ≡ signed64_fits x }
{
    true
}

// The words of a header within their fields; any word is a correction or a clock.
fn header_fits(w: &[u64; 20]) -> bool
    ensures { result ≡ header_fits w.now }
{
    let correction = signed64_fits(w[4]);
    let interval = signed8_fits(w[8]);
    (w[1] < 256)
        & (w[2] < 256)
        & (w[3] < 65536)
        & correction
        & (w[6] < 65536)
        & (w[7] < 65536)
        & interval
}

// The nanoseconds of a timestamp within four octets.
fn stamp_fits(w: &[u64; 20]) -> bool
    ensures { result ≡ stamp_fits w.now }
{
    w[10] < 0x1_0000_0000
}

// The words of an Announce's body within their fields.
fn announce_fits(w: &[u64; 20]) -> bool
    ensures { result ≡ announce_fits w.now }
{
    let stamp = stamp_fits(w);
    let utc = signed16_fits(w[11]);
    stamp
        & utc
        & (w[12] < 256)
        & (w[13] < 256)
        & (w[14] < 256)
        & (w[15] < 65536)
        & (w[16] < 256)
        & (w[18] < 65536)
        & (w[19] < 256)
}

// Whether words are those of the message that is read out of them, each number within its field. A type that is not listed has
// none.
pub fn is_whole(w: &[u64; 20]) -> bool
    ensures { result ≡ is_whole w.now }
{
    let header = header_fits(w);
    let kind = w[0];
    match kind {
        0x0 => header & stamp_fits(w),
        0x1 => header & stamp_fits(w),
        0x8 => header & stamp_fits(w),
        0x9 => header & stamp_fits(w) & (w[12] < 65536),
        0xB => header & announce_fits(w),
        0xC => header & (w[10] < 65536),
        _ => false,
    }
}
