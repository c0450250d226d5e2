// The structs of a message, and the places of their fields. The readers here are for octets that have been checked.
ghost use Rattle.std.specs.Prelude.{◌≡◌, ◌+◌, ◌≤◌, length};
ghost use Rattle.octets.specs.Be.{be};
ghost use Rattle.message.specs.Fields.{fixed_size, identity_at, stamp_of, header_of, announce_of};

use identity::PortIdentity;

// 48 bits of seconds, and nanoseconds below 10^9.
#[derive(Clone, Copy)]
pub struct Timestamp {
    pub seconds: u64,
    pub nanoseconds: u32,
}

// What every message begins with. Its type is told by the body, its length by the body and the tail.
#[derive(Clone, Copy)]
pub struct Header {
    pub transport: u8,
    pub domain: u8,
    pub flags: u16,
    pub correction: i64,
    pub source: PortIdentity,
    pub sequence: u16,
    pub interval: i8,
}

#[derive(Clone, Copy)]
pub struct Announce {
    pub origin: Timestamp,
    pub utc: i16,
    pub priority1: u8,
    pub class: u8,
    pub accuracy: u8,
    pub variance: u16,
    pub priority2: u8,
    pub grandmaster: u64,
    pub steps: u16,
    pub timesource: u8,
}

#[derive(Clone, Copy)]
pub struct DelayResp {
    pub receive: Timestamp,
    pub requester: PortIdentity,
}

// What stands behind the header, by the type of the message.
#[derive(Clone, Copy)]
pub enum Body {
    Sync(Timestamp),
    DelayReq(Timestamp),
    FollowUp(Timestamp),
    DelayResp(DelayResp),
    Announce(Announce),
    Signaling(PortIdentity),
}

#[derive(Clone, Copy)]
pub struct Message {
    pub header: Header,
    pub body: Body,
}

// The types of messages stay numbers: a type is half an octet as it stands in the message, and is matched once where it is read.
pub const SYNC: u8 = 0x0;

pub const DELAY_REQ: u8 = 0x1;

pub const FOLLOW_UP: u8 = 0x8;

pub const DELAY_RESP: u8 = 0x9;

pub const ANNOUNCE: u8 = 0xB;

pub const SIGNALING: u8 = 0xC;

// The fixed size of a type of message; 0 where the type is not listed, as in the definition `fixed_size`, which theorems name.
pub fn fixed_size(kind: u8) -> usize
    ensures { result ≡ fixed_size kind }
{
    match kind {
        SYNC => 44,
        DELAY_REQ => 44,
        FOLLOW_UP => 44,
        DELAY_RESP => 54,
        ANNOUNCE => 64,
        SIGNALING => 44,
        _ => 0,
    }
}

pub fn identity_at(s: &[u8], at: usize) -> PortIdentity
    requires { at + 10 ≤ length s.now }
    ensures { result ≡ identity_at s.now at }
{
    PortIdentity {
        clock: octets::held::u64_at(s, at),
        port: octets::held::u16_at(s, at + 8),
    }
}

// The timestamp, its nanoseconds having been read when they were checked.
pub fn stamp_with(s: &[u8], nanoseconds: u32) -> Timestamp
    requires in_bounds { 44 ≤ length s.now }
    requires nanoseconds_value { nanoseconds ≡ be 4 s.now 40 }
    ensures { result ≡ stamp_of s.now }
{
    Timestamp {
        seconds: octets::held::u48_at(s, 34),
        nanoseconds,
    }
}

pub fn header_of(s: &[u8]) -> Header
    requires { 34 ≤ length s.now }
    ensures { result ≡ header_of s.now }
{
    Header {
        transport: s[0] / 16,
        domain: s[4],
        flags: octets::held::u16_at(s, 6),
        correction: octets::signed64(octets::held::u64_at(s, 8)),
        source: identity_at(s, 20),
        sequence: octets::held::u16_at(s, 30),
        interval: octets::signed8(s[33]),
    }
}

// An Announce, its nanoseconds having been read.
pub fn announce_of(s: &[u8], nanoseconds: u32) -> Announce
    requires in_bounds { 64 ≤ length s.now }
    requires nanoseconds_value { nanoseconds ≡ be 4 s.now 40 }
    ensures { result ≡ announce_of s.now }
{
    Announce {
        origin: stamp_with(s, nanoseconds),
        utc: octets::signed16(octets::held::u16_at(s, 44)),
        priority1: s[47],
        class: s[48],
        accuracy: s[49],
        variance: octets::held::u16_at(s, 50),
        priority2: s[52],
        grandmaster: octets::held::u64_at(s, 53),
        steps: octets::held::u16_at(s, 61),
        timesource: s[63],
    }
}
