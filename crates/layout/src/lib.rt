#![tactic(auto)]
// The octets of the parts of a message, and their way into a buffer (IEEE 1588-2008, clause 13). Reserved fields are zero.
//
// Each number is stored where it belongs, with no copy made first. Nothing is refused here: what is asked of the caller is that
// a buffer has the room and that transportSpecific fits, which `writer` has checked.
ghost use Rattle.std.specs.Prelude.{◌≡◌, [], ◌+◌, ◌≤◌, ◌<◌, length};
ghost use Rattle.stores.specs.Stores.{over};
ghost use Rattle.layout.specs.Layout.{kind_of, control_of, size_of, identity_octets, stamp_octets, lead_octets, close_octets, announce_octets, header_octets, first_octets, more_octets, body_octets};
ghost use Rattle.layout.specs.Put.{start_octets, offset_octets, grandmaster_octets};

use identity::PortIdentity;
use message::fields::{
    ANNOUNCE, Announce, Body, DELAY_REQ, DELAY_RESP, FOLLOW_UP, Header, SIGNALING, SYNC, Timestamp,
};

// versionPTP.
const VERSION: u8 = 2;

// What stands in each octet of a reserved field.
const RESERVED: u8 = 0;

// The type number of a message.
pub fn kind_of(b: Body) -> u8
    ensures { result ≡ kind_of b }
{
    match b {
        Body::Sync(_) => SYNC,
        Body::DelayReq(_) => DELAY_REQ,
        Body::FollowUp(_) => FOLLOW_UP,
        Body::DelayResp(_) => DELAY_RESP,
        Body::Announce(_) => ANNOUNCE,
        Body::Signaling(_) => SIGNALING,
    }
}

// The controlField of a message, which those who read it ignore.
fn control_of(b: Body) -> u8
    ensures { result ≡ control_of b }
{
    match b {
        Body::Sync(_) => 0,
        Body::DelayReq(_) => 1,
        Body::FollowUp(_) => 2,
        Body::DelayResp(_) => 3,
        Body::Announce(_) | Body::Signaling(_) => 5,
    }
}

// A port of a clock, ten octets.
pub fn put_identity(out: &mut [u8], at: usize, p: PortIdentity)
    requires { at + 10 ≤ length out.old }
    ensures { out.new ≡ over out.old at (identity_octets p []) }
{
    stores::eight(out, at, p.clock);
    stores::two(out, at + 8, p.port as u64);
}

// A timestamp, ten octets.
pub fn put_stamp(out: &mut [u8], t: Timestamp)
    requires { 44 ≤ length out.old }
    ensures { out.new ≡ over out.old 34 (stamp_octets t []) }
{
    stores::six(out, 34, t.seconds);
    stores::four(out, 40, t.nanoseconds as u64);
}

// Octets 0 to 7 of a header.
fn put_start(out: &mut [u8], h: Header, kind: u8, size: u16)
    requires { (h.transport < 16) × (kind < 16) × (20 ≤ length out.old) }
    ensures { out.new ≡ over out.old 0 (start_octets h kind size) }
{
    stores::one(out, 0, h.transport * 16 + kind);
    stores::one(out, 1, VERSION);
    stores::two(out, 2, size as u64);
    stores::one(out, 4, h.domain);
    stores::one(out, 5, RESERVED);
    stores::two(out, 6, h.flags as u64);
}

// Octets 0 to 19 of a header.
pub fn put_lead(out: &mut [u8], h: Header, kind: u8, size: u16)
    requires { (h.transport < 16) × (kind < 16) × (20 ≤ length out.old) }
    ensures { out.new ≡ over out.old 0 (lead_octets h kind size []) }
{
    put_start(out, h, kind, size);
    stores::eight(out, 8, h.correction.cast_unsigned());
    stores::four(out, 16, 0);
}

// Octets 30 to 33 of a header.
pub fn put_close(out: &mut [u8], h: Header, control: u8)
    requires { 34 ≤ length out.old }
    ensures { out.new ≡ over out.old 30 (close_octets h control []) }
{
    stores::two(out, 30, h.sequence as u64);
    stores::one(out, 32, control);
    stores::one(out, 33, h.interval.cast_unsigned());
}

// Octets 44 to 49 of an Announce.
fn put_offset(out: &mut [u8], a: Announce)
    requires { 64 ≤ length out.old }
    ensures { out.new ≡ over out.old 44 (offset_octets a) }
{
    stores::two(out, 44, a.utc.cast_unsigned() as u64);
    stores::one(out, 46, RESERVED);
    stores::one(out, 47, a.priority1);
    stores::one(out, 48, a.class);
    stores::one(out, 49, a.accuracy);
}

// Octets 50 to 63 of an Announce.
fn put_grandmaster(out: &mut [u8], a: Announce)
    requires { 64 ≤ length out.old }
    ensures { out.new ≡ over out.old 50 (grandmaster_octets a) }
{
    stores::two(out, 50, a.variance as u64);
    stores::one(out, 52, a.priority2);
    stores::eight(out, 53, a.grandmaster);
    stores::two(out, 61, a.steps as u64);
    stores::one(out, 63, a.timesource);
}

// Octets 44 to 63 of an Announce.
pub fn put_announce(out: &mut [u8], a: Announce)
    requires { 64 ≤ length out.old }
    ensures { out.new ≡ over out.old 44 (announce_octets a []) }
{
    put_offset(out, a);
    put_grandmaster(out, a);
}

// The header of a message of `size` octets goes into the buffer.
pub fn put_header(out: &mut [u8], h: Header, b: Body, size: u16)
    requires { (h.transport < 16) × (34 ≤ length out.old) }
    ensures { out.new ≡ over out.old 0 (header_octets h b size []) }
{
    put_lead(out, h, kind_of(b), size);
    put_identity(out, 20, h.source);
    put_close(out, h, control_of(b));
}

// Octets 34 to 43: the timestamp, in a Signaling the target.
fn put_first(out: &mut [u8], b: Body)
    requires { 44 ≤ length out.old }
    ensures { out.new ≡ over out.old 34 (first_octets b []) }
{
    match b {
        Body::Sync(t) | Body::DelayReq(t) | Body::FollowUp(t) => put_stamp(out, t),
        Body::DelayResp(r) => put_stamp(out, r.receive),
        Body::Announce(a) => put_stamp(out, a.origin),
        Body::Signaling(p) => put_identity(out, 34, p),
    }
}

// What a Delay_Resp and an Announce have from octet 44 on goes into the buffer.
fn put_more(out: &mut [u8], b: Body)
    requires { size_of b ≤ length out.old }
    ensures { out.new ≡ over out.old 44 (more_octets b []) }
{
    match b {
        Body::DelayResp(r) => put_identity(out, 44, r.requester),
        Body::Announce(a) => put_announce(out, a),
        Body::Sync(_) | Body::DelayReq(_) | Body::FollowUp(_) | Body::Signaling(_) => {}
    }
}

// What stands behind the header goes into the buffer.
pub fn put_body(out: &mut [u8], b: Body)
    requires { size_of b ≤ length out.old }
    ensures { out.new ≡ over out.old 34 (body_octets b []) }
{
    put_first(out, b);
    put_more(out, b);
}
