// A message put into its twenty words straight from octets that have been checked. Each word is stored before the next is
// read: twenty words that are first put together by value do not fit into registers.
ghost use Rattle.std.specs.Prelude.{◌≡◌, ◌++◌, ◌≤◌, length, take, drop};
ghost use Rattle.message.specs.Fields.{type_of, fixed_size, identity_at, stamp_of, header_of, announce_of, body_of, message_of};
ghost use Rattle.message_words.specs.Words.{pair_words, announce_words, resp_words, body_words, message_words};
ghost use Rattle.message_words.specs.Reading.{head_words};

use message::fields::{ANNOUNCE, DELAY_REQ, DELAY_RESP, FOLLOW_UP, SYNC};

// The type and the header, in the first nine words.
fn put_header(out: &mut [u64; 20], s: &[u8])
    requires { 34 ≤ length s.now }
    ensures { out.new ≡ head_words (type_of s.now) (header_of s.now) (drop 9 out.old) }
{
    out[0] = (s[0] % 16) as u64;
    out[1] = (s[0] / 16) as u64;
    out[2] = s[4] as u64;
    out[3] = octets::held::u16_at(s, 6) as u64;
    out[4] = octets::held::u64_at(s, 8);
    out[5] = octets::held::u64_at(s, 20);
    out[6] = octets::held::u16_at(s, 28) as u64;
    out[7] = octets::held::u16_at(s, 30) as u64;
    out[8] = words::word_of_i8(octets::signed8(s[33]));
}

// A body of two numbers.
fn put_pair(out: &mut [u64; 20], a: u64, b: u64)
    ensures { out.new ≡ take 9 out.old ++ pair_words a b }
{
    out[9] = a;
    out[10] = b;
    out[11] = 0;
    out[12] = 0;
    out[13] = 0;
    out[14] = 0;
    out[15] = 0;
    out[16] = 0;
    out[17] = 0;
    out[18] = 0;
    out[19] = 0;
}

// The timestamp of a Sync, a Delay_Req or a Follow_Up.
fn put_stamp(out: &mut [u64; 20], s: &[u8])
    requires { 44 ≤ length s.now }
    ensures { out.new ≡ take 9 out.old ++ pair_words (stamp_of s.now).seconds (stamp_of s.now).nanoseconds }
{
    put_pair(
        out,
        octets::held::u48_at(s, 34),
        octets::held::u32_at(s, 40) as u64,
    );
}

// The target of a Signaling.
fn put_target(out: &mut [u64; 20], s: &[u8])
    requires { 44 ≤ length s.now }
    ensures { out.new ≡ take 9 out.old ++ pair_words (identity_at s.now 34).clock (identity_at s.now 34).port }
{
    put_pair(
        out,
        octets::held::u64_at(s, 34),
        octets::held::u16_at(s, 42) as u64,
    );
}

// The body of a Delay_Resp: what a stamp has, and the requester.
fn put_resp(out: &mut [u64; 20], s: &[u8])
    requires { 54 ≤ length s.now }
    ensures { out.new ≡ take 9 out.old ++ resp_words (record { receive = stamp_of s.now; requester = identity_at s.now 44 }) }
{
    put_stamp(out, s);
    out[11] = octets::held::u64_at(s, 44);
    out[12] = octets::held::u16_at(s, 52) as u64;
}

// The body of an Announce.
fn put_announce(out: &mut [u64; 20], s: &[u8])
    requires { 64 ≤ length s.now }
    ensures { out.new ≡ take 9 out.old ++ announce_words (announce_of s.now) }
{
    out[9] = octets::held::u48_at(s, 34);
    out[10] = octets::held::u32_at(s, 40) as u64;
    out[11] = words::word_of_i16(octets::signed16(octets::held::u16_at(s, 44)));
    out[12] = s[47] as u64;
    out[13] = s[48] as u64;
    out[14] = s[49] as u64;
    out[15] = octets::held::u16_at(s, 50) as u64;
    out[16] = s[52] as u64;
    out[17] = octets::held::u64_at(s, 53);
    out[18] = octets::held::u16_at(s, 61) as u64;
    out[19] = s[63] as u64;
}

// The body by the type, behind the first nine words.
fn put_body(out: &mut [u64; 20], s: &[u8])
    requires { (44 ≤ length s.now) × (fixed_size (type_of s.now) ≤ length s.now) }
    ensures { out.new ≡ take 9 out.old ++ body_words (body_of s.now) }
{
    let kind = s[0] % 16;
    match kind {
        SYNC => put_stamp(out, s),
        DELAY_REQ => put_stamp(out, s),
        FOLLOW_UP => put_stamp(out, s),
        DELAY_RESP => put_resp(out, s),
        ANNOUNCE => put_announce(out, s),
        _ => put_target(out, s),
    }
}

// A message of a listed type whose fixed part is there, in twenty words.
pub fn put_message(out: &mut [u64; 20], s: &[u8])
    requires fact { fixed_size (type_of s.now) ≡ 0 → ⊥ }
    requires s_in_bounds { fixed_size (type_of s.now) ≤ length s.now }
    ensures { out.new ≡ message_words (message_of s.now) }
{
    put_header(out, s);
    put_body(out, s);
}
