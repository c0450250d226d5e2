// What reading answers, put into words that are lent: 0 is returned, or the refusal's number and place, and then the words are
// as they were.
ghost use Rattle.std.specs.Prelude.{◌≡◌, ◌≤◌, length};
ghost use Rattle.message_words.specs.Answers.{tlv_code, tlv_words, walked_code, walked_words, suffix_code, suffix_words, link_message_words, link_code, link_words, data_words, place_words, flags_words, carried_words};
ghost use Rattle.message_words.specs.Reading.{stamp_words};

use contents::tlvs::Tlv;
use refusal::Refusal;
use tlv::wr::LinkMessage;

// A TLV that was looked up: 1, where its data begin in the message and how many octets they are, or zeros.
fn data_words(found: Option<usize>, length: usize) -> [u64; 3]
    ensures { result ≡ data_words found length }
{
    match found {
        Some(at) => [1, at as u64, length as u64],
        None => [0; 3],
    }
}

pub fn put_tlv(out: &mut [u64; 3], x: Result<Option<usize>, Refusal>, length: usize) -> u64
    ensures answer { result ≡ tlv_code x }
    ensures words { out.new ≡ tlv_words x length out.old }
{
    let shown = x.map(
        |found| -> [u64; 3]
            ensures { result ≡ data_words found length }
        { data_words(found, length) },
    );
    words::put(out, shown.map_err(refusal::answer))
}

// A TLV of a message: 1, where it stands, its type, how many octets of data it has, where they begin and where it ends; or zeros.
fn place_words(found: Option<Tlv>) -> [u64; 6]
    ensures { result ≡ place_words found }
{
    let Some(v) = found else {
        return [0; 6];
    };
    let at = u64::from(v.place);
    let n = u64::from(v.length);
    [1, at, u64::from(v.kind), n, at + 4, at + 4 + n]
}

pub fn put_walked(out: &mut [u64; 6], x: Result<Option<Tlv>, Refusal>) -> u64
    ensures answer { result ≡ walked_code x }
    ensures words { out.new ≡ walked_words x out.old }
{
    words::put(out, x.map(place_words).map_err(refusal::answer))
}

// The suffix of an Announce: 1 and wrFlags, or zeros.
fn flags_words(found: Option<u16>) -> [u64; 2]
    ensures { result ≡ flags_words found }
{
    match found {
        Some(flags) => [1, u64::from(flags)],
        None => [0; 2],
    }
}

pub fn put_suffix(out: &mut [u64; 2], x: Result<Option<u16>, Refusal>) -> u64
    ensures answer { result ≡ suffix_code x }
    ensures words { out.new ≡ suffix_words x out.old }
{
    words::put(out, x.map(flags_words).map_err(refusal::answer))
}

// The numbers of link messages as words.
pub const SLAVE_PRESENT: u64 = tlv::form::SLAVE_PRESENT as u64;

pub const LOCK: u64 = tlv::form::LOCK as u64;

pub const LOCKED: u64 = tlv::form::LOCKED as u64;

pub const CALIBRATE: u64 = tlv::form::CALIBRATE as u64;

pub const CALIBRATED: u64 = tlv::form::CALIBRATED as u64;

pub const MODE_ON: u64 = tlv::form::MODE_ON as u64;

// A link message in six words: its number, pattern, retry, period, deltaTx, deltaRx; zeros for those it does not carry.
pub fn link_message_words(m: LinkMessage) -> [u64; 6]
    ensures { result ≡ link_message_words m }
{
    match m {
        LinkMessage::SlavePresent => [SLAVE_PRESENT, 0, 0, 0, 0, 0],
        LinkMessage::Lock => [LOCK, 0, 0, 0, 0, 0],
        LinkMessage::Locked => [LOCKED, 0, 0, 0, 0, 0],
        LinkMessage::Calibrate {
            pattern,
            retry,
            period,
        } => [
            CALIBRATE,
            u64::from(pattern),
            u64::from(retry),
            u64::from(period),
            0,
            0,
        ],
        LinkMessage::Calibrated { tx, rx } => [CALIBRATED, 0, 0, 0, tx, rx],
        LinkMessage::ModeOn => [MODE_ON, 0, 0, 0, 0, 0],
    }
}

// The link message of a Signaling: 1 and its six words, or zeros.
fn carried_words(found: Option<LinkMessage>) -> [u64; 7]
    ensures { result ≡ carried_words found }
{
    let Some(m) = found else {
        return [0; 7];
    };
    let [number, pattern, retry, period, tx, rx] = link_message_words(m);
    [1, number, pattern, retry, period, tx, rx]
}

pub fn put_link(out: &mut [u64; 7], x: Result<Option<LinkMessage>, Refusal>) -> u64
    ensures answer { result ≡ link_code x }
    ensures words { out.new ≡ link_words x out.old }
{
    words::put(out, x.map(carried_words).map_err(refusal::answer))
}

// An origin time: the seconds and the nanoseconds of its ten octets.
pub fn put_origin(out: &mut [u64; 2], stamp: &[u8])
    requires { 10 ≤ length stamp.now }
    ensures { out.new ≡ stamp_words stamp.now }
{
    let seconds = octets::held::u48_at(stamp, 0);
    let nanoseconds = octets::held::u32_at(stamp, 6);
    *out = [seconds, u64::from(nanoseconds)];
}
