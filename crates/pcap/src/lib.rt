#![tactic(auto)]
// Classic capture files: a head of 24 octets, and packets one behind the other, each a head of 16 octets and a frame. There are four forms, by the order of a
// number's octets and by the unit of a time's fraction; everything here is said over both.
//
// Nothing is refused here by a number: whether a file is a capture is told, and the callers refuse. What the frames say is left to others. Zone, accuracy
// and snapshot length are not looked at.
ghost use Rattle.std.specs.Prelude.{◌≡◌, ◌&&◌, ◌+◌, ◌^◌, ◌≤◌, ◌<◌, length};
ghost use Rattle.pcap.specs.Form.{low, number_at, unit_under, form_of};
ghost use Rattle.pcap.specs.File.{is_head, is_ethernet, fraction_of, stored_of, size_of, time_of, is_packet_head, is_packet, rests_of, are_packets, is_capture};

// The octets of a file's head, and of a packet's.
pub const HEAD: usize = 24;

pub const PACKET: usize = 16;

// The octets of an Ethernet frame before its message, two addresses and the EtherType, and the EtherType of PTP.
pub const FRAME: usize = 14;

pub const PTP: u16 = 0x88F7;

// A form: whether the lowest octet of a number comes first, and the nanoseconds of one count of a fraction, 0 where the file's first octets are no magic.
// The unit is no Option: `specs/Form.antt: unit_under` says 0, and so do the witnesses and the words of C.
#[derive(Clone, Copy)]
pub struct Form {
    pub little: bool,
    pub unit: u16,
}

// Two octets, the lowest first.
#[tactic(auto, unfolding(crate::specs::Form::low))]
fn low2(s: &[u8], at: usize) -> u16
    requires { at + 2 ≤ length s.now }
    ensures { result ≡ low 2 s.now at }
{
    u16::from_le_bytes([s[at], s[at + 1]])
}

// Four octets, the lowest first.
#[tactic(auto, unfolding(crate::specs::Form::low))]
fn low4(s: &[u8], at: usize) -> u32
    requires { at + 4 ≤ length s.now }
    ensures { result ≡ low 4 s.now at }
{
    u32::from_le_bytes([s[at], s[at + 1], s[at + 2], s[at + 3]])
}

// A number of two octets, as the form has it, and one of four.
fn two(form: Form, s: &[u8], at: usize) -> u16
    requires { at + 2 ≤ length s.now }
    ensures { result ≡ number_at form 2 s.now at }
{
    if form.little {
        low2(s, at)
    } else {
        octets::held::u16_at(s, at)
    }
}

fn four(form: Form, s: &[u8], at: usize) -> u32
    requires { at + 4 ≤ length s.now }
    ensures { result ≡ number_at form 4 s.now at }
{
    if form.little {
        low4(s, at)
    } else {
        octets::held::u32_at(s, at)
    }
}

// The nanoseconds of one count under a magic, 0 under any other number.
fn unit_under(magic: u32) -> u16
    ensures { result ≡ unit_under magic }
{
    match magic {
        0xa1b2c3d4 => 1000,
        0xa1b23c4d => 1,
        _ => 0,
    }
}

// The form that the first four octets tell.
pub fn form_of(s: &[u8]) -> Form
    requires { 4 ≤ length s.now }
    ensures { result ≡ form_of s.now }
{
    let big = unit_under(octets::held::u32_at(s, 0));
    if big == 0 {
        Form {
            little: true,
            unit: unit_under(low4(s, 0)),
        }
    } else {
        Form {
            little: false,
            unit: big,
        }
    }
}

// Whether a head is that of a capture of Ethernet frames, in a form.
pub fn is_head(form: Form, s: &[u8]) -> bool
    requires { 24 ≤ length s.now }
    ensures { result ≡ (is_head form s.now && is_ethernet form s.now) }
{
    let unit = form.unit;
    let major = two(form, s, 4);
    let minor = two(form, s, 6);
    let link = four(form, s, 20);
    ((unit != 0) & ((major == 2) & (minor == 4))) & (link == 1)
}

// The octets that are stored of the frame of the packet with which s begins.
pub fn stored(form: Form, s: &[u8]) -> u32
    requires { 16 ≤ length s.now }
    ensures { result ≡ stored_of form s.now }
{
    four(form, s, 8)
}

// The octets of the packet itself.
pub fn size(form: Form, s: &[u8]) -> usize
    requires { 16 ≤ length s.now }
    ensures { result ≡ size_of form s.now }
{
    PACKET + stored(form, s) as usize
}

// The nanoseconds of its fraction.
fn fraction(form: Form, s: &[u8]) -> u64
    requires { 16 ≤ length s.now }
    ensures { (result ≡ fraction_of form s.now) × (result < 2 ^ 48) }
{
    let unit = form.unit;
    four(form, s, 4) as u64 * unit as u64
}

// Its time, in nanoseconds.
pub fn time(form: Form, s: &[u8]) -> u64
    requires { 16 ≤ length s.now }
    ensures { result ≡ time_of form s.now }
{
    four(form, s, 0) as u64 * refusal::SECOND_NANOS as u64 + fraction(form, s)
}

// Whether the head of a packet is sound: its fraction below a second, its frame stored whole.
pub fn is_packet_head(form: Form, s: &[u8]) -> bool
    requires { 16 ≤ length s.now }
    ensures { result ≡ is_packet_head form s.now }
{
    let kept = stored(form, s);
    let original = four(form, s, 12);
    let parts = fraction(form, s);
    (parts < refusal::SECOND_NANOS as u64) & (original <= kept)
}

// Whether s begins with a sound packet, whose frame ends inside s.
pub fn is_packet(form: Form, s: &[u8]) -> bool
    ensures { result ≡ is_packet form s.now }
{
    if s.len() < PACKET {
        return false;
    }
    let sound = is_packet_head(form, s);
    let end = size(form, s);
    sound & (end <= s.len())
}

// Whether sound packets follow one behind the other, to the end.
fn are_packets(form: Form, s: &[u8]) -> bool
    ensures { result ≡ are_packets form (rests_of form s.now) }
{
    let mut at = 0;
    // The loop stays: its step is read from the packet, so there is no range to go over.
    while at < s.len() {
        let rest = &s[at..];
        if !is_packet(form, rest) {
            return false;
        }
        at += size(form, rest);
    }
    true
}

// Whether a file is a capture, everything in it looked at.
pub fn is_capture(file: &[u8]) -> bool
    ensures { result ≡ is_capture file.now }
{
    if file.len() < HEAD {
        return false;
    }
    let form = form_of(file);
    if !is_head(form, file) {
        return false;
    }
    are_packets(form, &file[HEAD..])
}
