#![tactic(auto)]
// A capture file read piece by piece: the form that its head tells, and what the head of a packet says, put into words that are lent. The number returned is 0,
// or that of the refusal, 21, and then the words are as they were.
ghost use Rattle.std.specs.Prelude.{◌≡◌, not, ◌&&◌, eqb};
ghost use Rattle.refusal.specs.Refusal.{code_of};
ghost use Rattle.pcap.specs.File.{is_packet_head};
ghost use Rattle.capture_words.specs.Captures.{form_words, unit_by, form_by, head_check, form_after, packet_check, packet_after};

use pcap::Form;
use refusal::Refusal;

// A form in words: 1 where the lowest octet of a number comes first, and the nanoseconds of a count.
pub const FORM: usize = 2;

// A packet in words: its time, and the octets of its frame.
pub const PACKET: usize = 2;

fn words_of(form: Form) -> [u64; FORM]
    ensures { result ≡ form_words form }
{
    [u64::from(form.little), u64::from(form.unit)]
}

// The unit that a word tells, 0 where it is none.
fn unit_by(word: u64) -> u16
    ensures { result ≡ unit_by word }
{
    match word {
        1000 => 1000,
        1 => 1,
        _ => 0,
    }
}

fn form_by(words: &[u64; FORM]) -> Form
    ensures { result ≡ form_by words.now }
{
    Form {
        little: words[0] != 0,
        unit: unit_by(words[1]),
    }
}

// The form that the head of a file tells.
pub fn put_form(form: &mut [u64; FORM], head: &[u8; pcap::HEAD]) -> u64
    ensures answer { result ≡ code_of (head_check head.now) }
    ensures words { form.new ≡ form_after form.old head.now }
{
    let is = pcap::form_of(&head[..]);
    if !pcap::is_head(is, &head[..]) {
        return refusal::code(Err(Refusal::Pcap));
    }
    *form = words_of(is);
    0
}

// Whether the head of a packet is sound, in a form that is one.
fn is_sound(is: Form, head: &[u8; pcap::PACKET]) -> bool
    ensures { result ≡ (not (eqb is.unit 0) && is_packet_head is head.now) }
{
    is.unit != 0 && pcap::is_packet_head(is, &head[..])
}

// What the head of a packet says, in a file of a form.
pub fn put_packet(packet: &mut [u64; PACKET], form: &[u64; FORM], head: &[u8; pcap::PACKET]) -> u64
    ensures answer { result ≡ code_of (packet_check form.now head.now) }
    ensures words { packet.new ≡ packet_after form.now packet.old head.now }
{
    let is = form_by(form);
    if !is_sound(is, head) {
        return refusal::code(Err(Refusal::Pcap));
    }
    let t = pcap::time(is, &head[..]);
    let stored = pcap::stored(is, &head[..]);
    *packet = [t, u64::from(stored)];
    0
}
