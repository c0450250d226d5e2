#![tactic(auto)]
// White Rabbit's messages, built: the TLVs of the six link messages and the suffix of an Announce, ready to be a tail,
// and a Signaling with one link message in one call.
//
// A TLV is handed back by value, with how many of its octets are the tail. The magic is the set one. Nothing is refused
// here but what `writer` refuses.
ghost use Rattle.std.specs.Prelude.{◌≡◌, ◌+◌, ◌≤◌, ◌∷◌};
ghost use Rattle.octets.specs.Be.{octets_of};
ghost use Rattle.writer.specs.Writing.{write_of, buffer_of};
ghost use Rattle.wr_tlvs.specs.Built.{wr_octets, zeros, suffix_tlv, link_tlv, link_octets, signaling};

use identity::PortIdentity;
use message::fields::{Body, Header, Message};
use refusal::Refusal;
use tlv::form::{ANN_SUFIX, CALIBRATE, CALIBRATED, LOCK, LOCKED, MODE_ON, SLAVE_PRESENT};
use tlv::wr::LinkMessage;

mod digits;

// A TLV: the first `size` of its octets, the rest zero. The largest, CALIBRATED, has all 28. A size stands beside the octets, as there is no heap and
// the definitions `suffix_tlv` and `link_tlv` name both.
#[derive(Clone, Copy)]
pub struct WrTlv {
    pub octets: [u8; 28],
    pub size: usize,
}

// The TLV of a message by its number, with n octets of data.
fn built(number: u16, n: u16, content: [u8; 16], magic: u16) -> WrTlv
    requires { n ≤ 16 }
    ensures { result ≡ record { octets = wr_octets magic number n content; size = 12 + n } }
{
    let f = tlv::form::wr_form(magic);
    let mut octets = [0; 28];
    octets[..2].copy_from_slice(&digits::two(f.kind));
    octets[2..4].copy_from_slice(&digits::two(8 + n));
    octets[4..10].copy_from_slice(&digits::six(f.six));
    octets[10..12].copy_from_slice(&digits::two(number));
    octets[12..].copy_from_slice(&content);
    WrTlv {
        octets,
        size: 12 + n as usize,
    }
}

// A message without data.
fn bare(number: u16, magic: u16) -> WrTlv
    ensures { result ≡ record { octets = wr_octets magic number 0 (zeros 16); size = 12 } }
{
    built(number, 0, [0; 16], magic)
}

// The data of a CALIBRATE.
fn calibrate_data(pattern: u8, retry: u8, period: u32) -> [u8; 16]
    ensures { result ≡ pattern ∷ retry ∷ octets_of 4 period (zeros 10) }
{
    let [a, b, c, d] = digits::four(period);
    [pattern, retry, a, b, c, d, 0, 0, 0, 0, 0, 0, 0, 0, 0, 0]
}

// The data of a CALIBRATED.
fn calibrated_data(tx: u64, rx: u64) -> [u8; 16]
    ensures { result ≡ octets_of 8 tx (octets_of 8 rx (zeros 0)) }
{
    let mut both = [0; 16];
    both[..8].copy_from_slice(&digits::eight(tx));
    both[8..].copy_from_slice(&digits::eight(rx));
    both
}

// The suffix of an Announce. Of wrFlags the four bits that mean something are written; the reserved ones are zero.
pub fn suffix(flags: u16, magic: u16) -> WrTlv
    ensures { result ≡ suffix_tlv magic flags }
{
    let [high, low] = digits::two(flags % 16);
    let content = [high, low, 0, 0, 0, 0, 0, 0, 0, 0, 0, 0, 0, 0, 0, 0];
    built(ANN_SUFIX, 2, content, magic)
}

// The TLV of a link message.
pub fn link(x: LinkMessage, magic: u16) -> WrTlv
    ensures { result ≡ link_tlv magic x }
{
    match x {
        LinkMessage::SlavePresent => bare(SLAVE_PRESENT, magic),
        LinkMessage::Lock => bare(LOCK, magic),
        LinkMessage::Locked => bare(LOCKED, magic),
        LinkMessage::Calibrate {
            pattern,
            retry,
            period,
        } => built(CALIBRATE, 6, calibrate_data(pattern, retry, period), magic),
        LinkMessage::Calibrated { tx, rx } => built(CALIBRATED, 16, calibrated_data(tx, rx), magic),
        LinkMessage::ModeOn => bare(MODE_ON, magic),
    }
}

// A Signaling with one link message goes into the buffer.
pub fn write_link(
    out: &mut [u8],
    header: Header,
    target: PortIdentity,
    x: LinkMessage,
    magic: u16,
) -> Result<usize, Refusal>
    ensures answer { result ≡ write_of magic (signaling header target) (link_octets magic x) out.old }
    ensures buffer { out.new ≡ buffer_of magic (signaling header target) (link_octets magic x) out.old }
{
    let WrTlv { octets, size } = link(x, magic);
    let body = Body::Signaling(target);
    writer::writing::write(out, Message { header, body }, &octets[..size], magic)
}
