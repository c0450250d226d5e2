// What White Rabbit's TLVs of a tail say: the first suffix, and the first link message.
ghost use Rattle.std.specs.Prelude.{◌≡◌, ◌+◌, ◌≤◌, length};
ghost use Rattle.tlv.specs.Wr.{suffix_in, link_message_at, link_in};

use tlv::form::{CALIBRATE, CALIBRATED, LOCK, LOCKED, SLAVE_PRESENT};
use tlv::walk::Sought;
use tlv::wr::LinkMessage;

// The first ANN_SUFIX of a tail.
pub fn first_suffix(t: &[u8], magic: u16) -> Option<u16>
    ensures { result ≡ suffix_in magic t.now }
{
    tlv::wr::suffix_at(t, crate::search::place(t, Sought::Suffix(magic)))
}

// The link message whose TLV stands at `at`, by its number.
fn link_at(t: &[u8], at: usize) -> LinkMessage
    requires { at + 12 ≤ length t.now }
    ensures { result ≡ link_message_at t.now at }
{
    let number = octets::held::u16_at(t, at + 10);
    match number {
        SLAVE_PRESENT => LinkMessage::SlavePresent,
        LOCK => LinkMessage::Lock,
        LOCKED => LinkMessage::Locked,
        CALIBRATE => LinkMessage::Calibrate {
            pattern: octets::octet_at(t, at + 12),
            retry: octets::octet_at(t, at + 13),
            period: octets::u32_at(t, at + 14),
        },
        CALIBRATED => LinkMessage::Calibrated {
            tx: octets::u64_at(t, at + 12),
            rx: octets::u64_at(t, at + 20),
        },
        _ => LinkMessage::ModeOn,
    }
}

// The first link message of a tail.
pub fn first_link(t: &[u8], magic: u16) -> Option<LinkMessage>
    ensures { result ≡ link_in magic t.now }
{
    let p = crate::search::place(t, Sought::Link(magic));
    if p < t.len() {
        return Some(link_at(t, p));
    }
    None
}
