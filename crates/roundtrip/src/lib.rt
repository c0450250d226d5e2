#![tactic(auto)]
// What was written is read, and what was read is written again: theorems over the readers of `message` and the writers
// of `writer`, in proofs/.
//
// The functions here write and read back. Their contracts are the round trip without an assumption: what a field can
// hold is said by its type.
ghost use Rattle.std.specs.Prelude.{◌≡◌, length};
ghost use Rattle.message.specs.Reading.{by};
ghost use Rattle.writer.specs.Writing.{write_check, buffer_of};
ghost use Rattle.wr_tlvs.specs.Built.{link_octets, signaling};

use identity::PortIdentity;
use message::fields::{Header, Message};
use refusal::Refusal;
use tlv::wr::LinkMessage;

// A message written and read again: it comes back as it was, or with the number that refused to write it.
pub fn again(out: &mut [u8], m: Message, tail: &[u8], magic: u16) -> Result<Message, Refusal>
    ensures answer { result ≡ by (write_check magic m tail.now (length out.old)) Err (Ok m) }
    ensures buffer { out.new ≡ buffer_of magic m tail.now out.old }
{
    writer::writing::write(out, m, tail, magic)?;
    contents::whole::read(&out[..], magic)
}

// A link message sent in a Signaling and read again.
pub fn link_again(
    out: &mut [u8],
    header: Header,
    target: PortIdentity,
    x: LinkMessage,
    magic: u16,
) -> Result<Option<LinkMessage>, Refusal>
    ensures answer { result ≡ by (write_check magic (signaling header target) (link_octets magic x) (length out.old)) Err (Ok (Some x)) }
    ensures buffer { out.new ≡ buffer_of magic (signaling header target) (link_octets magic x) out.old }
{
    wr_tlvs::write_link(out, header, target, x, magic)?;
    contents::parts::link_message(&out[..], magic)
}
