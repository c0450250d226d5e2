#![tactic(auto)]
// A trace written as a capture file, in the one form that we write: nanoseconds, the highest octet first. A whole trace goes into octets that are lent; or a
// writer that streams writes the head, and then the packets of one block after another.
//
// Refused in this order: 20 (a block that replay refuses), 22 (records of two ports, or a time of 2^32 seconds or more), 16 (too little room). Then nothing
// that was lent has changed. What the messages say is left to others.
ghost use Rattle.std.specs.Prelude.{◌≡◌, true, ◌&&◌, [], ◌∷◌, ◌+◌, ◌/◌, ◌≤◌, eqb, ltb, length};
ghost use Rattle.refusal.specs.Choice.{pick};
ghost use Rattle.refusal.specs.Limits.{second_nanos};
ghost use Rattle.stores.specs.Stores.{over};
ghost use Rattle.block.specs.Layout.{entries_of};
ghost use Rattle.judging.specs.Tests.{is_laid};
ghost use Rattle.playback.specs.Playback.{is_trace};
ghost use Rattle.pcap.specs.Written.{packet_in, head_in, our_form, our_fields};
ghost use Rattle.exporting.specs.Exporting.{packet_for, heads_of, packets_of, capture_of, port_of, weight_of, records_of, export_of, out_after_export, export_block_of, reader_behind, packets_behind};

use judging::Reader;
use judging::records::Records;
use pcap::{FRAME, PTP};
use refusal::Refusal;

// The octets of a packet before the message of its frame.
const BEFORE: usize = pcap::PACKET + FRAME;

// The seconds that a capture's time has no place for.
const SECONDS: u64 = 4_294_967_296;

// What a writer keeps from block to block: a reader's two words, and the port of the records so far. Zeroed, nothing was read.
pub const WORDS: usize = 3;

// The octets that the packets of one block have at most: those of 45 records, which are all 496 that a block has for them, and 19 more for each.
pub const MOST: usize = 1351;

// Writes the head of a capture.
pub fn put_head(out: &mut [u8])
    requires { 24 ≤ length out.old }
    ensures { out.new ≡ over out.old 0 (head_in our_form our_fields []) }
{
    stores::four(out, 0, 0xa1b23c4d);
    stores::four(out, 4, 0x0002_0004);
    stores::eight(out, 8, 0);
    stores::four(out, 16, 65535);
    stores::four(out, 20, 1);
}

// Writes the head of a packet whose frame has n octets, and that frame's own head.
fn put_heads(out: &mut [u8], at: usize, t: u64, n: u64)
    requires { at + 30 ≤ length out.old }
    ensures { out.new ≡ over out.old at (heads_of t n) }
{
    let second = refusal::SECOND_NANOS as u64;
    stores::four(out, at, t / second);
    stores::four(out, at + 4, t % second);
    stores::four(out, at + 8, n);
    stores::four(out, at + 12, n);
    stores::eight(out, at + 16, 0);
    stores::six(out, at + 24, PTP as u64);
}

// Writes a packet.
fn put_packet(out: &mut [u8], at: usize, t: u64, message: &[u8])
    requires { at + (30 + length message.now) ≤ length out.old }
    ensures { out.new ≡ over out.old at (packet_in our_form (packet_for t message.now) []) }
{
    put_heads(out, at, t, (FRAME + message.len()) as u64);
    stores::copy_in(out, at + BEFORE, message);
}

// Whether a record is of the port that is written, and its seconds have a place.
fn is_writable(t: u64, its: u8, port: u64) -> bool
    ensures { result ≡ (eqb its port && ltb (t / second_nanos) 4294967296) }
{
    (u64::from(its) == port) & (t < SECONDS * refusal::SECOND_NANOS as u64)
}

// The octets of the packets of a block whose layout is right, where all its records can be written.
fn weigh(s: &[u8], port: u64) -> Option<usize>
    requires { is_laid s.now ≡ true }
    ensures { result ≡ weight_of port (entries_of s.now) }
{
    let mut total = 0;
    for r in Records::of(s) {
        if !is_writable(r.time, r.port, port) {
            return None;
        }
        total += BEFORE + r.message.len();
    }
    Some(total)
}

// Writes the packets of a block whose layout is right, from an octet on: where they end.
fn put_records(out: &mut [u8], from: usize, s: &[u8]) -> usize
    requires { (is_laid s.now ≡ true) × (from + length (packets_of (entries_of s.now)) ≤ length out.old) }
    ensures end { result ≡ from + length (packets_of (entries_of s.now)) }
    ensures octets { out.new ≡ over out.old from (packets_of (entries_of s.now)) }
{
    let mut to = from;
    for r in Records::of(s) {
        put_packet(out, to, r.time, r.message);
        to += BEFORE + r.message.len();
    }
    to
}

// The port of a trace's first record, 0 where it has none: the exporter's third word in the C interface, and the definition `port_of`, say it so.
fn first_port(trace: &[u8]) -> u64
    requires { is_trace trace.now ≡ true }
    ensures { result ≡ port_of (records_of trace.now) }
{
    if trace.is_empty() {
        return 0;
    }
    u64::from(judging::port_at(trace, block::RECORDS))
}

// The octets of the packets of a trace, where all its records can be written.
fn weigh_all(trace: &[u8]) -> Option<usize>
    requires { is_trace trace.now ≡ true }
    ensures { result ≡ weight_of (port_of (records_of trace.now)) (records_of trace.now) }
{
    let port = first_port(trace);
    let mut total = 0;
    for s in trace.chunks(block::OCTETS) {
        total += weigh(s, port)?;
    }
    Some(total)
}

// Writes a trace that was looked at: the head, and the packets of all blocks.
fn put_all(out: &mut [u8], trace: &[u8])
    requires { (is_trace trace.now ≡ true) × (length (capture_of (records_of trace.now)) ≤ length out.old) }
    ensures { out.new ≡ over out.old 0 (capture_of (records_of trace.now)) }
{
    put_head(out);
    let mut to = pcap::HEAD;
    for s in trace.chunks(block::OCTETS) {
        to = put_records(out, to, s);
    }
}

// Writes a whole trace as a capture, or refuses it: how many octets that has.
pub fn export(out: &mut [u8], trace: &[u8]) -> Result<usize, Refusal>
    ensures answer { result ≡ export_of (length out.old) trace.now }
    ensures octets { out.new ≡ out_after_export out.old trace.now }
{
    playback::judged(trace)?;
    let n = weigh_all(trace).ok_or(Refusal::Export)?;
    if out.len() < pcap::HEAD + n {
        return Err(Refusal::Room);
    }
    put_all(out, trace);
    Ok(pcap::HEAD + n)
}

// The port of the records before a block whose layout is right, or of its first one where there are none.
fn port_behind(before: u64, s: &[u8]) -> u64
    requires { is_laid s.now ≡ true }
    ensures { result ≡ pick (eqb before 0) (port_of (entries_of s.now)) before }
{
    if before == 0 {
        return u64::from(judging::port_at(s, block::RECORDS));
    }
    before
}

// Writes the packets of a block behind those that were read, or refuses it: how many octets they have.
pub fn export_block(
    words: &mut [u64; WORDS],
    s: &[u8],
    out: &mut [u8; MOST],
) -> Result<usize, Refusal>
    ensures answer { result ≡ export_block_of words.old s.now }
    ensures words { words.new ≡ reader_behind words.old s.now }
    ensures octets { out.new ≡ packets_behind words.old out.old s.now }
{
    let [next, last, before] = *words;
    let after = judging::judge(s, Reader { next, last })?;
    let port = port_behind(before, s);
    let n = weigh(s, port).ok_or(Refusal::Export)?;
    put_records(&mut out[..], 0, s);
    *words = [after.next, after.last, port];
    Ok(n)
}
