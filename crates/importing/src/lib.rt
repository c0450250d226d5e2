#![tactic(auto)]
// A capture file read into a trace: its PTP frames are recorded, without their 14-octet heads, in order, on one port. Other frames, and those that have no
// whole head, are passed over. A whole file goes into octets that are lent; or a reader that streams hands in one frame after another.
//
// Refused in this order: 21 (the file is no capture, looked at whole), 8 (a port outside 1 to 18), what recording gives the first frame that it refuses
// (19, 11, 17), 16 (too little room). Then nothing that was lent has changed. What the messages say is left to others.
ghost use Rattle.std.specs.Prelude.{◌≡◌, true, ◌+◌, ◌≤◌, length};
ghost use Rattle.stores.specs.Stores.{over};
ghost use Rattle.pcap.specs.File.{is_capture_in, frames_in};
ghost use Rattle.importing.specs.Importing.{is_ptp, frame_check, frame_recorded, open_behind, words_behind, out_behind, taken_of, trace_by, weight_of, came_out, last_out, import_of, out_after_import};

use pcap::{FRAME, Form, PTP};
use refusal::Refusal;

// Whether a frame holds a PTP message.
#[tactic(auto, unfolding(crate::specs::Importing::is_ptp))]
fn is_ptp(frame: &[u8]) -> bool
    ensures { result ≡ is_ptp frame.now }
{
    FRAME <= frame.len() && octets::held::u16_at(frame, 12) == PTP
}

// Whether recording would take a frame, and the recording's words behind it; no octet is recorded.
fn foresee(
    words: &mut [u64; recording::WORDS],
    port: u8,
    t: u64,
    frame: &[u8],
) -> Result<(), Refusal>
    ensures answer { result ≡ frame_check words.old port (record { time = t; octets = frame.now }) }
    ensures words { words.new ≡ words_behind words.old port (record { time = t; octets = frame.now }) }
{
    if !is_ptp(frame) {
        return Ok(());
    }
    recording::foresee(words, port, t, &frame[FRAME..])
}

// Records the message of a frame, or passes the frame over. Where that closes a block, `out` has it.
pub fn keep(
    opened: &mut [u8; block::OCTETS],
    words: &mut [u64; recording::WORDS],
    port: u8,
    t: u64,
    frame: &[u8],
    out: &mut [u8; block::OCTETS],
) -> Result<bool, Refusal>
    ensures answer { result ≡ frame_recorded words.old port (record { time = t; octets = frame.now }) }
    ensures block { opened.new ≡ open_behind opened.old words.old port (record { time = t; octets = frame.now }) }
    ensures words { words.new ≡ words_behind words.old port (record { time = t; octets = frame.now }) }
    ensures octets { out.new ≡ out_behind opened.old words.old port (record { time = t; octets = frame.now }) out.old }
{
    if !is_ptp(frame) {
        return Ok(false);
    }
    recording::record(opened, words, port, t, &frame[FRAME..], out)
}

// How many blocks the frames of a capture come to, looked at one after another.
fn weigh(file: &[u8], form: Form, port: u8) -> Result<u64, Refusal>
    requires { is_capture_in form file.now ≡ true }
    ensures { result ≡ weight_of port (frames_in form file.now) }
{
    let mut words: [u64; recording::WORDS] = [0; recording::WORDS];
    let mut at = pcap::HEAD;
    // The loops over packets stay: the next one's place is read from the head of the one before it.
    while at < file.len() {
        let rest = &file[at..];
        let t = pcap::time(form, rest);
        let size = pcap::size(form, rest);
        foresee(&mut words, port, t, &rest[pcap::PACKET..size])?;
        at += size;
    }
    Ok(words[0])
}

// A block that came out goes to `to`: where the next goes.
fn store(
    out: &mut [u8],
    to: usize,
    told: Result<bool, Refusal>,
    closed: &[u8; block::OCTETS],
) -> usize
    requires { to + length (came_out told closed.now) ≤ length out.old }
    ensures place { result ≡ to + length (came_out told closed.now) }
    ensures octets { out.new ≡ over out.old to (came_out told closed.now) }
{
    let Ok(true) = told else {
        return to;
    };
    stores::copy_in(out, to, &closed[..]);
    to + block::OCTETS
}

// The open block, closed, goes to `to`, where there is one.
fn finish(out: &mut [u8], to: usize, opened: &[u8; block::OCTETS], words: &[u64; recording::WORDS])
    requires { to + length (last_out opened.now words.now) ≤ length out.old }
    ensures { out.new ≡ over out.old to (last_out opened.now words.now) }
{
    let mut last: [u8; block::OCTETS] = [0; block::OCTETS];
    if recording::finish(opened, words, &mut last) {
        store(out, to, Ok(true), &last);
    }
}

// Records the frames of a capture; the blocks go into `out` one behind the other.
fn fill(out: &mut [u8], file: &[u8], form: Form, port: u8)
    requires { (is_capture_in form file.now ≡ true) × (length (trace_by (taken_of port (frames_in form file.now))) ≤ length out.old) }
    ensures { out.new ≡ over out.old 0 (trace_by (taken_of port (frames_in form file.now))) }
{
    let mut opened: [u8; block::OCTETS] = [0; block::OCTETS];
    let mut words: [u64; recording::WORDS] = [0; recording::WORDS];
    let mut closed: [u8; block::OCTETS] = [0; block::OCTETS];
    let mut at: usize = pcap::HEAD;
    let mut to: usize = 0;
    while at < file.len() {
        let rest = &file[at..];
        let t = pcap::time(form, rest);
        let size = pcap::size(form, rest);
        let told = keep(
            &mut opened,
            &mut words,
            port,
            t,
            &rest[pcap::PACKET..size],
            &mut closed,
        );
        to = store(out, to, told, &closed);
        at += size;
    }
    finish(out, to, &opened, &words);
}

// Reads a capture into a trace on a port, or refuses it: how many octets the trace has.
pub fn import(out: &mut [u8], port: u8, file: &[u8]) -> Result<usize, Refusal>
    ensures answer { result ≡ import_of (length out.old) port file.now }
    ensures octets { out.new ≡ out_after_import out.old port file.now }
{
    if !pcap::is_capture(file) {
        return Err(Refusal::Pcap);
    }
    if !refusal::is_port(port) {
        return Err(Refusal::Port);
    }
    let form = pcap::form_of(file);
    let n = weigh(file, form, port)?;
    if out.len() / block::OCTETS < n as usize {
        return Err(Refusal::Room);
    }
    fill(out, file, form, port);
    Ok(n as usize * block::OCTETS)
}
