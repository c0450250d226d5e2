// The message of twenty words, checked and written straight out of them: what `writer` answers of the message that is read out
// of the words, with no message made.
ghost use Rattle.std.specs.Prelude.{◌≡◌, [], ◌≤◌, ◌<◌, length};
ghost use Rattle.stores.specs.Stores.{over};
ghost use Rattle.layout.specs.Layout.{kind_of, control_of, size_of, header_octets, body_octets};
ghost use Rattle.writer.specs.Writing.{stamp_fits, body_fits, write_check, write_of, buffer_of};
ghost use Rattle.message_words.specs.Words.{stamp_of, header_of, body_of, message_of};

use refusal::Refusal;

// The nanoseconds of a second, as a word.
const NANOS: u64 = refusal::SECOND_NANOS as u64;

// The type of the message.
fn kind_of(w: &[u64; 20]) -> u8
    ensures { result ≡ kind_of (body_of w.now) }
{
    let kind = w[0];
    match kind {
        0x0 => 0x0,
        0x1 => 0x1,
        0x8 => 0x8,
        0x9 => 0x9,
        0xB => 0xB,
        _ => 0xC,
    }
}

// Its controlField.
fn control_of(w: &[u64; 20]) -> u8
    ensures { result ≡ control_of (body_of w.now) }
{
    let kind = w[0];
    match kind {
        0x0 => 0,
        0x1 => 1,
        0x8 => 2,
        0x9 => 3,
        0xB => 5,
        _ => 5,
    }
}

// How many octets it has before its tail.
fn size_of(w: &[u64; 20]) -> usize
    ensures { (result ≡ size_of (body_of w.now)) × (44 ≤ result) × (result ≤ 64) }
{
    let kind = w[0];
    match kind {
        0x0 => 44,
        0x1 => 44,
        0x8 => 44,
        0x9 => 54,
        0xB => 64,
        _ => 44,
    }
}

// Whether its timestamp fits and would be read.
fn stamp_holds(w: &[u64; 20]) -> bool
    ensures { result ≡ stamp_fits (stamp_of w.now) }
{
    (w[9] < 0x1_0000_0000_0000) & (w[10] % 0x1_0000_0000 < NANOS)
}

// The same by its type; a Signaling has no timestamp.
fn body_holds(w: &[u64; 20]) -> bool
    ensures { result ≡ body_fits (body_of w.now) }
{
    let kind = w[0];
    match kind {
        0x0 => stamp_holds(w),
        0x1 => stamp_holds(w),
        0x8 => stamp_holds(w),
        0x9 => stamp_holds(w),
        0xB => stamp_holds(w),
        _ => true,
    }
}

// The checks: 18, then 16 against the room there is.
fn check(w: &[u64; 20], tail: &[u8], magic: u16, room: usize) -> Result<(), Refusal>
    ensures { result ≡ write_check magic (message_of w.now) tail.now room }
{
    if w[1] % 256 >= 16 {
        return Err(Refusal::Field);
    }
    if !body_holds(w) {
        return Err(Refusal::Field);
    }
    let size = size_of(w);
    if tail.len() > 65535 - size {
        return Err(Refusal::Field);
    }
    if message::reading::tail_check(tail, size, magic).is_err() {
        return Err(Refusal::Field);
    }
    if room < size + tail.len() {
        return Err(Refusal::Room);
    }
    Ok(())
}

// Its header, for a message of `size` octets.
fn put_header(out: &mut [u8], w: &[u64; 20], size: u16)
    requires { ((header_of w.now).transport < 16) × (34 ≤ length out.old) }
    ensures { out.new ≡ over out.old 0 (header_octets (header_of w.now) (body_of w.now) size []) }
{
    let h = crate::header_of(w);
    let kind = kind_of(w);
    let control = control_of(w);
    layout::put_lead(out, h, kind, size);
    layout::put_identity(out, 20, h.source);
    layout::put_close(out, h, control);
}

// What stands behind the header: the timestamp, in a Signaling the target; from octet 44 on what a Delay_Resp and an Announce have.
fn put_body(out: &mut [u8], w: &[u64; 20])
    requires { size_of (body_of w.now) ≤ length out.old }
    ensures { out.new ≡ over out.old 34 (body_octets (body_of w.now) []) }
{
    let kind = w[0];
    match kind {
        0x0 => layout::put_stamp(out, crate::stamp_of(w)),
        0x1 => layout::put_stamp(out, crate::stamp_of(w)),
        0x8 => layout::put_stamp(out, crate::stamp_of(w)),
        0x9 => {
            layout::put_stamp(out, crate::stamp_of(w));
            layout::put_identity(out, 44, crate::identity_at(w, 11));
        }
        0xB => {
            layout::put_stamp(out, crate::stamp_of(w));
            layout::put_announce(out, crate::announce_of(w));
        }
        _ => layout::put_identity(out, 34, crate::identity_at(w, 9)),
    }
}

// The message and its tail go into the front of the buffer.
pub fn write(out: &mut [u8], w: &[u64; 20], tail: &[u8], magic: u16) -> Result<usize, Refusal>
    ensures answer { result ≡ write_of magic (message_of w.now) tail.now out.old }
    ensures buffer { out.new ≡ buffer_of magic (message_of w.now) tail.now out.old }
{
    check(w, tail, magic, out.len())?;
    let size = size_of(w);
    let n = size + tail.len();
    put_header(out, w, n as u16);
    put_body(out, w);
    stores::copy_in(out, size, tail);
    Ok(n)
}
