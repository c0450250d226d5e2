#![tactic(auto)]
// Octets stored into a buffer that is lent: numbers, the highest octet first, and runs of octets. What the octets mean is left to
// the crates that store them.
//
// Nothing is refused here: what is asked of the caller is that the buffer has the room. Of a longer number the low octets
// go in. The compiler makes a byte swap and one store of each number.
ghost use Rattle.std.specs.Prelude.{◌≡◌, [], ◌∷◌, ◌+◌, ◌*◌, ◌/◌, ◌≤◌, ◌<◌, length, take, drop};
ghost use Rattle.octets.specs.Be.{octets_of};
ghost use Rattle.stores.specs.Stores.{over};

// One octet.
pub fn one(out: &mut [u8], at: usize, x: u8)
    requires { at < length out.old }
    ensures { out.new ≡ over out.old at (x ∷ []) }
{
    out[at] = x;
}

// The low octets of v, the highest first.
pub fn two(out: &mut [u8], at: usize, v: u64)
    requires { at + 2 ≤ length out.old }
    ensures { out.new ≡ over out.old at (octets_of 2 v []) }
{
    out[at..at + 2].copy_from_slice(&((v & 0xffff) as u16).to_be_bytes());
}

pub fn four(out: &mut [u8], at: usize, v: u64)
    requires { at + 4 ≤ length out.old }
    ensures { out.new ≡ over out.old at (octets_of 4 v []) }
{
    out[at..at + 4].copy_from_slice(&((v & 0xffff_ffff) as u32).to_be_bytes());
}

pub fn six(out: &mut [u8], at: usize, v: u64)
    requires { at + 6 ≤ length out.old }
    ensures { out.new ≡ over out.old at (octets_of 6 v []) }
{
    out[at..at + 6].copy_from_slice(&v.to_be_bytes()[2..]);
}

pub fn eight(out: &mut [u8], at: usize, v: u64)
    requires { at + 8 ≤ length out.old }
    ensures { out.new ≡ over out.old at (octets_of 8 v []) }
{
    out[at..at + 8].copy_from_slice(&v.to_be_bytes());
}

// The N octets of `src` at `from` go into `dst` at `at`, by a value between: one load and one store.
fn copy_part<const N: usize>(dst: &mut [u8], at: usize, src: &[u8], from: usize)
    requires into { at + N ≤ length dst.old }
    requires of { from + N ≤ length src.now }
    ensures { dst.new ≡ over dst.old at (take N (drop from src.now)) }
{
    let part: [u8; N] = *src[from..from + N].as_array().unwrap();
    dst[at..at + N].copy_from_slice(&part);
}

// As many octets of `src` as make up whole parts of N go into `dst` from `at` on.
fn copy_parts<const N: usize>(dst: &mut [u8], at: usize, src: &[u8])
    requires some { 0 < N }
    requires room { at + length src.now ≤ length dst.old }
    ensures { dst.new ≡ over dst.old at (take (length src.now / N * N) src.now) }
{
    for k in 0..src.len() / N {
        copy_part::<N>(dst, at + k * N, src, k * N);
    }
}

// All of `src` goes into `dst` from `at` on: whole parts of N, and the last N octets once more, which overlap them.
fn copy_by<const N: usize>(dst: &mut [u8], at: usize, src: &[u8])
    requires some { (0 < N) × (N ≤ length src.now) }
    requires room { at + length src.now ≤ length dst.old }
    ensures { dst.new ≡ over dst.old at src.now }
{
    let rest = src.len() - N;
    copy_parts::<N>(dst, at, src);
    copy_part::<N>(dst, at + rest, src, rest);
}

// All of `src` goes into `dst` from `at` on, octet by octet.
fn copy_each(dst: &mut [u8], at: usize, src: &[u8])
    requires { at + length src.now ≤ length dst.old }
    ensures { dst.new ≡ over dst.old at src.now }
{
    for i in 0..src.len() {
        dst[at + i] = src[i];
    }
}

// All of `src`, which is long, goes into `dst` from `at` on. It stands by itself so that a short copy pays nothing for it.
#[inline(never)]
fn copy_long(dst: &mut [u8], at: usize, src: &[u8])
    requires long { 64 ≤ length src.now }
    requires room { at + length src.now ≤ length dst.old }
    ensures { dst.new ≡ over dst.old at src.now }
{
    copy_by::<64>(dst, at, src);
}

// All of `src` goes into `dst` from `at` on. A length that the compiler knows is copied in place; one `copy_from_slice` of
// all of it would be a call, which costs more where few octets are copied.
pub fn copy_in(dst: &mut [u8], at: usize, src: &[u8])
    requires { at + length src.now ≤ length dst.old }
    ensures { dst.new ≡ over dst.old at src.now }
{
    match src.len() {
        0..8 => copy_each(dst, at, src),
        8..16 => copy_by::<8>(dst, at, src),
        16..32 => copy_by::<16>(dst, at, src),
        32..64 => copy_by::<32>(dst, at, src),
        _ => copy_long(dst, at, src),
    }
}
