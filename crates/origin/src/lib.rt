#![tactic(auto)]
// The origin time of a Sync: ten octets, a 48-bit number of seconds and a 32-bit number of nanoseconds.
//
// A two-step Sync has them in its Follow_Up, any other in itself. `origin` hands them back as a part of whichever message
// was lent that holds them, and an empty part where it refuses; `origin_says` says why. The Sync is checked first: the
// reading checks, then 3 if it is another message. Only a two-step Sync has its Follow_Up looked at, in the same way, and
// 3 comes last where sender, domain or sequenceId differ. Nothing lent changes.
ghost use Rattle.std.specs.Prelude.{◌≡◌, ◌≤◌, length};
ghost use Rattle.origin.specs.Origin.{is_two_step, follows, follow_check, origin_check, Stamped, stamp_part, holder, origin_in};

use message::fields::{FOLLOW_UP, SYNC};
use refusal::Refusal;

// Whether a Follow_Up has the sender, the domain and the sequenceId of a Sync.
fn is_of(sync: &[u8], follow: &[u8]) -> bool
    requires { (34 ≤ length sync.now) × (34 ≤ length follow.now) }
    ensures { result ≡ follows sync.now follow.now }
{
    let a = message::fields::header_of(sync);
    let b = message::fields::header_of(follow);
    a.source == b.source && a.domain == b.domain && a.sequence == b.sequence
}

// The checks of the Follow_Up of a two-step Sync.
fn follow_says(sync: &[u8], follow: &[u8], magic: u16) -> Result<(), Refusal>
    requires { 34 ≤ length sync.now }
    ensures { result ≡ follow_check magic sync.now follow.now }
{
    message::reading::takes(follow, FOLLOW_UP, magic)?;
    if is_of(sync, follow) {
        Ok(())
    } else {
        Err(Refusal::Type)
    }
}

// The two-step bit.
fn is_two_step(sync: &[u8]) -> bool
    requires { 34 ≤ length sync.now }
    ensures { result ≡ is_two_step sync.now }
{
    sync[6] / 2 % 2 == 1
}

// Whether `origin` hands back a part, or why not.
pub fn origin_says(sync: &[u8], follow: &[u8], magic: u16) -> Result<(), Refusal>
    ensures { result ≡ origin_check magic sync.now follow.now }
{
    message::reading::takes(sync, SYNC, magic)?;
    if is_two_step(sync) {
        follow_says(sync, follow, magic)
    } else {
        Ok(())
    }
}

// The ten octets of a timestamp.
fn stamp_part(s: &[u8]) -> &[u8]
    requires { 44 ≤ length s.now }
    ensures { result.now ≡ stamp_part s.now }
{
    &s[34..44]
}

// The origin time of a Sync that was checked, and its Follow_Up with it where it is two-step.
pub fn checked_origin<'a>(sync: &'a [u8], follow: &'a [u8]) -> &'a [u8]
    requires { Stamped sync.now follow.now }
    ensures { result.now ≡ stamp_part (holder sync.now follow.now) }
{
    if is_two_step(sync) {
        stamp_part(follow)
    } else {
        stamp_part(sync)
    }
}

// The origin time of a Sync, as a part of the Sync or of its Follow_Up.
pub fn origin<'a>(sync: &'a [u8], follow: &'a [u8], magic: u16) -> &'a [u8]
    ensures { result.now ≡ origin_in magic sync.now follow.now }
{
    match origin_says(sync, follow, magic) {
        Err(_) => &sync[..0],
        Ok(()) => checked_origin(sync, follow),
    }
}
