// The way of a reader that hopes that nothing is wrong with a message. What is wrong with one is left to the checks, which
// alone know the numbers and their order.
ghost use Rattle.std.specs.Prelude.{◌≡◌};
ghost use Rattle.contents.specs.Sound.{fixed_bounds, sound_bounds};

use message::reading::Bounds;

// The fixed size and messageLength of octets that pass every check but the tail's.
pub fn fixed_bounds(s: &[u8]) -> Option<Bounds>
    ensures { result ≡ fixed_bounds s.now }
{
    message::reading::head(s).ok()
}

// Those of octets that pass all the checks.
pub fn sound_bounds(s: &[u8], magic: u16) -> Option<Bounds>
    ensures { result ≡ sound_bounds magic s.now }
{
    let b = fixed_bounds(s)?;
    if !crate::search::is_sound(&s[b.size..b.length], magic) {
        return None;
    }
    Some(b)
}
