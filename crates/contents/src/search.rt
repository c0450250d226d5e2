// Searches over a tail: the first TLV that is looked for, the data of the first of a type, and whether nothing is wrong.
ghost use Rattle.std.specs.Prelude.{◌≡◌, ℕ, Bool, Option};
ghost use Rattle.tlv.specs.Walk.{first, data_at, Fits};
ghost use Rattle.tlv.specs.Form.{is_link, numbered};
ghost use Rattle.tlv.specs.Faults.{sought_at, is_sound, sound_of};

use tlv::form;
use tlv::form::{MODE_ON, SLAVE_PRESENT};
use tlv::walk::Sought;

// Whether a TLV is one of the six link messages, which are numbered from SLAVE_PRESENT to MODE_ON.
pub fn is_link(x: Option<u16>) -> bool
    ensures { result ≡ is_link x }
{
    match x {
        Some(n) => (SLAVE_PRESENT <= n) & (n <= MODE_ON),
        None => false,
    }
}

// Whether the TLV at `at`, which is whole, is what the walk looks for.
fn is_sought(t: &[u8], at: usize, what: Sought) -> bool
    requires { Fits t.now at }
    ensures { result ≡ sought_at what t.now at }
{
    let l = octets::held::u16_at(t, at + 2) as usize;
    match what {
        Sought::OfType(kind) => octets::held::u16_at(t, at) == kind,
        Sought::Suffix(magic) => form::is_suffix(form::number_at(t, at, l, magic)),
        Sought::Link(magic) => is_link(form::number_at(t, at, l, magic)),
    }
}

// Where the first TLV stands that the walk looks for; the end of the tail where there is none. Here and below the loop stays: each step is read
// from the tail, so there is no range to go over.
pub fn place(t: &[u8], what: Sought) -> usize
    ensures { result ≡ first (sought_at what t.now) t.now 0 }
{
    let mut at: usize = 0;
    while at < t.len() {
        let Some(p) = tlv::walk::step(t, at) else {
            return t.len();
        };
        if is_sought(t, at, what) {
            return at;
        }
        at = p;
    }
    t.len()
}

// The data of the first TLV of a type, as a part of the tail; empty where there is none.
pub fn data_of(t: &[u8], kind: u16) -> &[u8]
    ensures { result.now ≡ data_at t.now (first (sought_at (Sought.OfType kind) t.now) t.now 0) }
{
    let p = place(t, Sought::OfType(kind));
    if p < t.len() {
        let a = p + 4;
        let n = octets::held::u16_at(t, p + 2) as usize;
        &t[a..a + n]
    } else {
        &t[..0]
    }
}

// Where the first TLV stands that passes a test, in a sound tail; its end where there is none. This is for a reader that hopes that nothing is
// wrong: it ends at the first thing that is, and does not say what. Each call is made one piece with its caller.
fn sound_first<F: Fn(usize, Option<u16>) -> bool>(t: &[u8], magic: u16, passes: F) -> Option<usize>
    requires { (p : ℕ) (x : Option ℕ) → Fits t.now p → F.pre passes p x }
    ensures { (test : ℕ → Bool) → ((p : ℕ) (b : Bool) → F.post passes p (numbered magic t.now p) b → b ≡ test p) → result ≡ sound_of magic test t.now }
{
    let mut found = t.len();
    let mut at: usize = 0;
    while at < t.len() {
        let p = tlv::walk::step(t, at)?;
        let l = p - at - 4;
        let x = form::number_at(t, at, l, magic);
        if form::misfits(x, l) {
            return None;
        }
        if passes(at, x) && found == t.len() {
            found = at;
        }
        at = p;
    }
    Some(found)
}

// Whether nothing is wrong with a tail.
pub fn is_sound(t: &[u8], magic: u16) -> bool
    ensures { result ≡ is_sound magic t.now }
{
    sound_first(t, magic, |_, _| false).is_some()
}

// Where the first TLV of a type stands in a sound tail.
pub fn sound_place(t: &[u8], kind: u16, magic: u16) -> Option<usize>
    ensures { result ≡ sound_of magic (sought_at (Sought.OfType kind) t.now) t.now }
{
    sound_first(t, magic, |at, _| octets::held::u16_at(t, at) == kind)
}
