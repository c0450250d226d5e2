// The walk over a tail.
ghost use Rattle.std.specs.Prelude.{◌≡◌, ◌≤◌, length};
ghost use Rattle.tlv.specs.Walk.{next_of};
ghost use Rattle.tlv.specs.Form.{suffix_at};
ghost use Rattle.tlv.specs.Faults.{later_of, fault_of, sound_of};

use crate::form;

// What a walk looks for: a TLV of a type, a suffix or a link message under a magic. It is no closure: the definition `sought_at`, which
// theorems name, tells the tests apart by it.
#[derive(Clone, Copy)]
pub enum Sought {
    OfType(u16),
    Suffix(u16),
    Link(u16),
}

// What is wrong with a tail, and where: it breaks off into no whole TLV of even length, or a known WR message has
// data of a wrong size.
#[derive(Clone, Copy)]
pub enum Fault {
    Broken(usize),
    Misfit(usize),
}

// What stands at a place: a TLV, or none.
pub fn step(t: &[u8], at: usize) -> Option<usize>
    requires { at ≤ length t.now }
    ensures { result ≡ next_of t.now at }
{
    if t.len() - at < 4 {
        return None;
    }
    let n = octets::held::u16_at(t, at + 2) as usize;
    if n % 2 == 0 {
        if n <= t.len() - at - 4 {
            return Some(at + 4 + n);
        }
    }
    None
}

// The first place so far that passed a test, the end while there is none: `at` where that passes and no other came before. The end stands
// for none as in the definition `first`, which theorems name.
pub fn later(end: usize, so_far: usize, at: usize, passes: bool) -> usize
    ensures { result ≡ later_of end so_far at passes }
{
    if so_far < end {
        return so_far;
    }
    if passes {
        return at;
    }
    so_far
}

// What is wrong with a tail, found in one walk. That it breaks off counts before a misfit, wherever the two stand.
pub fn first_fault(t: &[u8], magic: u16) -> Result<(), Fault>
    ensures { result ≡ fault_of magic t.now }
{
    let mut misfit = t.len();
    let mut at: usize = 0;
    // A walk's loop stays: each step is read from the tail, so there is no range to go over.
    while at < t.len() {
        let Some(p) = step(t, at) else {
            return Err(Fault::Broken(at));
        };
        let l = p - at - 4;
        let x = form::number_at(t, at, l, magic);
        misfit = later(t.len(), misfit, at, form::misfits(x, l));
        at = p;
    }
    if misfit < t.len() {
        return Err(Fault::Misfit(misfit));
    }
    Ok(())
}

// Where the first suffix stands in a sound tail. This is for a reader that hopes that nothing is wrong: it ends at the first
// thing that is, and does not say what. It has one caller and is made one piece with it. That a TLV is a suffix is settled before `later` is asked: the compiler
// then looks at the number once, for this and the size.
// With the suffix as a closure of `contents::search::sound_first` an Announce takes three instructions more, and fifteen with a TLV before the suffix.
pub fn sound_suffix(t: &[u8], magic: u16) -> Option<usize>
    ensures { result ≡ sound_of magic (suffix_at magic t.now) t.now }
{
    let mut suffix = t.len();
    let mut at: usize = 0;
    while at < t.len() {
        let Some(p) = step(t, at) else {
            return None;
        };
        let l = p - at - 4;
        let x = form::number_at(t, at, l, magic);
        if form::misfits(x, l) {
            return None;
        }
        if form::is_suffix(x) {
            suffix = later(t.len(), suffix, at, true);
        }
        at = p;
    }
    Some(suffix)
}
