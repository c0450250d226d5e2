// TLVs in White Rabbit form (001, Table 5).
//
// A form is a type and the six octets behind the length, at 4 to 9; White Rabbit's are its OUI, the set magic and
// version 1. At 10 stands the message number, at 12 the data.
ghost use Rattle.std.specs.Prelude.{◌≡◌};
ghost use Rattle.tlv.specs.Walk.{size_at, Fits};
ghost use Rattle.tlv.specs.Form.{wr_form, HasForm, data_octets, is_misfit, numbered, misfit_by, is_suffix};

#[derive(Clone, Copy)]
pub struct Form {
    pub kind: u16,
    pub six: u64,
}

pub const SLAVE_PRESENT: u16 = 0x1000;

pub const LOCK: u16 = 0x1001;

pub const LOCKED: u16 = 0x1002;

pub const CALIBRATE: u16 = 0x1003;

pub const CALIBRATED: u16 = 0x1004;

pub const MODE_ON: u16 = 0x1005;

pub const ANN_SUFIX: u16 = 0x2000;

pub fn wr_form(magic: u16) -> Form
    ensures { result ≡ wr_form magic }
{
    Form {
        kind: 3,
        six: (0x080030 * 65536 + magic as u64) * 256 + 1,
    }
}

// Whether the TLV at `at`, whose length is `l`, is of a form. Its six octets are looked at as two and four, each
// one load.
fn has_form(t: &[u8], at: usize, l: usize, f: Form) -> bool
    requires fits { Fits t.now at }
    requires l_value { l ≡ size_at t.now at }
    ensures { result ≡ HasForm f t.now at }
{
    if octets::held::u16_at(t, at) != f.kind {
        return false;
    }
    if l < 8 {
        return false;
    }
    if octets::held::u16_at(t, at + 8) as u64 != f.six % 65536 {
        return false;
    }
    octets::held::u32_at(t, at + 4) as u64 == f.six / 65536
}

pub fn data_size(number: u16) -> Option<u16>
    ensures { result ≡ data_octets number }
{
    match number {
        SLAVE_PRESENT => Some(0),
        LOCK => Some(0),
        LOCKED => Some(0),
        CALIBRATE => Some(6),
        CALIBRATED => Some(16),
        MODE_ON => Some(0),
        ANN_SUFIX => Some(2),
        _ => None,
    }
}

// Whether L is wrong for a message with data of that size: L = 8 + N.
fn wrong_size(size: Option<u16>, l: usize) -> bool
    ensures { result ≡ is_misfit size l }
{
    size.is_some_and(|n| l != 8 + n as usize)
}

// The number of the TLV at `at`, whose length is `l`, if it is in White Rabbit form.
pub fn number_at(t: &[u8], at: usize, l: usize, magic: u16) -> Option<u16>
    requires fits { Fits t.now at }
    requires l_value { l ≡ size_at t.now at }
    ensures { result ≡ numbered magic t.now at }
{
    if has_form(t, at, l, wr_form(magic)) {
        return Some(octets::held::u16_at(t, at + 10));
    }
    None
}

// Whether a TLV of length `l` is a known message with a wrong data size.
pub fn misfits(x: Option<u16>, l: usize) -> bool
    ensures { result ≡ misfit_by x l }
{
    x.is_some_and(|n| wrong_size(data_size(n), l))
}

// Whether a TLV is an ANN_SUFIX.
pub fn is_suffix(x: Option<u16>) -> bool
    ensures { result ≡ is_suffix x }
{
    x.is_some_and(|n| n == ANN_SUFIX)
}
