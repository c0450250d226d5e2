// What White Rabbit's TLVs say: the suffix of an Announce, and the link message of a Signaling. Only sizes that are
// right are read here; a tail with a wrong one is refused before.
ghost use Rattle.std.specs.Prelude.{◌≡◌};
ghost use Rattle.tlv.specs.Wr.{suffix_as, wr_flags_of};

// The six messages that bring a link up, with what they carry.
#[derive(Clone, Copy)]
pub enum LinkMessage {
    SlavePresent,
    Lock,
    Locked,
    Calibrate { pattern: u8, retry: u8, period: u32 },
    Calibrated { tx: u64, rx: u64 },
    ModeOn,
}

// The ANN_SUFIX that a walk found at `p`, none at the end. Of its wrFlags the four bits that mean something are kept.
pub fn suffix_at(t: &[u8], p: usize) -> Option<u16>
    ensures { result ≡ suffix_as t.now p }
{
    if p < t.len() {
        return Some(octets::u16_at(t, p + 12) % 16);
    }
    None
}

// wrFlags; an Announce without the suffix counts as a plain PTP master, wrFlags 0.
pub fn wr_flags(x: Option<u16>) -> u16
    ensures { result ≡ wr_flags_of x }
{
    let Some(flags) = x else {
        return 0;
    };
    flags
}
