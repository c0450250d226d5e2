// The octets of a number, by value.
ghost use Rattle.std.specs.Prelude.{◌≡◌, []};
ghost use Rattle.octets.specs.Be.{octets_of};

pub fn two(v: u16) -> [u8; 2]
    ensures { result ≡ octets_of 2 v [] }
{
    u16::to_be_bytes(v)
}

pub fn four(v: u32) -> [u8; 4]
    ensures { result ≡ octets_of 4 v [] }
{
    u32::to_be_bytes(v)
}

// The low 48 bits of v.
pub fn six(v: u64) -> [u8; 6]
    ensures { result ≡ octets_of 6 v [] }
{
    let [_, _, a, b, c, d, e, f] = eight(v);
    [a, b, c, d, e, f]
}

pub fn eight(v: u64) -> [u8; 8]
    ensures { result ≡ octets_of 8 v [] }
{
    u64::to_be_bytes(v)
}
