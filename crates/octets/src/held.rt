// The same numbers where the caller has shown that the octets are there: one load and a byte swap each.
ghost use Rattle.std.specs.Prelude.{◌≡◌, ◌+◌, ◌≤◌, length, take, drop};
ghost use Rattle.octets.specs.Be.{be};

// The N octets at `at`.
fn octets<const N: usize>(s: &[u8], at: usize) -> [u8; N]
    requires { at + N ≤ length s.now }
    ensures { result ≡ take N (drop at s.now) }
{
    *s[at..at + N].as_array().unwrap()
}

pub fn u16_at(s: &[u8], at: usize) -> u16
    requires { at + 2 ≤ length s.now }
    ensures { result ≡ be 2 s.now at }
{
    u16::from_be_bytes(octets(s, at))
}

pub fn u32_at(s: &[u8], at: usize) -> u32
    requires { at + 4 ≤ length s.now }
    ensures { result ≡ be 4 s.now at }
{
    u32::from_be_bytes(octets(s, at))
}

pub fn u48_at(s: &[u8], at: usize) -> u64
    requires { at + 6 ≤ length s.now }
    ensures { result ≡ be 6 s.now at }
{
    let [a, b, c, d, e, f] = octets::<6>(s, at);
    u64::from_be_bytes([0, 0, a, b, c, d, e, f])
}

pub fn u64_at(s: &[u8], at: usize) -> u64
    requires { at + 8 ≤ length s.now }
    ensures { result ≡ be 8 s.now at }
{
    u64::from_be_bytes(octets(s, at))
}
