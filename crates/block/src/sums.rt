// The sum of a block's words, by which it is closed and judged. Nothing changes: the octets are lent to be read.
ghost use Rattle.std.specs.Prelude.{◌≡◌, ◌+◌, ◌*◌, ◌%◌, ◌^◌, ◌≤◌, ◌<◌, length};
ghost use Rattle.block.specs.Layout.{block_octets};
ghost use Rattle.block.specs.Check.{sum_from, sum_of};

use crate::OCTETS;

// The fours of a block.
const FOURS: usize = OCTETS / 4;

// Four octets as a number, the lowest first, which is one load. By 65,535 what is 65,536 times a number leaves what the number leaves: so 256 times this one
// leaves what the two words leave, whose octets are the other way round.
fn four_at(s: &[u8], at: usize) -> u32
    requires { at + 4 ≤ length s.now }
    ensures { 256 * result % 65535 ≡ sum_from 2 s.now at % 65535 }
{
    u32::from_le_bytes([s[at], s[at + 1], s[at + 2], s[at + 3]])
}

// What a number leaves by 65,535: its 16-bit words are added until they are one, since 65,536 leaves 1.
pub fn folded(n: u64) -> u64
    requires { n < 2 ^ 48 }
    ensures { result ≡ n % 65535 }
{
    let once = n % 65536 + n / 65536 % 65536 + n / 0x1_0000_0000;
    let twice = once % 65536 + once / 65536;
    if twice < 65535 { twice } else { twice - 65535 }
}

// What the sum of all words leaves by 65,535.
pub fn remainder(s: &[u8]) -> u64
    requires { length s.now ≡ block_octets }
    ensures { result ≡ sum_of s.now % 65535 }
{
    let mut v = 0;
    for k in 0..FOURS {
        v += u64::from(four_at(s, 4 * k));
    }
    folded(v << 8)
}
