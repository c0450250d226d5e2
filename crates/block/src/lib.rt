#![tactic(auto)]
// A block of a trace: 512 octets with the messages that arrived, each with its port and time. `making` writes one, `sums` has the sum that its
// check makes whole. What a block is read and judged by is the crate `judging`, which who only records does not need.
//
// Octets 0 to 15 are the head: check, number, the first record's time, how many records. A record is a head of eleven octets, time, port and
// length, and the message. What the messages say is left to others.
ghost use Rattle.std.specs.Prelude.{◌≡◌, ◌≤◌, length};
ghost use Rattle.block.specs.Layout.{count_of};

pub mod making;
pub mod sums;

// The octets of a block.
pub const OCTETS: usize = 512;

// Where the records begin.
pub const RECORDS: usize = 16;

// What stands before the message of a record.
pub const HEAD: usize = 11;

// The longest message that a block has room for.
pub const LONGEST: usize = OCTETS - RECORDS - HEAD;

// How many records it has.
pub fn count(s: &[u8]) -> u16
    requires { 16 ≤ length s.now }
    ensures { result ≡ count_of s.now }
{
    octets::held::u16_at(s, 14)
}
