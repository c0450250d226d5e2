// Blocks made: one is opened for its first record, records are added one behind the other, and it is closed by its check. Whether a record fits
// is the caller's to know.
ghost use Rattle.std.specs.Prelude.{◌≡◌, ◌+◌, ◌≤◌, length, []};
ghost use Rattle.block.specs.Layout.{block_octets};
ghost use Rattle.octets.specs.Be.{octets_of};
ghost use Rattle.stores.specs.Stores.{over};
ghost use Rattle.block.specs.Making.{opened_of, added_to, sealed};

use crate::{HEAD, OCTETS};

// The head of an open block: its number and its first record's time.
fn put_head(block: &mut [u8], number: u32, t: u64)
    requires { length block.old ≡ block_octets }
    ensures { block.new ≡ over block.old 2 (octets_of 4 number (octets_of 8 t [])) }
{
    stores::four(block, 2, u64::from(number));
    stores::eight(block, 6, t);
}

// Opens a block for a first record at `t`.
pub fn open(block: &mut [u8; OCTETS], number: u32, t: u64)
    ensures { block.new ≡ opened_of number t }
{
    *block = [0; OCTETS];
    put_head(block, number, t);
}

// Adds a record from an octet on.
pub fn add(block: &mut [u8], at: usize, t: u64, port: u8, message: &[u8])
    requires { (length block.old ≡ block_octets) × (16 ≤ at) × (at + (11 + length message.now) ≤ block_octets) }
    ensures { block.new ≡ added_to block.old at (record { time = t; port = port; message = message.now }) }
{
    let n = crate::count(block);
    stores::two(block, 14, u64::from(n) + 1);
    stores::eight(block, at, t);
    stores::one(block, at + 8, port);
    stores::two(block, at + 9, message.len() as u64);
    stores::copy_in(block, at + HEAD, message);
}

// Writes a block closed: as it stands open, with its check. `*out = *block` would make the library want `memmove`.
pub fn seal(block: &[u8; OCTETS], out: &mut [u8; OCTETS])
    ensures { out.new ≡ sealed block.now }
{
    stores::copy_in(out, 0, block);
    let first = octets::held::u16_at(block, 0);
    let others = crate::sums::remainder(block) + 65535 - u64::from(first);
    let check = 65535 - crate::sums::folded(others);
    stores::two(out, 0, check);
}
