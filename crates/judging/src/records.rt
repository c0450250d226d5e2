// The records of a block whose layout is right, one after the other, each with its message lent.
ghost use Rattle.std.specs.Prelude.{◌≡◌, true, List, length};
ghost use Rattle.std.specs.Iterator.{YieldsFirstBy, item_count};
ghost use Rattle.block.specs.Layout.{block_octets, Entry, entries_from, entries_of};
ghost use Rattle.judging.specs.Tests.{laid_from, is_laid};
ghost use Rattle.judging.specs.Records.{entry_of};

use crate::Arrival;
use block::{HEAD, RECORDS};
use std::marker::Model;

// So many records are left, from an octet on. Contracts see them as the list of these.
#[derive(Drop)]
pub struct Records<'a> {
    block: &'a [u8],
    at: usize,
    left: u16,
}

impl<'a> Model for Records<'a> {
    ghost Value = { List Entry };

    ghost view = { λ r. entries_from r.left r.block.now r.at };

    ghost invariant = { λ r. (length r.block.now ≡ block_octets) × (laid_from r.left r.block.now r.at ≡ true) };
}

impl<'a> Records<'a> {
    #[tactic(auto, using(crate::proofs::TestLaws::laid))]
    pub fn of(s: &'a [u8]) -> Records<'a>
        requires { is_laid s.now ≡ true }
        ensures { result ≡ entries_of s.now }
    {
        Records {
            block: s,
            at: RECORDS,
            left: block::count(s),
        }
    }
}

impl<'a> Iterator for Records<'a> {
    type Item = Arrival<'a>;

    ghost next_gives = { YieldsFirstBy entry_of (λ es. es) };

    ghost remaining = { item_count (λ es. es) };

    fn next(&mut self) -> Option<Arrival<'a>> {
        if self.left == 0 {
            return None;
        }
        let at = self.at;
        let end = crate::end_at(self.block, at);
        let arrival = Arrival {
            time: crate::time_at(self.block, at),
            port: crate::port_at(self.block, at),
            message: &self.block[at + HEAD..end],
        };
        self.at = end;
        self.left -= 1;
        Some(arrival)
    }
}
