// The records of a block one after the other, for whoever looks into a trace.
ghost use Rattle.std.specs.Prelude.{◌≡◌, length};
ghost use Rattle.block.specs.Layout.{block_octets};
ghost use Rattle.judging.specs.Walking.{record_at, next_record};

use block::{HEAD, OCTETS, RECORDS};

// A record: when its message arrived, on which port, and where that stands in the block: it begins, has so many octets, and ends.
#[derive(Clone, Copy)]
pub struct Place {
    pub time: u64,
    pub port: u8,
    pub at: usize,
    pub length: usize,
    pub end: usize,
}

// The record that begins at an octet, where one does: whole, and of a port that there is.
#[tactic(auto, unfolding(crate::specs::Walking::record_at))]
pub(crate) fn next_at(s: &[u8], at: usize) -> Option<Place>
    requires { length s.now ≡ block_octets }
    ensures { result ≡ record_at s.now at }
{
    if OCTETS - HEAD < at {
        return None;
    }
    let end = crate::end_at(s, at);
    if OCTETS < end {
        return None;
    }
    let port = crate::port_at(s, at);
    if !refusal::is_port(port) {
        return None;
    }
    Some(Place {
        time: crate::time_at(s, at),
        port,
        at: at + HEAD,
        length: end - HEAD - at,
        end,
    })
}

// The record at octet `from`, the first at 0; behind a record stands the next, and behind the last none.
pub fn record_from(s: &[u8; OCTETS], from: usize) -> Option<Place>
    ensures { result ≡ next_record s.now from }
{
    next_at(&s[..], from.max(RECORDS))
}
