// What a port answers: its candidates at a time, one slot after the other; the best of them; and what it keeps. Nothing changes: the words
// are lent to be read. Candidates and the best are refused with 8 (a port outside 1 to 18), then 11 (a time below the
// last accepted one), the others with 8. A slot past the sixteenth holds nothing.
ghost use Rattle.std.specs.Prelude.{◌≡◌};
ghost use Rattle.ports.specs.Asking.{candidate_on, best_on, status_of, looked_at};

use crate::WORDS;
use rank::Candidate;
use refusal::Refusal;
use senders::Record;

// The candidate in a port's slot at `t`. The sixteen slots, in their order, give the port's candidates.
pub fn candidate(
    words: &[u64; WORDS],
    port: u8,
    slot: usize,
    t: u64,
) -> Result<Option<Candidate>, Refusal>
    ensures { result ≡ candidate_on words.now port slot t }
{
    slots::candidate(crate::asked(words, port)?, port, slot, t)
}

// The best of a port's candidates at `t`.
pub fn best(words: &[u64; WORDS], port: u8, t: u64) -> Result<Option<Candidate>, Refusal>
    ensures { result ≡ best_on words.now port t }
{
    slots::best(crate::asked(words, port)?, port, t)
}

// A port's last accepted time and interval.
pub fn port_status(words: &[u64; WORDS], port: u8) -> Result<(u64, i8), Refusal>
    ensures { result ≡ status_of words.now port }
{
    let ws = crate::asked(words, port)?;
    Ok((
        slots::last(ws),
        crate::interval::interval_of(slots::exponent(ws)),
    ))
}

// The record in a port's slot, if it ever held one.
pub fn look(words: &[u64; WORDS], port: u8, slot: usize) -> Result<Option<Record>, Refusal>
    ensures { result ≡ looked_at words.now port slot }
{
    Ok(slots::slot(crate::asked(words, port)?, slot))
}
