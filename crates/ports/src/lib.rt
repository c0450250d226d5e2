#![tactic(auto)]
// Eighteen ports' records in 1764 words that the host lends, 98 a port: `intake` takes an Announce from octets, `asking` gives a port's
// candidates, its best and what it keeps, `interval` is the announce interval as a setting, `places` tells of candidates by where they
// lie. Words of zero are a fresh clock, and any words have an answer. A port's words are lent on as a part, so that a call never
// reaches another port's.
ghost use Rattle.std.specs.Prelude.{◌≡◌, true, false, ◌+◌, ◌-◌, ◌*◌, ◌≤◌, MatchResult};
ghost use Rattle.refusal.specs.declared.Refusal.TheVariants.{Port};
ghost use Rattle.rank.specs.Ranked.{is_port};
ghost use Rattle.slots.specs.Words.{port_words};
ghost use Rattle.ports.specs.Words.{all_words, own};

use refusal::Refusal;

pub mod asking;
pub mod intake;
pub mod interval;
pub mod places;

// The words of all ports.
pub const WORDS: usize = refusal::PORTS * slots::WORDS;

// Where the words of a port begin.
fn start(port: u8) -> usize
    requires { is_port port ≡ true }
    ensures { (result ≡ port_words * (port - 1)) × (result + port_words ≤ all_words) }
{
    slots::WORDS * (port as usize - 1)
}

// The words of a port's own.
fn own(words: &[u64; WORDS], port: u8) -> &[u64; slots::WORDS]
    requires { is_port port ≡ true }
    ensures { result.now ≡ own words.now port }
{
    &words.as_chunks().0[port as usize - 1]
}

// The same, or 8 where no port has the number.
fn asked(words: &[u64; WORDS], port: u8) -> Result<&[u64; slots::WORDS], Refusal>
    ensures { MatchResult result (λ ws. (is_port port ≡ true) × (ws.now ≡ own words.now port)) (λ x. (is_port port ≡ false) × (x ≡ Port)) }
{
    if !refusal::is_port(port) {
        return Err(Refusal::Port);
    }
    Ok(own(words, port))
}
