#![tactic(auto)]
// Taking messages by words, as a host names them: one on the port that a word says, or a whole burst in one call, a run of messages, each
// with its port and time, taken one after another. A message is a row of five words: port, time, where it begins in the octets lent, how
// many octets it has, and the word that its answer is written to. A burst is refused with 17 where it holds more than 288; then
// nothing is taken and no answer written.
ghost use Rattle.std.specs.Prelude.{◌≡◌};
ghost use Rattle.slots.specs.Words.{block};
ghost use Rattle.words.specs.Words.{port_of};
ghost use Rattle.ports.specs.Intake.{plan_at, state_after};
ghost use Rattle.ports.specs.When.{take_number};
ghost use Rattle.ports.specs.History.{run};
ghost use Rattle.bursts.specs.Burst.{calls_of, answered, burst_check, burst_words, burst_rows};

use ports::WORDS;
use ports::intake::Settings;
use refusal::Refusal;

// The words of a message.
pub const ROW: usize = 5;

// A burst holds at most so many messages.
const MOST: usize = 288;

// Takes the Announce in `s` on the port that a word names, with the answer's number: what a host calls for one message, and a burst for each of its own. It is
// compiled once and called by both, so the answer is a number, which comes back in a register. A word past the last port is refused as it is.
pub fn answer(words: &mut [u64; WORDS], port: u64, t: u64, s: &[u8], set: Settings) -> u64
    ensures answer { result ≡ take_number set words.old (port_of port) t s.now }
    ensures words { words.new ≡ state_after words.old (port_of port) t (plan_at set words.old (port_of port) t s.now) }
{
    if (refusal::PORTS as u64) < port {
        return refusal::code(Err(Refusal::Port));
    }
    refusal::code(ports::intake::take(words, port as u8, t, s, set))
}

// Those of the octets from `begin` on, `count` of them, that were lent.
fn part(octets: &[u8], begin: usize, count: usize) -> &[u8]
    ensures { result.now ≡ block octets.now begin count }
{
    let b = begin.min(octets.len());
    let c = count.min(octets.len() - b);
    &octets[b..b + c]
}

// Takes each message in its turn, and writes its answer beside it.
fn take_each(words: &mut [u64; WORDS], octets: &[u8], burst: &mut [[u64; ROW]], set: Settings)
    ensures words { words.new ≡ run words.old (calls_of set octets.now burst.old) }
    ensures rows { burst.new ≡ answered set octets.now words.old burst.old }
{
    for m in burst.iter_mut() {
        let s = part(octets, m[2] as usize, m[3] as usize);
        m[4] = answer(words, m[0], m[1], s, set);
    }
}

// Takes the messages of a burst in their order, or refuses the burst.
pub fn take_burst(
    words: &mut [u64; WORDS],
    octets: &[u8],
    burst: &mut [[u64; ROW]],
    set: Settings,
) -> Result<(), Refusal>
    ensures answer { result ≡ burst_check burst.old }
    ensures words { words.new ≡ burst_words set octets.now words.old burst.old }
    ensures rows { burst.new ≡ burst_rows set octets.now words.old burst.old }
{
    if MOST < burst.len() {
        return Err(Refusal::Many);
    }
    take_each(words, octets, burst, set);
    Ok(())
}
