#![tactic(auto)]
// What a step of a link answers, in words.
ghost use Rattle.std.specs.Prelude.{◌≡◌};
ghost use Rattle.link_words.specs.Steps.{sends_words, step_words, taken_code, taken_words};

pub mod events;

use link::{Sends, Stepped};
use message_words::answers::link_message_words;
use refusal::Refusal;

// What a step sends: how many messages, then two of six words each, zeros where there is none.
#[tactic(auto, unfolding(crate::specs::Steps::sends_words))]
fn sends_words(s: Sends) -> [u64; 13]
    ensures { result ≡ sends_words s }
{
    let mut words = [0; 13];
    match s {
        Sends::Nothing => {}
        Sends::One(a) => {
            words[0] = 1;
            words[1..7].copy_from_slice(&link_message_words(a));
        }
        Sends::Two(a, b) => {
            words[0] = 2;
            words[1..7].copy_from_slice(&link_message_words(a));
            words[7..].copy_from_slice(&link_message_words(b));
        }
    }
    words
}

// A step: the state, the role, the mode, the retry count, whether it reports link on, then what is sent.
#[tactic(auto, unfolding(crate::specs::Steps::step_words))]
fn step_words(s: Stepped) -> [u64; 18]
    ensures { result ≡ step_words s }
{
    let l = s.link;
    let mut words = [0; 18];
    words[..5].copy_from_slice(&[
        links::state_number(l.state),
        links::role_number(l.role),
        l.mode.into(),
        l.retries.into(),
        s.report.into(),
    ]);
    words[5..].copy_from_slice(&sends_words(s.sends));
    words
}

// What an event on a port gives.
pub fn put_taken(out: &mut [u64; 18], t: Result<Stepped, Refusal>) -> u64
    ensures answer { result ≡ taken_code t }
    ensures words { out.new ≡ taken_words t out.old }
{
    words::put(out, t.map(step_words).map_err(refusal::number))
}
