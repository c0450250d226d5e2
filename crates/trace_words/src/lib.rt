#![tactic(auto)]
// What recording, replaying and looking into a block answer, put into words that are lent: the number returned is 0, or that of the refusal, and then the
// words are as they were.
ghost use Rattle.std.specs.Prelude.{◌≡◌, ◌∷◌, []};
ghost use Rattle.trace_words.specs.Answers.{recorded_code, recorded_words, finished_words, replayed_code, replayed_words, place_words, next_words};

use judging::walking::Place;
use refusal::Refusal;

// Whether a block came out: 1 or 0.
pub fn put_recorded(out: &mut [u64; 1], x: Result<bool, Refusal>) -> u64
    ensures answer { result ≡ recorded_code x }
    ensures words { out.new ≡ recorded_words x out.old }
{
    words::put(out, x.map(finished).map_err(refusal::answer))
}

// The same of a recording that is asked for its open block.
pub fn finished(closed: bool) -> [u64; 1]
    ensures { result ≡ finished_words closed }
{
    [u64::from(closed)]
}

fn time(t: u64) -> [u64; 1]
    ensures { result ≡ t ∷ [] }
{
    [t]
}

// The time of the last record.
pub fn put_replayed(out: &mut [u64; 1], x: Result<u64, Refusal>) -> u64
    ensures answer { result ≡ replayed_code x }
    ensures words { out.new ≡ replayed_words x out.old }
{
    words::put(out, x.map(time).map_err(refusal::answer))
}

// A record of a block: 1, its time and port, and its message by where it begins, how long it is and where it ends.
fn place(p: Place) -> [u64; 6]
    ensures { result ≡ place_words p }
{
    [
        1,
        p.time,
        u64::from(p.port),
        p.at as u64,
        p.length as u64,
        p.end as u64,
    ]
}

// The same, or zeros where there is none.
pub fn next(x: Option<Place>) -> [u64; 6]
    ensures { result ≡ next_words x }
{
    x.map_or([0; 6], place)
}
