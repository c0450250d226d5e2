#![tactic(auto)]
// Replaying: the messages of a trace are taken again, in their order, each with its port and time. A trace is replayed block by block, for a reader
// that streams, or as a whole, and then the records begin afresh: the intervals, which are settings, stay. A message that is refused changes nothing, and
// the replay goes on.
//
// Refused with 20: a block whose check, layout, number or times are wrong. Then nothing that was lent has changed; of a whole trace all blocks are looked
// at before the first message is taken.
ghost use Rattle.std.specs.Prelude.{◌≡◌, true, ◌≤◌, length, take, drop};
ghost use Rattle.block.specs.Layout.{block_octets, entries_of};
ghost use Rattle.judging.specs.Tests.{is_laid};
ghost use Rattle.ports.specs.History.{run};
ghost use Rattle.ports.specs.Words.{all_words};
ghost use Rattle.playback.specs.Playback.{calls_of, reader_of, block_check, words_after_block, reader_after_block, blocks_in, entries_of_all, is_trace, cleared, replay_of, words_after_replay};

use block::OCTETS;
use judging::Reader;
use judging::records::Records;
use ports::WORDS;
use ports::intake::Settings;
use refusal::Refusal;

// What a reader keeps from block to block: the lowest number that the next may have, and the last record's time. Zeroed, nothing was read.
pub const READER: usize = 2;

// Takes the messages of a block whose layout is right.
fn take_all(words: &mut [u64; WORDS], s: &[u8], set: Settings)
    requires { is_laid s.now ≡ true }
    ensures { words.new ≡ run words.old (calls_of set (entries_of s.now)) }
{
    for r in Records::of(s) {
        bursts::answer(words, u64::from(r.port), r.time, r.message, set);
    }
}

// Replays a block behind those that its reader has read, or refuses it.
pub fn replay_block(
    words: &mut [u64; WORDS],
    reader: &mut [u64; READER],
    s: &[u8],
    set: Settings,
) -> Result<(), Refusal>
    ensures answer { result ≡ block_check (reader_of reader.old) s.now }
    ensures words { words.new ≡ words_after_block set (reader_of reader.old) words.old s.now }
    ensures reader { reader.new ≡ reader_after_block reader.old s.now }
{
    let [next, last] = *reader;
    let after = judging::judge(s, Reader { next, last })?;
    take_all(words, s, set);
    *reader = [after.next, after.last];
    Ok(())
}

// The last record's time of a trace, all of whose blocks are looked at, 0 where it is empty; nothing is taken.
pub fn judged(trace: &[u8]) -> Result<u64, Refusal>
    ensures { result ≡ replay_of trace.now }
{
    let mut read = Reader { next: 0, last: 0 };
    for b in trace.chunks(OCTETS) {
        read = judging::judge(b, read)?;
    }
    Ok(read.last)
}

// Forgets all records and times, port by port; the intervals stay, each the second word of its port.
fn clear(words: &mut [u64; WORDS])
    ensures { words.new ≡ cleared words.old }
{
    for port in 0..refusal::PORTS {
        let own = port * slots::WORDS;
        words[own] = 0;
        words[own + 2..own + slots::WORDS].fill(0);
    }
}

// Takes the messages of all blocks of a trace that was looked at.
fn take_trace(words: &mut [u64; WORDS], trace: &[u8], set: Settings)
    requires { is_trace trace.now ≡ true }
    ensures { words.new ≡ run words.old (calls_of set (entries_of_all (blocks_in trace.now))) }
{
    for s in trace.chunks(OCTETS) {
        take_all(words, s, set);
    }
}

// Replays a whole trace from fresh records, or refuses it.
pub fn replay(words: &mut [u64; WORDS], trace: &[u8], set: Settings) -> Result<u64, Refusal>
    ensures answer { result ≡ replay_of trace.now }
    ensures words { words.new ≡ words_after_replay set words.old trace.now }
{
    let t = judged(trace)?;
    clear(words);
    take_trace(words, trace, set);
    Ok(t)
}
