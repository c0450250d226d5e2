// Messages recorded in blocks of 512 octets, and replayed. A recording is three words and an open block that the host keeps, a reader of blocks two words;
// zeroed they are fresh.
ghost use Rattle.std.specs.Prelude.{◌≡◌};
ghost use Rattle.refusal.specs.Refusal.{code_of};
ghost use Rattle.judging.specs.Walking.{next_record};
ghost use Rattle.recording.specs.Recording.{entry_of, recorded_of, open_after, words_after, out_after, is_open, finished};
ghost use Rattle.playback.specs.Playback.{reader_of, block_check, words_after_block, reader_after_block, replay_of, words_after_replay};
ghost use Rattle.trace_words.specs.Answers.{recorded_code, recorded_words, finished_words, replayed_code, replayed_words, next_words};
ghost use Rattle.words.specs.Words.{port_of};
ghost use Rattle.dzervolat.specs.Settings.{settings};

use ports::intake::Settings;

// Records a message that arrived on a port at time `t`; `closed` says whether that brought a block out.
#[unsafe(no_mangle)]
pub extern "C" fn dz_trace_record(
    recording: &mut [u64; recording::WORDS],
    opened: &mut [u8; block::OCTETS],
    port: u64,
    t: u64,
    octets: &[u8],
    out: &mut [u8; block::OCTETS],
    closed: &mut [u64; 1],
) -> u64
    ensures answer { result ≡ recorded_code (recorded_of recording.old (entry_of t (port_of port) octets.now)) }
    ensures words { recording.new ≡ words_after recording.old (entry_of t (port_of port) octets.now) }
    ensures opened { opened.new ≡ open_after opened.old recording.old (entry_of t (port_of port) octets.now) }
    ensures block { out.new ≡ out_after opened.old recording.old (entry_of t (port_of port) octets.now) out.old }
    ensures closed { closed.new ≡ recorded_words (recorded_of recording.old (entry_of t (port_of port) octets.now)) closed.old }
{
    let p = words::port_of(port);
    let x = recording::record(opened, recording, p, t, octets, out);
    trace_words::put_recorded(closed, x)
}

// The open block of a recording as it would be closed now.
#[unsafe(no_mangle)]
pub extern "C" fn dz_trace_finish(
    recording: &[u64; recording::WORDS],
    opened: &[u8; block::OCTETS],
    out: &mut [u8; block::OCTETS],
    closed: &mut [u64; 1],
) -> u64
    ensures answer { result ≡ 0 }
    ensures block { out.new ≡ finished opened.now recording.now out.old }
    ensures closed { closed.new ≡ finished_words (is_open recording.now) }
{
    let is = recording::finish(opened, recording, out);
    *closed = trace_words::finished(is);
    0
}

// The record of a block at an octet: 1 and its five words, or zeros.
#[unsafe(no_mangle)]
pub extern "C" fn dz_trace_walk(
    octets: &[u8; block::OCTETS],
    from: usize,
    found: &mut [u64; 6],
) -> u64
    ensures answer { result ≡ 0 }
    ensures words { found.new ≡ next_words (next_record octets.now from) }
{
    let x = judging::walking::record_from(octets, from);
    *found = trace_words::next(x);
    0
}

// Replays a block behind those that its reader has read.
#[unsafe(no_mangle)]
pub extern "C" fn dz_replay_block(
    ports: &mut [u64; ports::WORDS],
    reader: &mut [u64; playback::READER],
    octets: &[u8],
    domain: u8,
    clock: u64,
    magic: u16,
) -> u64
    ensures answer { result ≡ code_of (block_check (reader_of reader.old) octets.now) }
    ensures words { ports.new ≡ words_after_block (settings domain clock magic) (reader_of reader.old) ports.old octets.now }
    ensures reader { reader.new ≡ reader_after_block reader.old octets.now }
{
    let set = Settings {
        domain,
        clock,
        magic,
    };
    refusal::code(playback::replay_block(ports, reader, octets, set))
}

// Replays a whole trace from fresh records: the time of its last record.
#[unsafe(no_mangle)]
pub extern "C" fn dz_replay(
    ports: &mut [u64; ports::WORDS],
    octets: &[u8],
    domain: u8,
    clock: u64,
    magic: u16,
    last: &mut [u64; 1],
) -> u64
    ensures answer { result ≡ replayed_code (replay_of octets.now) }
    ensures words { ports.new ≡ words_after_replay (settings domain clock magic) ports.old octets.now }
    ensures time { last.new ≡ replayed_words (replay_of octets.now) last.old }
{
    let set = Settings {
        domain,
        clock,
        magic,
    };
    let x = playback::replay(ports, octets, set);
    trace_words::put_replayed(last, x)
}
