// Messages read from octets, and what they carry. Nothing lent to be read changes.
ghost use Rattle.std.specs.Prelude.{◌≡◌, length};
ghost use Rattle.refusal.specs.Refusal.{code_of};
ghost use Rattle.message.specs.Reading.{read_of};
ghost use Rattle.contents.specs.Parts.{tail_in, data_in, lookup_of, suffix_of, link_of};
ghost use Rattle.contents.specs.Tlvs.{next_in};
ghost use Rattle.origin.specs.Origin.{origin_check, origin_in};
ghost use Rattle.message_words.specs.Answers.{read_code, read_words, tail_words, tlv_code, tlv_words, walked_code, walked_words, suffix_code, suffix_words, link_code, link_words, origin_words};

use refusal::Refusal;

// A message in twenty words, and where its tail begins and how long it is.
#[unsafe(no_mangle)]
pub extern "C" fn dz_read(
    octets: &[u8],
    magic: u16,
    message: &mut [u64; 20],
    tail: &mut [u64; 2],
) -> u64
    ensures answer { result ≡ read_code (read_of magic octets.now) }
    ensures words { message.new ≡ read_words (read_of magic octets.now) message.old }
    ensures rest { tail.new ≡ tail_words (read_of magic octets.now) (length (tail_in magic octets.now)) tail.old }
{
    let Some(b) = contents::sound::sound_bounds(octets, magic) else {
        return refusal::code(message::reading::check(octets, magic));
    };
    *tail = [b.size as u64, (b.length - b.size) as u64];
    message_words::reading::put_message(message, octets);
    0
}

// The first TLV of a type: 1, where its data begin in the message and how many octets they are; or zeros.
#[unsafe(no_mangle)]
pub extern "C" fn dz_lookup(octets: &[u8], kind: u16, magic: u16, found: &mut [u64; 3]) -> u64
    ensures answer { result ≡ tlv_code (lookup_of magic kind octets.now) }
    ensures words { found.new ≡ tlv_words (lookup_of magic kind octets.now) (length (data_in magic kind octets.now)) found.old }
{
    let x = contents::parts::looked_up(octets, kind, magic);
    let length = contents::parts::data_length(octets, x);
    message_words::answers::put_tlv(found, x, length)
}

// The TLV that stands at octet `from`, the first at 0: 1, where it stands in the message, its type, how many octets of data it has,
// where they begin and where it ends; or zeros where the message has ended.
#[unsafe(no_mangle)]
pub extern "C" fn dz_walk(octets: &[u8], from: usize, magic: u16, found: &mut [u64; 6]) -> u64
    ensures answer { result ≡ walked_code (next_in magic from octets.now) }
    ensures words { found.new ≡ walked_words (next_in magic from octets.now) found.old }
{
    message_words::answers::put_walked(found, contents::tlvs::next_tlv(octets, from, magic))
}

// The suffix of an Announce: 1 and wrFlags, or zeros.
#[unsafe(no_mangle)]
pub extern "C" fn dz_suffix(octets: &[u8], magic: u16, found: &mut [u64; 2]) -> u64
    ensures answer { result ≡ suffix_code (suffix_of magic octets.now) }
    ensures words { found.new ≡ suffix_words (suffix_of magic octets.now) found.old }
{
    message_words::answers::put_suffix(found, contents::parts::suffix(octets, magic))
}

// The link message of a Signaling: 1 and its six words, or zeros.
#[unsafe(no_mangle)]
pub extern "C" fn dz_link_message(octets: &[u8], magic: u16, found: &mut [u64; 7]) -> u64
    ensures answer { result ≡ link_code (link_of magic octets.now) }
    ensures words { found.new ≡ link_words (link_of magic octets.now) found.old }
{
    message_words::answers::put_link(found, contents::parts::link_message(octets, magic))
}

// The origin time of a Sync, from itself or from its Follow_Up: seconds and nanoseconds.
#[unsafe(no_mangle)]
pub extern "C" fn dz_origin<'a>(
    sync: &'a [u8],
    follow: &'a [u8],
    magic: u16,
    stamp: &mut [u64; 2],
) -> u64
    ensures answer { result ≡ code_of (origin_check magic sync.now follow.now) }
    ensures words { stamp.new ≡ origin_words (origin_check magic sync.now follow.now) (origin_in magic sync.now follow.now) stamp.old }
{
    match origin::origin_says(sync, follow, magic) {
        Err(x) => refusal::answer(x),
        Ok(()) => {
            message_words::answers::put_origin(stamp, origin::checked_origin(sync, follow));
            0
        }
    }
}
