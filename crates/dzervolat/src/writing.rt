// Messages written into octets that the host lends. Words that a field cannot hold are refused with 18, as all that does not fit is;
// then 16 where there is no room. Octets past the message stay as they were.
ghost use Rattle.std.specs.Prelude.{◌≡◌};
ghost use Rattle.wr_tlvs.specs.Built.{suffix_octets};
ghost use Rattle.message_words.specs.Writing.{written_code, written_words};
ghost use Rattle.dzervolat.specs.Writing.{words_written, words_buffer, is_signaling, link_written, link_buffer};

use refusal::Refusal;

// The message of twenty words and its tail.
fn write(out: &mut [u8], message: &[u64; 20], tail: &[u8], magic: u16) -> Result<usize, Refusal>
    ensures answer { result ≡ words_written magic message.now tail.now out.old }
    ensures buffer { out.new ≡ words_buffer magic message.now tail.now out.old }
{
    if !message_words::is_whole(message) {
        return Err(Refusal::Field);
    }
    message_words::straight::write(out, message, tail, magic)
}

// Writes a message and its tail, and says how many octets they have.
#[unsafe(no_mangle)]
pub extern "C" fn dz_write(
    out: &mut [u8],
    message: &[u64; 20],
    tail: &[u8],
    magic: u16,
    length: &mut [u64; 1],
) -> u64
    ensures answer { result ≡ written_code (words_written magic message.now tail.now out.old) }
    ensures buffer { out.new ≡ words_buffer magic message.now tail.now out.old }
    ensures words { length.new ≡ written_words (words_written magic message.now tail.now out.old) length.old }
{
    let w = write(out, message, tail, magic);
    message_words::writing::put_written(length, w)
}

// Whether twenty words are a Signaling, and six a link message, each number within its field.
fn is_signaling(message: &[u64; 20], link: &[u64; 6]) -> bool
    ensures { result ≡ is_signaling message.now link.now }
{
    let whole = message_words::is_whole(message);
    let known = message_words::writing::is_link(link);
    (message[0] == 0xC) & whole & known
}

// The Signaling of twenty words with one link message of six.
fn write_link(
    out: &mut [u8],
    message: &[u64; 20],
    link: &[u64; 6],
    magic: u16,
) -> Result<usize, Refusal>
    ensures answer { result ≡ link_written magic message.now link.now out.old }
    ensures buffer { out.new ≡ link_buffer magic message.now link.now out.old }
{
    if !is_signaling(message, link) {
        return Err(Refusal::Field);
    }
    let h = message_words::header_of(message);
    let target = message_words::identity_at(message, 9);
    let x = message_words::writing::link_message_of(link);
    wr_tlvs::write_link(out, h, target, x, magic)
}

// Writes a Signaling with one link message, and says how many octets it has.
#[unsafe(no_mangle)]
pub extern "C" fn dz_write_link(
    out: &mut [u8],
    message: &[u64; 20],
    link: &[u64; 6],
    magic: u16,
    length: &mut [u64; 1],
) -> u64
    ensures answer { result ≡ written_code (link_written magic message.now link.now out.old) }
    ensures buffer { out.new ≡ link_buffer magic message.now link.now out.old }
    ensures words { length.new ≡ written_words (link_written magic message.now link.now out.old) length.old }
{
    let w = write_link(out, message, link, magic);
    message_words::writing::put_written(length, w)
}

// The suffix of an Announce, fourteen octets that are its tail; it refuses nothing.
#[unsafe(no_mangle)]
pub extern "C" fn dz_write_suffix(flags: u16, magic: u16, tail: &mut [u8; 14]) -> u64
    ensures answer { result ≡ 0 }
    ensures octets { tail.new ≡ suffix_octets magic flags }
{
    let t = wr_tlvs::suffix(flags, magic);
    let o = t.octets;
    *tail = [
        o[0], o[1], o[2], o[3], o[4], o[5], o[6], o[7], o[8], o[9], o[10], o[11], o[12], o[13],
    ];
    0
}
