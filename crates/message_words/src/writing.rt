// What writing is handed in words, and what it answers.
ghost use Rattle.std.specs.Prelude.{◌≡◌, ◌≤◌, [], ◌∷◌};
ghost use Rattle.message_words.specs.Writing.{link_message_of, link_words_for, is_link, written_code, written_words};

use crate::answers::{CALIBRATE, CALIBRATED, LOCK, LOCKED, SLAVE_PRESENT};
use refusal::Refusal;
use tlv::wr::LinkMessage;

// The link message in six words; a number that is none of the six is not this message's, and `is_link` refuses it.
pub fn link_message_of(w: &[u64; 6]) -> LinkMessage
    ensures { result ≡ link_message_of w.now }
{
    let number = w[0];
    match number {
        SLAVE_PRESENT => LinkMessage::SlavePresent,
        LOCK => LinkMessage::Lock,
        LOCKED => LinkMessage::Locked,
        CALIBRATE => LinkMessage::Calibrate {
            pattern: (w[1] % 256) as u8,
            retry: (w[2] % 256) as u8,
            period: (w[3] % 0x1_0000_0000) as u32,
        },
        CALIBRATED => LinkMessage::Calibrated { tx: w[4], rx: w[5] },
        _ => LinkMessage::ModeOn,
    }
}

// How many of the words have to be looked at: the number, and what a CALIBRATE carries; any deltaTx and deltaRx fit.
fn words_for(number: u64) -> usize
    ensures { (result ≡ link_words_for number) × (result ≤ 6) }
{
    if number == CALIBRATE { 4 } else { 1 }
}

// Whether words are those of the link message that is read out of them, each number within its field.
pub fn is_link(w: &[u64; 6]) -> bool
    ensures { result ≡ is_link w.now }
{
    let n = words_for(w[0]);
    let own = crate::answers::link_message_words(link_message_of(w));
    crate::are_same(&own[..n], &w[..n])
}

// How many octets the message has that was written.
fn length_words(n: usize) -> [u64; 1]
    ensures { result ≡ n ∷ [] }
{
    [n as u64]
}

pub fn put_written(out: &mut [u64; 1], x: Result<usize, Refusal>) -> u64
    ensures answer { result ≡ written_code x }
    ensures words { out.new ≡ written_words x out.old }
{
    words::put(out, x.map(length_words).map_err(refusal::answer))
}
