#![tactic(auto, unfolding(crate::specs::Events::link_words, crate::specs::Events::with_calibrate, crate::specs::Events::with_calibrated, crate::specs::Events::with_second, crate::specs::Events::brief_words))]
// An event on a port's link, answered in words. They are written from the step in numbers, and from the settings' words where a
// message is sent that carries them.
ghost use Rattle.std.specs.Prelude.{◌≡◌};
ghost use Rattle.links.specs.Words.{take_answer, take_words};
ghost use Rattle.link_words.specs.Steps.{taken_code, taken_words};
ghost use Rattle.link_words.specs.Events.{link_words, with_calibrate, with_calibrated, with_second, brief_words};

use link::Event;
use links::brief::Brief;
use refusal::Refusal;
use tlv::form::{CALIBRATE, CALIBRATED};

// The link, the report, how many messages are sent, and the number of the first.
fn put_link(b: Brief, out: &mut [u64; 18])
    ensures { out.new ≡ link_words b }
{
    let w = b.word;
    *out = [0; 18];
    out[0] = w % 8;
    out[1] = w / 8 % 2;
    out[2] = w / 16 % 2;
    out[3] = w / 32;
    out[4] = b.report.into();
    out[5] = u64::from(b.sends != 0) + u64::from(b.both);
    out[6] = b.sends;
}

// What CALIBRATE carries.
fn put_calibrate(settings: u64, sends: u64, out: &mut [u64; 18])
    ensures { out.new ≡ with_calibrate settings sends out.old }
{
    if sends == u64::from(CALIBRATE) {
        out[7] = settings / 4 % 2;
        out[8] = settings / 8 % 256;
        out[9] = settings / 2048 % 4294967296;
    }
}

// What CALIBRATED carries.
fn put_calibrated(tx: u64, rx: u64, sends: u64, out: &mut [u64; 18])
    ensures { out.new ≡ with_calibrated tx rx sends out.old }
{
    if sends == u64::from(CALIBRATED) {
        out[10] = tx;
        out[11] = rx;
    }
}

// CALIBRATED as the second message.
fn put_second(tx: u64, rx: u64, both: bool, out: &mut [u64; 18])
    ensures { out.new ≡ with_second tx rx both out.old }
{
    if both {
        out[12] = CALIBRATED.into();
        out[16] = tx;
        out[17] = rx;
    }
}

// A step's words.
fn put_brief(settings: u64, tx: u64, rx: u64, b: Brief, out: &mut [u64; 18])
    ensures { out.new ≡ brief_words settings tx rx b }
{
    put_link(b, out);
    put_calibrate(settings, b.sends, out);
    put_calibrated(tx, rx, b.sends, out);
    put_second(tx, rx, b.both, out);
}

// Takes an event on a port.
#[tactic(auto, using(crate::proofs::EventLaws::step_words_lem, crate::proofs::EventLaws::step_word_lem), unfolding(links::specs::Words::take_answer, links::specs::Words::take_words, refusal::specs::Choice::refuse))]
pub fn take(words: &mut [u64; 72], port: u8, e: Event, out: &mut [u64; 18]) -> u64
    ensures answer { result ≡ taken_code (take_answer words.old port e) }
    ensures words { words.new ≡ take_words words.old port e }
    ensures step { out.new ≡ taken_words (take_answer words.old port e) out.old }
{
    let Ok(at) = links::placed(port) else {
        return refusal::number(Refusal::Port);
    };
    let settings = words[at + 1];
    let tx = words[at + 2];
    let rx = words[at + 3];
    let b = links::brief::step(settings, words[at], e);
    words[at] = b.word;
    put_brief(settings, tx, rx, b, out);
    0
}
