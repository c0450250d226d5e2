// Eighteen White Rabbit links, in 72 words that the host keeps: zeroed words are fresh links with config 0. Each event answers the
// step of the port's link in eighteen words.
ghost use Rattle.std.specs.Prelude.{◌≡◌, not, eqb};
ghost use Rattle.refusal.specs.Refusal.{code_of};
ghost use Rattle.links.specs.Words.{setting_answer, setting_words, take_answer, take_words, look_answer};
ghost use Rattle.link_words.specs.Steps.{taken_code, taken_words};
ghost use Rattle.words.specs.Words.{port_of};
ghost use Rattle.dzervolat.specs.Settings.{link_settings};

use link::{Event, Settings};

// Sets a port's link up: its config, whether it needs calibration, and what its CALIBRATE and CALIBRATED carry.
#[unsafe(no_mangle)]
pub extern "C" fn dz_link_set(
    links: &mut [u64; 72],
    port: u64,
    config: u8,
    calibrate: u8,
    retry: u8,
    period: u32,
    tx: u64,
    rx: u64,
) -> u64
    ensures answer { result ≡ code_of (setting_answer (port_of port) (link_settings config calibrate retry period tx rx)) }
    ensures words { links.new ≡ setting_words links.old (port_of port) (link_settings config calibrate retry period tx rx) }
{
    let s = Settings {
        config,
        calibrate: calibrate != 0,
        retry,
        period,
        tx,
        rx,
    };
    let p = words::port_of(port);
    refusal::code(links::set(links, p, s))
}

// An event on a port's link, and its step.
fn step(links: &mut [u64; 72], port: u64, e: Event, step: &mut [u64; 18]) -> u64
    ensures answer { result ≡ taken_code (take_answer links.old (port_of port) e) }
    ensures words { links.new ≡ take_words links.old (port_of port) e }
    ensures step { step.new ≡ taken_words (take_answer links.old (port_of port) e) step.old }
{
    let p = words::port_of(port);
    link_words::events::take(links, p, e, step)
}

// A start, with the parent's config and mode.
#[unsafe(no_mangle)]
pub extern "C" fn dz_link_start(
    links: &mut [u64; 72],
    port: u64,
    config: u8,
    mode: u8,
    after: &mut [u64; 18],
) -> u64
    ensures answer { result ≡ taken_code (take_answer links.old (port_of port) (Event.Start config (not (eqb mode 0)))) }
    ensures words { links.new ≡ take_words links.old (port_of port) (Event.Start config (not (eqb mode 0))) }
    ensures step { after.new ≡ taken_words (take_answer links.old (port_of port) (Event.Start config (not (eqb mode 0)))) after.old }
{
    let on = mode != 0;
    step(links, port, Event::Start { config, mode: on }, after)
}

// A link message, by its number.
#[unsafe(no_mangle)]
pub extern "C" fn dz_link_take(
    links: &mut [u64; 72],
    port: u64,
    number: u16,
    after: &mut [u64; 18],
) -> u64
    ensures answer { result ≡ taken_code (take_answer links.old (port_of port) (Event.Message number)) }
    ensures words { links.new ≡ take_words links.old (port_of port) (Event.Message number) }
    ensures step { after.new ≡ taken_words (take_answer links.old (port_of port) (Event.Message number)) after.old }
{
    step(links, port, Event::Message(number), after)
}

// The hardware is done.
#[unsafe(no_mangle)]
pub extern "C" fn dz_link_done(links: &mut [u64; 72], port: u64, after: &mut [u64; 18]) -> u64
    ensures answer { result ≡ taken_code (take_answer links.old (port_of port) Event.Done) }
    ensures words { links.new ≡ take_words links.old (port_of port) Event.Done }
    ensures step { after.new ≡ taken_words (take_answer links.old (port_of port) Event.Done) after.old }
{
    step(links, port, Event::Done, after)
}

// A timeout.
#[unsafe(no_mangle)]
pub extern "C" fn dz_link_timeout(links: &mut [u64; 72], port: u64, after: &mut [u64; 18]) -> u64
    ensures answer { result ≡ taken_code (take_answer links.old (port_of port) Event.Timeout) }
    ensures words { links.new ≡ take_words links.old (port_of port) Event.Timeout }
    ensures step { after.new ≡ taken_words (take_answer links.old (port_of port) Event.Timeout) after.old }
{
    step(links, port, Event::Timeout, after)
}

// A stop.
#[unsafe(no_mangle)]
pub extern "C" fn dz_link_stop(links: &mut [u64; 72], port: u64, after: &mut [u64; 18]) -> u64
    ensures answer { result ≡ taken_code (take_answer links.old (port_of port) Event.Stop) }
    ensures words { links.new ≡ take_words links.old (port_of port) Event.Stop }
    ensures step { after.new ≡ taken_words (take_answer links.old (port_of port) Event.Stop) after.old }
{
    step(links, port, Event::Stop, after)
}

// A port's link as it stands, without an event.
#[unsafe(no_mangle)]
pub extern "C" fn dz_link_status(links: &[u64; 72], port: u64, after: &mut [u64; 18]) -> u64
    ensures answer { result ≡ taken_code (look_answer links.now (port_of port)) }
    ensures step { after.new ≡ taken_words (look_answer links.now (port_of port)) after.old }
{
    let p = words::port_of(port);
    link_words::put_taken(after, links::look(links, p))
}
