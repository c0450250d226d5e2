#![tactic(auto, unfolding(crate::specs::Words::word_of, crate::specs::Words::link_of, crate::specs::Words::settings_word, crate::specs::Words::settings_of, crate::specs::Words::setting_answer, crate::specs::Words::setting_words, crate::specs::Words::take_answer, crate::specs::Words::take_words, crate::specs::Words::look_answer, link::specs::States::state_of, refusal::specs::Choice::refuse))]
// Eighteen links and their settings, one a port, in 72 words that the host lends: four a port, which hold the link, its
// settings, deltaTx and deltaRx. Zeroed words are eighteen fresh links with config 0, and any words are links.
//
// A port outside 1 to 18 is refused with 8, a config above 3 with 18; the words are then as they were. Each call reads
// and writes its own port's words alone.
ghost use Rattle.std.specs.Prelude.{◌≡◌, ◌≤◌, not, Ok, Err, IfOk};
ghost use Rattle.link.specs.States.{state_number, state_of};
ghost use Rattle.links.specs.Words.{role_number, role_of, word_of, link_of, settings_word, settings_of, IsPort, base, setting_answer, setting_words, take_answer, take_words, look_answer};
ghost use Rattle.refusal.specs.Choice.{refuse};
ghost use Rattle.refusal.specs.Limits.{port_count};
ghost use Rattle.refusal.specs.declared.Refusal.TheVariants.{Port};

pub mod brief;

use link::{Event, Link, Role, Sends, Settings, State, Stepped};
use refusal::Refusal;

// The number of a state, in three bits of a word; IDLE is 0.
pub fn state_number(state: State) -> u64
    ensures { result ≡ state_number state }
{
    state as u64
}

// The state that a number stands for.
fn state_of(n: u64) -> State
    ensures { result ≡ state_of n }
{
    match n {
        1 => State::Present,
        2 => State::MLock,
        3 => State::SLock,
        4 => State::Locked,
        5 => State::Calibration,
        6 => State::Calibrated,
        7 => State::RespCalibReq,
        _ => State::Idle,
    }
}

// A role as a bit of a word; a slave is 0.
pub fn role_number(role: Role) -> u64
    ensures { result ≡ role_number role }
{
    role as u64
}

// The role that a bit stands for.
fn role_of(n: u64) -> Role
    ensures { result ≡ role_of n }
{
    if n == 1 { Role::Master } else { Role::Slave }
}

// A link in a word.
// These four stay functions: an `impl From` for a type of `link` and a number may not stand in this crate.
fn word_of(l: Link) -> u64
    ensures { result ≡ word_of l }
{
    state_number(l.state)
        + 8 * role_number(l.role)
        + 16 * u64::from(l.mode)
        + 32 * u64::from(l.retries)
}

// The link that a word holds; any word holds one.
fn link_of(w: u64) -> Link
    ensures { result ≡ link_of w }
{
    Link {
        role: role_of(w / 8 % 2),
        state: state_of(w % 8),
        retries: (w / 32 % 256) as u8,
        mode: w / 16 % 2 == 1,
    }
}

// The settings but for deltaTx and deltaRx in a word.
fn settings_word(s: Settings) -> u64
    ensures { result ≡ settings_word s }
{
    u64::from(s.config)
        + 4 * u64::from(s.calibrate)
        + 8 * u64::from(s.retry)
        + 2048 * u64::from(s.period)
}

// The settings that three words hold; any words hold some.
fn settings_of(w: u64, tx: u64, rx: u64) -> Settings
    ensures { result ≡ settings_of w tx rx }
{
    Settings {
        config: (w % 4) as u8,
        calibrate: w / 4 % 2 == 1,
        retry: (w / 8 % 256) as u8,
        period: (w / 2048 % 4294967296) as u32,
        tx,
        rx,
    }
}

// Where a port's four words begin. They are reached by index: of words written through `as_chunks_mut` its contract says nothing.
pub fn place(port: u8) -> usize
    requires { (1 ≤ port) × (port ≤ port_count) }
    ensures { (result ≡ base port) × (result ≤ 68) }
{
    4 * (usize::from(port) - 1)
}

// The same, or 8 where no port has the number.
pub fn placed(port: u8) -> Result<usize, Refusal>
    ensures answer { result ≡ refuse (not (IsPort port)) (Err Port) (Ok (base port)) }
    ensures within { IfOk result (λ at. at ≤ 68) }
{
    if refusal::is_port(port) {
        Ok(place(port))
    } else {
        Err(Refusal::Port)
    }
}

// Sets a port's link up.
pub fn set(words: &mut [u64; 72], port: u8, s: Settings) -> Result<(), Refusal>
    ensures answer { result ≡ setting_answer port s }
    ensures exit { words.new ≡ setting_words words.old port s }
{
    let at = placed(port)?;
    if 3 < s.config {
        return Err(Refusal::Field);
    }
    words[at + 1] = settings_word(s);
    words[at + 2] = s.tx;
    words[at + 3] = s.rx;
    Ok(())
}

// Takes an event on a port: the step of its link, under its settings.
pub fn take(words: &mut [u64; 72], port: u8, e: Event) -> Result<Stepped, Refusal>
    ensures answer { result ≡ take_answer words.old port e }
    ensures exit { words.new ≡ take_words words.old port e }
{
    let at = placed(port)?;
    let s = settings_of(words[at + 1], words[at + 2], words[at + 3]);
    let r = link::step(s, link_of(words[at]), e);
    words[at] = word_of(r.link);
    Ok(r)
}

// A port's link as it stands: what an event that is ignored answers.
pub fn look(words: &[u64; 72], port: u8) -> Result<Stepped, Refusal>
    ensures { result ≡ look_answer words.now port }
{
    let at = placed(port)?;
    Ok(Stepped {
        link: link_of(words[at]),
        sends: Sends::Nothing,
        report: false,
    })
}
