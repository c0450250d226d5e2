#![tactic(auto, using(crate::proofs::BriefLaws::brief_laws), unfolding(crate::specs::Brief::brief_of, crate::specs::Words::link_of, crate::specs::Words::settings_of, link::specs::Machine::stepped))]
// A step in numbers, from the word that holds a link to the word that holds it afterwards: what a host is answered is written
// from these, with no values in between. What a link's CALIBRATED carries plays no part here, so its settings are one word.
//
// These functions stay beside those of `link`: written from what link::step answers, a call takes 193 instructions, and 120 are allowed.
ghost use Rattle.std.specs.Prelude.{◌≡◌};
ghost use Rattle.link.specs.Machine.{in_state, ignored, entered, link_on, resent, left, taken, stepped};
ghost use Rattle.links.specs.Words.{word_of, link_of, settings_of};
ghost use Rattle.links.specs.Brief.{brief_of, sent_in};

use link::{Event, Move, Role, State};
use tlv::form::{CALIBRATE, CALIBRATED, LOCK, LOCKED, MODE_ON, SLAVE_PRESENT};

// The link's word after a step, the number of the first message that it sends, 0 for none, whether CALIBRATED is sent after
// that, and whether the step reports link on.
#[derive(Clone, Copy)]
pub struct Brief {
    pub word: u64,
    pub sends: u64,
    pub both: bool,
    pub report: bool,
}

// The number of a state's message, 0 for none.
fn sent_in(state: State) -> u64
    ensures { result ≡ sent_in state }
{
    match state {
        State::Present => SLAVE_PRESENT.into(),
        State::MLock => LOCK.into(),
        State::Locked => LOCKED.into(),
        State::Calibration => CALIBRATE.into(),
        State::Calibrated => CALIBRATED.into(),
        State::Idle | State::SLock | State::RespCalibReq => 0,
    }
}

// Nothing is changed, sent or reported; bits that no link has are cleared.
fn ignored(w: u64) -> Brief
    ensures { result ≡ brief_of (ignored (link_of w)) }
{
    Brief {
        word: w % 8192,
        sends: 0,
        both: false,
        report: false,
    }
}

// The word of a link in a state just entered, with the mode that it had.
fn in_state(role: Role, state: State, w: u64) -> u64
    ensures { result ≡ word_of (in_state role state (link_of w).mode) }
{
    crate::state_number(state) + 8 * crate::role_number(role) + 16 * (w / 16 % 2)
}

// A state entered, with its message; CALIBRATION, where no calibration is needed, is passed through to CALIBRATED.
fn entered(settings: u64, w: u64, role: Role, state: State) -> Brief
    ensures { result ≡ brief_of (entered (settings_of settings 0 0) (link_of w).mode role state) }
{
    if state == State::Calibration && settings / 4 % 2 == 0 {
        return Brief {
            word: in_state(role, State::Calibrated, w),
            sends: CALIBRATE.into(),
            both: true,
            report: false,
        };
    }
    Brief {
        word: in_state(role, state, w),
        sends: sent_in(state),
        both: false,
        report: false,
    }
}

// Link on: IDLE with the mode on, and a master's WR_MODE_ON.
fn link_on(w: u64) -> Brief
    ensures { result ≡ brief_of (link_on (link_of w).role) }
{
    let role = w / 8 % 2;
    Brief {
        word: 8 * role + 16,
        sends: if role == 1 { MODE_ON.into() } else { 0 },
        both: false,
        report: true,
    }
}

// The state's message once more, and the retry count that this timeout brings.
fn resent(w: u64, retries: u8) -> Brief
    ensures { result ≡ brief_of (resent (settings_of 0 0 0) (link_of w) retries) }
{
    Brief {
        word: w % 32 + 32 * u64::from(retries),
        sends: sent_in(crate::state_of(w % 8)),
        both: false,
        report: false,
    }
}

// IDLE with the mode off.
fn left(w: u64) -> Brief
    ensures { result ≡ brief_of (left (link_of w).role) }
{
    Brief {
        word: 8 * (w / 8 % 2),
        sends: 0,
        both: false,
        report: false,
    }
}

// The step of a link that makes a move.
fn moved(settings: u64, w: u64, m: Move) -> Brief
    ensures { result ≡ brief_of (taken (settings_of settings 0 0) (link_of w) m) }
{
    match m {
        Move::Ignore => ignored(w),
        Move::Enter(role, state) => entered(settings, w, role, state),
        Move::LinkOn => link_on(w),
        Move::Resend(retries) => resent(w, retries),
        Move::Leave => left(w),
    }
}

// What an event does to the link in a word, by the settings in a word.
pub fn step(settings: u64, w: u64, e: Event) -> Brief
    ensures { result ≡ brief_of (stepped (settings_of settings 0 0) (link_of w) e) }
{
    let config = (settings % 4) as u8;
    moved(settings, w, link::asked(config, crate::link_of(w), e))
}
