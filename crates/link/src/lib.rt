#![tactic(auto)]
// The White Rabbit link (01, "The WR link"): the machine that brings a link up, slave and master. A link is a small value, and
// a step takes it and an event to the next link, to what is sent, and to the report that the link is on.
//
// Nothing is refused here: what no rule names is ignored, and answered with the link as it was and nothing to send. When a
// start is due (the PTP states of 001, 6.7.1), how long a timeout lasts, what a received CALIBRATE or CALIBRATED carries, and
// the header and target of the Signaling that a message goes out in are the host's.
ghost use Rattle.std.specs.Prelude.{◌≡◌};
ghost use Rattle.link.specs.Machine.{CanSlave, CanMaster, on_start, on_slave_present, slave_waits, master_waits, waits_of, on_message, on_done, on_timeout, asked, calibrate_of, calibrated_of, message_of, mode_on_of, fresh, ignored, in_state, entered, link_on, resent, left, taken, stepped};

use tlv::form::{CALIBRATE, CALIBRATED, LOCK, LOCKED, MODE_ON, SLAVE_PRESENT};
use tlv::wr::LinkMessage;

// Which side of the link a port is.
#[derive(Clone, Copy)]
pub enum Role {
    Slave,
    Master,
}

// The states of 003, Table 5. Link on is no state to stay in: the state is IDLE at once.
#[derive(Clone, Copy, PartialEq, Eq)]
pub enum State {
    Idle,
    Present,
    MLock,
    SLock,
    Locked,
    Calibration,
    Calibrated,
    RespCalibReq,
}

// A port's link. Its role is that of the last start.
#[derive(Clone, Copy)]
pub struct Link {
    pub role: Role,
    pub state: State,
    pub retries: u8,
    pub mode: bool,
}

// A port's settings: config 0 none, 1 master only, 2 slave only, 3 both; whether it needs calibration; and what its
// CALIBRATE (retry, period) and CALIBRATED (deltaTx, deltaRx) carry.
#[derive(Clone, Copy)]
pub struct Settings {
    pub config: u8,
    pub calibrate: bool,
    pub retry: u8,
    pub period: u32,
    pub tx: u64,
    pub rx: u64,
}

// What happens to a link. A start comes with the parent's config and mode, a message with its number.
#[derive(Clone, Copy)]
pub enum Event {
    Start { config: u8, mode: bool },
    Message(u16),
    Done,
    Timeout,
    Stop,
}

// What a step sends. The host puts each message into a Signaling.
#[derive(Clone, Copy)]
pub enum Sends {
    Nothing,
    One(LinkMessage),
    Two(LinkMessage, LinkMessage),
}

// What a step answers: the link after it, what is sent, and whether it reports link on.
#[derive(Clone, Copy)]
pub struct Stepped {
    pub link: Link,
    pub sends: Sends,
    pub report: bool,
}

// What the rules make of an event. A resend comes with the retry count that it brings.
#[derive(Clone, Copy)]
pub enum Move {
    Ignore,
    Enter(Role, State),
    LinkOn,
    Resend(u8),
    Leave,
}

// What a state waits for, and the move that it then makes.
#[derive(Clone, Copy)]
pub enum Waits {
    Nothing,
    Message(u16, Move),
    Hardware(Move),
}

// Config 2 or 3.
fn can_slave(config: u8) -> bool
    ensures { result ≡ CanSlave config }
{
    matches!(config, 2 | 3)
}

// Config 1 or 3.
fn can_master(config: u8) -> bool
    ensures { result ≡ CanMaster config }
{
    matches!(config, 1 | 3)
}

// A slave starts from IDLE, by the two configs, while not both modes are on.
#[tactic(auto, unfolding(crate::specs::Machine::on_start))]
fn on_start(config: u8, l: Link, parent: u8, on: bool) -> Move
    ensures { result ≡ on_start config l parent on }
{
    if l.state == State::Idle && can_slave(config) && can_master(parent) && !(l.mode && on) {
        Move::Enter(Role::Slave, State::Present)
    } else {
        Move::Ignore
    }
}

// A master starts on SLAVE_PRESENT.
#[tactic(auto, unfolding(crate::specs::Machine::on_slave_present))]
fn on_slave_present(config: u8, number: u16) -> Move
    ensures { result ≡ on_slave_present config number }
{
    if can_master(config) && number == SLAVE_PRESENT {
        Move::Enter(Role::Master, State::MLock)
    } else {
        Move::Ignore
    }
}

// A slave's way up.
fn slave_waits(state: State) -> Waits
    ensures { result ≡ slave_waits state }
{
    match state {
        State::Present => Waits::Message(LOCK, Move::Enter(Role::Slave, State::SLock)),
        State::SLock => Waits::Hardware(Move::Enter(Role::Slave, State::Locked)),
        State::Locked => Waits::Message(CALIBRATE, Move::Enter(Role::Slave, State::RespCalibReq)),
        State::RespCalibReq => Waits::Message(
            CALIBRATED,
            Move::Enter(Role::Slave, State::Calibration),
        ),
        State::Calibration => Waits::Hardware(Move::Enter(Role::Slave, State::Calibrated)),
        State::Calibrated => Waits::Message(MODE_ON, Move::LinkOn),
        State::Idle | State::MLock => Waits::Nothing,
    }
}

// A master's way up.
fn master_waits(state: State) -> Waits
    ensures { result ≡ master_waits state }
{
    match state {
        State::MLock => Waits::Message(LOCKED, Move::Enter(Role::Master, State::Calibration)),
        State::Calibration => Waits::Hardware(Move::Enter(Role::Master, State::Calibrated)),
        State::Calibrated => Waits::Message(
            CALIBRATE,
            Move::Enter(Role::Master, State::RespCalibReq),
        ),
        State::RespCalibReq => Waits::Message(CALIBRATED, Move::LinkOn),
        State::Idle | State::Present | State::SLock | State::Locked => Waits::Nothing,
    }
}

// What a link waits for, by its role.
fn waits_of(role: Role, state: State) -> Waits
    ensures { result ≡ waits_of role state }
{
    match role {
        Role::Slave => slave_waits(state),
        Role::Master => master_waits(state),
    }
}

// A message moves a link that waits for that number.
fn on_message(waits: Waits, number: u16) -> Move
    ensures { result ≡ on_message waits number }
{
    match waits {
        Waits::Message(awaited, then) if number == awaited => then,
        _ => Move::Ignore,
    }
}

// Hardware done moves a link that waits for the hardware.
fn on_done(waits: Waits) -> Move
    ensures { result ≡ on_done waits }
{
    match waits {
        Waits::Hardware(then) => then,
        _ => Move::Ignore,
    }
}

// A timeout resends three times; the fourth leaves for IDLE.
#[tactic(auto, unfolding(crate::specs::Machine::on_timeout))]
fn on_timeout(state: State, retries: u8) -> Move
    ensures { result ≡ on_timeout state retries }
{
    if state == State::Idle {
        Move::Ignore
    } else if retries < 3 {
        Move::Resend(retries + 1)
    } else {
        Move::Leave
    }
}

// The move that an event asks of a link.
pub fn asked(config: u8, l: Link, e: Event) -> Move
    ensures { result ≡ asked config l e }
{
    match e {
        Event::Start {
            config: parent,
            mode: on,
        } => on_start(config, l, parent, on),
        Event::Message(number) if l.state == State::Idle => on_slave_present(config, number),
        Event::Message(number) => on_message(waits_of(l.role, l.state), number),
        Event::Done => on_done(waits_of(l.role, l.state)),
        Event::Timeout => on_timeout(l.state, l.retries),
        Event::Stop => Move::Leave,
    }
}

// CALIBRATE, with pattern 1 where the port needs calibration, else 0.
fn calibrate(s: Settings) -> LinkMessage
    ensures { result ≡ calibrate_of s }
{
    LinkMessage::Calibrate {
        pattern: u8::from(s.calibrate),
        retry: s.retry,
        period: s.period,
    }
}

// CALIBRATED, with the port's latencies.
fn calibrated(s: Settings) -> LinkMessage
    ensures { result ≡ calibrated_of s }
{
    LinkMessage::Calibrated { tx: s.tx, rx: s.rx }
}

// The state's message, if any.
fn message_of(s: Settings, state: State) -> Sends
    ensures { result ≡ message_of s state }
{
    match state {
        State::Present => Sends::One(LinkMessage::SlavePresent),
        State::MLock => Sends::One(LinkMessage::Lock),
        State::Locked => Sends::One(LinkMessage::Locked),
        State::Calibration => Sends::One(calibrate(s)),
        State::Calibrated => Sends::One(calibrated(s)),
        State::Idle | State::SLock | State::RespCalibReq => Sends::Nothing,
    }
}

// A master sends WR_MODE_ON as its link goes on.
fn mode_on_of(role: Role) -> Sends
    ensures { result ≡ mode_on_of role }
{
    match role {
        Role::Slave => Sends::Nothing,
        Role::Master => Sends::One(LinkMessage::ModeOn),
    }
}

// Nothing is changed, sent or reported.
fn ignored(l: Link) -> Stepped
    ensures { result ≡ ignored l }
{
    Stepped {
        link: l,
        sends: Sends::Nothing,
        report: false,
    }
}

// A change of state zeroes the retry count.
fn in_state(role: Role, state: State, mode: bool) -> Link
    ensures { result ≡ in_state role state mode }
{
    Link {
        role,
        state,
        retries: 0,
        mode,
    }
}

// The link of a port that has not started: IDLE with mode off.
pub fn fresh() -> Link
    ensures { result ≡ fresh }
{
    in_state(Role::Slave, State::Idle, false)
}

// A state entered sends its message. Where no calibration is needed CALIBRATION goes on to CALIBRATED in one step.
fn entered(s: Settings, mode: bool, role: Role, state: State) -> Stepped
    ensures { result ≡ entered s mode role state }
{
    if state == State::Calibration && !s.calibrate {
        return Stepped {
            link: in_state(role, State::Calibrated, mode),
            sends: Sends::Two(calibrate(s), calibrated(s)),
            report: false,
        };
    }
    Stepped {
        link: in_state(role, state, mode),
        sends: message_of(s, state),
        report: false,
    }
}

// Link on sets the mode, and the state is IDLE.
fn link_on(role: Role) -> Stepped
    ensures { result ≡ link_on role }
{
    Stepped {
        link: in_state(role, State::Idle, true),
        sends: mode_on_of(role),
        report: true,
    }
}

// The state's message once more, and the retry count that this timeout brings.
fn resent(s: Settings, l: Link, retries: u8) -> Stepped
    ensures { result ≡ resent s l retries }
{
    Stepped {
        link: Link { retries, ..l },
        sends: message_of(s, l.state),
        report: false,
    }
}

// IDLE with mode off.
fn left(role: Role) -> Stepped
    ensures { result ≡ left role }
{
    Stepped {
        link: in_state(role, State::Idle, false),
        sends: Sends::Nothing,
        report: false,
    }
}

// The step of a link that makes a move.
fn taken(s: Settings, l: Link, m: Move) -> Stepped
    ensures { result ≡ taken s l m }
{
    match m {
        Move::Ignore => ignored(l),
        Move::Enter(role, state) => entered(s, l.mode, role, state),
        Move::LinkOn => link_on(l.role),
        Move::Resend(retries) => resent(s, l, retries),
        Move::Leave => left(l.role),
    }
}

// What an event does to a link, by the port's settings of the moment.
#[tactic(auto, unfolding(crate::specs::Machine::stepped))]
pub fn step(s: Settings, l: Link, e: Event) -> Stepped
    ensures { result ≡ stepped s l e }
{
    taken(s, l, asked(s.config, l, e))
}
