#![tactic(auto)]
// The numbers that refuse. A call that cannot be answered says why by one of these, and nothing that was
// lent to it has changed. Which of them a call gives, and in which order it looks, is said where the call is.
ghost use Rattle.std.specs.Prelude.{◌≡◌};
ghost use Rattle.refusal.specs.Limits.{is_port};
ghost use Rattle.refusal.specs.Refusal.{number_of, place_of, answer_of, code_of};

// The ports of the clock are numbered from 1 to this.
pub const PORTS: usize = 18;

// Whether the clock has a port of this number.
pub fn is_port(p: u8) -> bool
    ensures { result ≡ is_port p }
{
    (1..=PORTS as u8).contains(&p)
}

// The nanoseconds of a second.
pub const SECOND_NANOS: u32 = 1_000_000_000;

// The table's twenty-two rows, by the names it gives them. What refuses a TLV says where in the message it stands.
#[derive(Clone, Copy, PartialEq, Eq, Debug)]
pub enum Refusal {
    Short,
    Version,
    Type,
    Length,
    Stamp,
    Tlv(u16),
    WrBad(u16),
    Port,
    Domain,
    Own,
    Backward,
    Stale,
    Full,
    Range,
    Unranked,
    Room,
    Many,
    Field,
    Long,
    Block,
    Pcap,
    Export,
}

// The row's number, 1 to 22.
pub fn number(x: Refusal) -> u64
    ensures { result ≡ number_of x }
{
    match x {
        Refusal::Short => 1,
        Refusal::Version => 2,
        Refusal::Type => 3,
        Refusal::Length => 4,
        Refusal::Stamp => 5,
        Refusal::Tlv(_) => 6,
        Refusal::WrBad(_) => 7,
        Refusal::Port => 8,
        Refusal::Domain => 9,
        Refusal::Own => 10,
        Refusal::Backward => 11,
        Refusal::Stale => 12,
        Refusal::Full => 13,
        Refusal::Range => 14,
        Refusal::Unranked => 15,
        Refusal::Room => 16,
        Refusal::Many => 17,
        Refusal::Field => 18,
        Refusal::Long => 19,
        Refusal::Block => 20,
        Refusal::Pcap => 21,
        Refusal::Export => 22,
    }
}

// Where in the message the TLV stands that is refused; 0 of a refusal that has no place.
fn place(x: Refusal) -> u16
    ensures { result ≡ place_of x }
{
    match x {
        Refusal::Tlv(at) | Refusal::WrBad(at) => at,
        _ => 0,
    }
}

// Number and place in one word, the number in its low eight bits: what a host written in C is handed.
pub fn answer(x: Refusal) -> u64
    ensures { result ≡ answer_of x }
{
    number(x) + 256 * place(x) as u64
}

// 0 where the work is done, else the refusal's number and place.
pub fn code(x: Result<(), Refusal>) -> u64
    ensures { result ≡ code_of x }
{
    match x {
        Ok(()) => 0,
        Err(y) => answer(y),
    }
}
