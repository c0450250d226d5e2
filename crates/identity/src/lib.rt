#![tactic(auto)]
// The name of a port of a clock, as messages carry it and as candidates are told apart by it.

// Ten octets: a clockIdentity, and the number of one of that clock's ports. Their order is that of the octets.
#[derive(Clone, Copy, Debug, PartialEq, Eq, PartialOrd, Ord)]
pub struct PortIdentity {
    pub clock: u64,
    pub port: u16,
}
