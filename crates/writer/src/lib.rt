#![tactic(auto)]
// Messages written into octets that the host lends: a message and its tail are checked, and both are written. Octets
// past the message stay as they were. A refusal leaves the whole buffer as it was.
pub mod writing;
