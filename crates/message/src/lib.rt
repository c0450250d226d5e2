#![tactic(auto)]
// The six messages of the engine, read from octets (IEEE 1588-2008, clause 13).
//
// `fields` has the structs of a message and where their fields stand; `reading` checks the octets lent, in the order
// of 01; `announce` reads an Announce with its suffix. Messages of any type, and what else they hold, are read by `contents`,
// which who hears Announces alone does not need.
// Octets past messageLength are padding, reserved fields and controlField are ignored. Nothing lent changes.
pub mod announce;
pub mod fields;
pub mod reading;
