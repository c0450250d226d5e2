#![tactic(auto)]
// The TLVs behind the fixed part of a message.
//
// `form` knows a TLV in White Rabbit form: which message it is, and whether its data have the right size. `walk` goes
// from TLV to TLV: what is no whole TLV of even length, the first suffix. `wr` says what a suffix holds. A tail is lent as
// its own slice; places are counted from its start. Nothing lent changes. Other searches are in `contents`, to the same
// definitions.
pub mod form;
pub mod walk;
pub mod wr;
