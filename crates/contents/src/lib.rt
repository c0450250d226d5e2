#![tactic(auto)]
// What a message holds, read from octets: all of it, and part by part.
//
// `whole` reads a message of any type; `parts` hands back parts of one: its tail, the data of a TLV, what White Rabbit's TLVs
// say; `tlvs` goes through its TLVs one by one; `sound` has the lengths of a message in which nothing is wrong, checked once.
// `search` and `wr` are what they look for TLVs by. The checks are those of `message::reading`, the definitions those of `message`
// and `tlv`, but for what stands here. Nothing lent changes.
pub mod parts;
pub mod search;
pub mod sound;
pub mod tlvs;
pub mod whole;
pub mod wr;
