#![tactic(auto)]
// Two hosts bring a White Rabbit link up over octets: theorems over the machine of `link` in the words of `links`, what `wr_tlvs` writes
// and what `message` reads, in proofs/. There is no code here.
