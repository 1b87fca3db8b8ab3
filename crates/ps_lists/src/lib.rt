//! Lemmas on lists, options, results and tests that std lacks, for the proofs of the crates above. It
//! has no function.
#![tactic(auto)]
