// Lemmas on f64 numbers: specs/ and proofs/ hold them, and other crates cite them.
#![tactic(auto)]

pub fn lemmas() {}
