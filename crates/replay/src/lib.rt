// The comparison with answers of the Rust, line by line.
#![tactic(auto)]

pub mod compare;
pub mod line;
