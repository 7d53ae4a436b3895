// Tests of the crates below, as tables, and an arithmetic of their own.
#![tactic(auto)]

pub mod alternating;
#[cfg(test)]
mod answers;
#[cfg(test)]
mod lines;
