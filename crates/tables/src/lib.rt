// The constant tables of the port.
#![tactic(auto)]

pub mod err;
pub mod exponents;
pub mod numbers;
