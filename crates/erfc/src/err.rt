pub mod erf;
pub mod erfc;
