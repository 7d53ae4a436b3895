// Number pairs, the interface of arithmetic, and the two arithmetics of pxfm's compile-time branches.
#![tactic(auto)]

pub mod arithmetic;
pub mod double_double;
pub mod fused;
pub mod plain;
