// The tail and the flat ends of pxfm's f_erfc, over any arithmetic.
#![tactic(auto)]

pub mod answer;
pub mod argument;
pub mod classes;
pub mod dyadic_float;
pub mod err;
pub mod exponents;
pub mod horner;
pub mod rounding;
pub mod rows;
