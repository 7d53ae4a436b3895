// pxfm's src/dyadic_float.rs: a sign, and an f64 from its parts.
ghost use Rattle.std.specs.Prelude.{◌≡◌};
ghost use Rattle.erfc.specs.Scaling.{sign_bit, from_parts};

use std::num::f64_from_bits_with_nan;

#[derive(Clone, Copy)]
pub enum DyadicSign {
    Pos = 0,
    Neg = 1,
}

impl DyadicSign {
    // Under the Rust's name.
    pub fn to_bit(self) -> u8
        ensures { result ≡ sign_bit self }
    {
        self as u8
    }
}

// The f64 with this sign, exponent field and digits, under the Rust's name; bits that run over are dropped, as in the Rust.
pub fn f64_from_parts(sign: DyadicSign, exp: u64, mantissa: u64) -> f64
    ensures { result ≡ from_parts sign exp mantissa }
{
    let r_sign = u64::from(sign.to_bit()).wrapping_shl(63);
    let r_exp = exp.wrapping_shl(52);
    f64_from_bits_with_nan(r_sign | r_exp | mantissa)
}
