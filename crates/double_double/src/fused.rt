// The branch with fma, its multiply-add in integer code.
ghost use Rattle.std.specs.Prelude.{◌≡◌};
ghost use Rattle.std.specs.Float.{float_mul_add, binary64};
ghost use Rattle.double_double.specs.Domain.{Domain};
ghost use Rattle.double_double.specs.Plain.{plain_multiply_add};
ghost use Rattle.double_double.specs.Fused.{bounded, reaches, fused_domain, low_is_exact, fused_multiply_add, fused_product, fused_ops};
ghost use Rattle.double_double.specs.Meanings.{fused_meaning};
ghost use Rattle.double_double.specs.FusedMeaning.{fused_exact};

use crate::arithmetic::{Arithmetic, ExactProducts};
use crate::double_double::DoubleDouble;
use crate::plain;
use std::num::f64_from_bits_with_nan;

#[derive(Clone, Copy, Drop)]
pub struct Fused;

// Finite and at most 2^400 in size.
fn is_bounded(x: f64) -> bool
    ensures { result ≡ bounded x }
{
    x.abs() <= f64_from_bits_with_nan(0x58f0000000000000)
}

// |a * b| is at least 2^-960. Where the rounded product is 2^-960 itself, what it lost decides.
fn product_reaches(a: f64, b: f64) -> bool
    ensures { result ≡ reaches a b }
{
    let least = f64_from_bits_with_nan(0x03f0000000000000);
    let size = (a * b).abs();
    if least < size {
        return true;
    }
    if least == size {
        // 2^480, so that nothing that was lost lies below the smallest f64
        let up = f64_from_bits_with_nan(0x5df0000000000000);
        let p = plain::dekker_product(a.abs() * up, b.abs() * up);
        return 0.0 <= p.lo;
    }
    false
}

// Where the multiply-add rounds once.
#[tactic(auto, unfolding(crate::specs::Fused::fused_domain))]
fn in_fused_domain(a: f64, b: f64, c: f64) -> bool
    ensures { result ≡ fused_domain a b c }
{
    is_bounded(a)
        && is_bounded(b)
        && is_bounded(c)
        && (a == 0.0 || b == 0.0 || product_reaches(a, b))
        && (c == 0.0 || f64_from_bits_with_nan(0x03f0000000000000) <= c.abs())
}

// a * b + c: rounded once in the domain, plain's steps elsewhere.
fn multiply_add(a: f64, b: f64, c: f64) -> f64
    ensures { result ≡ fused_multiply_add a b c }
{
    if in_fused_domain(a, b, c) {
        a.mul_add(b, c)
    } else {
        plain::dd_f64_mul_add(a, b, c)
    }
}

// a * b + c: IEEE 754's fusedMultiplyAdd in the domain.
#[tactic(auto, using(crate::specs::FusedMeaning::domain_true, crate::specs::FusedMeaning::domain_in))]
pub fn f_fmla(a: f64, b: f64, c: f64) -> f64
    ensures value { result ≡ fused_multiply_add a b c }
    ensures inside { Domain a b c → result ≡ float_mul_add binary64 a b c }
    ensures outside { (Domain a b c → ⊥) → result ≡ plain_multiply_add a b c }
{
    multiply_add(a, b, c)
}

// Plain's low part is a * b - hi exactly, where hi is a * b rounded.
fn low_part_is_exact(a: f64, b: f64, hi: f64) -> bool
    ensures { result ≡ low_is_exact a b hi }
{
    // 2^-899, so that a * b is at least 2^-900 in size
    is_bounded(a)
        && is_bounded(b)
        && is_bounded(hi)
        && f64_from_bits_with_nan(0x07c0000000000000) <= hi.abs()
}

// a * b with the low part of the multiply-add.
#[tactic(auto, using(crate::proofs::FusedLow::low_by_test))]
fn fused_product(a: f64, b: f64) -> DoubleDouble
    ensures { result ≡ fused_product a b }
{
    let p = plain::dekker_product(a, b);
    if low_part_is_exact(a, b, p.hi) {
        // both low parts are a * b - hi; the sum makes a zero positive
        return DoubleDouble::new(p.lo + 0.0, p.hi);
    }
    let r_lo = multiply_add(a, b, -p.hi);
    DoubleDouble::new(r_lo, p.hi)
}

impl Arithmetic for Fused {
    // 20
    const COMPARED_BELOW: u64 = 0x4034000000000000;

    ghost COMPARED_BELOW = { 0x4034000000000000 };

    ghost ops = { fused_ops };

    ghost meaning = { fused_meaning };

    fn from_exact_mult(&mut self, a: f64, b: f64) -> DoubleDouble {
        fused_product(a, b)
    }

    fn quick_mult(&mut self, a: DoubleDouble, b: DoubleDouble) -> DoubleDouble {
        let mut r = fused_product(a.hi, b.hi);
        let t1 = multiply_add(a.hi, b.lo, r.lo);
        let t2 = multiply_add(a.lo, b.hi, t1);
        r.lo = t2;
        r
    }

    fn quick_mult_f64(&mut self, a: DoubleDouble, b: f64) -> DoubleDouble {
        let p = fused_product(b, a.hi);
        let l = multiply_add(b, a.lo, p.lo);
        DoubleDouble { lo: l, hi: p.hi }
    }

    fn dd_fmla(&mut self, a: f64, b: f64, c: f64) -> f64 {
        multiply_add(a, b, c)
    }
}

impl ExactProducts for Fused {
    ghost exact = { λ s. fused_exact };
}
