// The interface: what pxfm chooses at compile time.
ghost use Rattle.std.specs.Prelude.{◌≡◌, ℕ, ◌+ℤ◌, ◌*ℤ◌};
ghost use Rattle.ieee.specs.Val.{val};
ghost use Rattle.ieee.specs.Meaning.{Operand, Settled, fine};
ghost use Rattle.double_double.specs.Ops.{Ops, Meaning, ProductsAreExact};

use crate::double_double::DoubleDouble;

pub trait Arithmetic {
    // Tail arguments with bits below these answer as the Rust of this branch does, bit for bit.
    const COMPARED_BELOW: u64;

    // The same number, for clauses.
    ghost COMPARED_BELOW: { ℕ };

    // What each function answers and which state it leaves, from the state that it finds.
    ghost ops: { Ops Self };

    // a * b as a pair.
    fn from_exact_mult(&mut self, a: f64, b: f64) -> DoubleDouble
        ensures { (self.new, result) ≡ ops.product self.old a b };

    // a * b for two pairs.
    fn quick_mult(&mut self, a: DoubleDouble, b: DoubleDouble) -> DoubleDouble
        ensures { (self.new, result) ≡ ops.pair_times_pair self.old a b };

    // a * b for a pair and a number.
    fn quick_mult_f64(&mut self, a: DoubleDouble, b: f64) -> DoubleDouble
        ensures { (self.new, result) ≡ ops.pair_times_number self.old a b };

    // a * b + c as one number.
    fn dd_fmla(&mut self, a: f64, b: f64, c: f64) -> f64
        ensures { (self.new, result) ≡ ops.multiply_add self.old a b c };

    ghost meaning: { Meaning ops };
}

// An arithmetic whose product pair is a * b itself, where that is zero or at least 2^-900 in size.
pub trait ExactProducts: Arithmetic {
    ghost exact: { ProductsAreExact Self.ops };
}

// a * b as a pair, exact where it is zero or at least 2^-900 in size.
pub fn from_exact_mult<A: ExactProducts>(arith: &mut A, a: f64, b: f64) -> DoubleDouble
    ensures value { (arith.new, result) ≡ A.ops.product arith.old a b }
    ensures exact { Operand a → Operand b → Settled a b → fine (val result.hi +ℤ val result.lo) ≡ val a *ℤ val b }
{
    arith.from_exact_mult(a, b)
}
