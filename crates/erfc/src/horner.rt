// The Horner loops, written once.
ghost use Rattle.std.specs.Prelude.{◌≡◌, ℕ, ◌+◌, ◌-◌, ◌*◌, ◌/◌, ◌<◌, ◌≤◌, Float};
ghost use Rattle.double_double.specs.declared.double_double.DoubleDouble.{DoubleDouble};
ghost use Rattle.double_double.specs.Pairs.{fast_two_sum, two_sum};
ghost use Rattle.erfc.specs.Horner.{plus, plus_both, single_term, double_term, horner};

use double_double::arithmetic::Arithmetic;
use double_double::double_double::DoubleDouble;
use tables::err::erfc::{AccurateNumbers, AsymptoticNumbers, ExpNumbers};
use tables::numbers::Numbers;

// The coefficients of a polynomial, by what a turn adds to its product.
pub trait Terms {
    ghost count: { Self → ℕ };

    ghost adds: { Self → ℕ → DoubleDouble → DoubleDouble };

    // Coefficient n plus v. A place is asked for where it is read, here and in `Numbers` and `Coefficients`: a type for it would be made at each turn.
    fn add(&self, n: usize, v: DoubleDouble) -> DoubleDouble
        requires { n < count self.now }
        ensures { result ≡ adds self.now n v };
}

// Turns with coefficients turns - 1 down to 0, from z on.
#[tactic(auto, using(crate::proofs::Turns::done))]
pub fn evaluate<A: Arithmetic, T: Terms>(
    arith: &mut A,
    terms: &T,
    turns: usize,
    u: DoubleDouble,
    z: DoubleDouble,
) -> DoubleDouble
    requires { turns ≤ T.Terms.count terms.now }
    ensures { (arith.new, result) ≡ horner A.Arithmetic.ops (T.Terms.adds terms.now) u turns arith.old z }
{
    let mut z_dd = z;
    for n in (0..turns).rev() {
        let v = arith.quick_mult(z_dd, u);
        z_dd = terms.add(n, v);
    }
    z_dd
}

// The numbers of a polynomial with the way in which one is added to a pair.
pub trait Coefficients: Numbers {
    // The exact sum of a number and a product.
    ghost sum: { Float → Float → DoubleDouble };

    fn sum(c: f64, v: f64) -> DoubleDouble
        ensures { result ≡ sum c v };

    // Number n plus v.
    fn plus(&self, n: usize, v: DoubleDouble) -> DoubleDouble
        requires { n < Self.count self.now }
        ensures { result ≡ plus sum (Self.numbers self.now n) v }
    {
        let mut z = Self::sum(self.number(n), v.hi);
        z.lo += v.lo;
        z
    }

    // Number n and the next, whose sum is one coefficient, plus v.
    fn plus_both(&self, n: usize, v: DoubleDouble) -> DoubleDouble
        requires { n + 1 < Self.count self.now }
        ensures { result ≡ plus_both sum (Self.numbers self.now n) (Self.numbers self.now (n + 1)) v }
    {
        let mut z = Self::sum(self.number(n), v.hi);
        z.lo += v.lo + self.number(n + 1);
        z
    }
}

impl Coefficients for ExpNumbers {
    ghost sum = { fast_two_sum };

    fn sum(c: f64, v: f64) -> DoubleDouble {
        DoubleDouble::from_exact_add(c, v)
    }
}

// As the exponential's; a shared body would have to be told apart from the next by a trait of its own.
impl Coefficients for AsymptoticNumbers {
    ghost sum = { fast_two_sum };

    fn sum(p: f64, v: f64) -> DoubleDouble {
        DoubleDouble::from_exact_add(p, v)
    }
}

impl Coefficients for AccurateNumbers {
    ghost sum = { two_sum };

    fn sum(c: f64, v: f64) -> DoubleDouble {
        DoubleDouble::from_full_exact_add(c, v)
    }
}

// Coefficients of one number each, from number FIRST on.
#[derive(Drop)]
pub struct Singles<C: Coefficients, const FIRST: usize>(pub C);

impl<C: Coefficients, const FIRST: usize> Terms for Singles<C, FIRST> {
    ghost count = { λ t. C.count t.0 - FIRST };

    ghost adds = { λ t. single_term C.sum (C.numbers t.0) FIRST };

    fn add(&self, n: usize, v: DoubleDouble) -> DoubleDouble {
        self.0.plus(n + FIRST, v)
    }
}

// Coefficients of two numbers each, from number 0 on.
#[derive(Drop)]
pub struct Doubles<C: Coefficients>(pub C);

impl<C: Coefficients> Terms for Doubles<C> {
    ghost count = { λ t. C.count t.0 / 2 };

    ghost adds = { λ t. double_term C.sum (C.numbers t.0) };

    fn add(&self, n: usize, v: DoubleDouble) -> DoubleDouble {
        self.0.plus_both(2 * n, v)
    }
}
