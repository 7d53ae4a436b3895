// pxfm's src/double_double.rs: what needs no product.
ghost use Rattle.std.specs.Prelude.{◌≡◌};
ghost use Rattle.ieee.specs.Pairs.{Small, SumOf, Leads};
ghost use Rattle.double_double.specs.Pairs.{bit_pair, fast_two_sum, two_sum, veltkamp, dekker_from, number_plus_pair, pair_plus_number, rounded_sum, negated};

use std::num::f64_from_bits_with_nan;
use std::ops::Neg;

// Two numbers that stand for their exact sum.
#[derive(Clone, Copy)]
pub struct DoubleDouble {
    pub lo: f64,
    pub hi: f64,
}

impl DoubleDouble {
    pub const fn new(lo: f64, hi: f64) -> Self
        ensures { result ≡ record { lo = lo; hi = hi } }
    {
        DoubleDouble { lo, hi }
    }

    // A table entry: the bits of lo and of hi. Under the Rust's name, as `to_f64` is.
    pub fn from_bit_pair(pair: (u64, u64)) -> Self
        ensures { result ≡ bit_pair pair }
    {
        let (lo, hi) = pair;
        DoubleDouble::new(f64_from_bits_with_nan(lo), f64_from_bits_with_nan(hi))
    }

    // Two halves of a, by Veltkamp: products of halves are exact.
    pub fn split(a: f64) -> Self
        ensures { result ≡ veltkamp a }
    {
        // 2^27 + 1
        const C: f64 = 134217729.0;
        let t1 = C * a;
        let t2 = a - t1;
        let r_hi = t1 + t2;
        let r_lo = a - r_hi;
        DoubleDouble::new(r_lo, r_hi)
    }

    // a * b, by Dekker, given the halves of a.
    pub fn from_exact_mult_impl_non_fma(asz: DoubleDouble, a: f64, b: f64) -> Self
        ensures { result ≡ dekker_from asz a b }
    {
        let bs = DoubleDouble::split(b);
        let r_hi = a * b;
        let t1 = asz.hi * bs.hi - r_hi;
        let t2 = asz.hi * bs.lo + t1;
        let t3 = asz.lo * bs.hi + t2;
        let r_lo = asz.lo * bs.lo + t3;
        DoubleDouble::new(r_lo, r_hi)
    }

    // a + b, three operations.
    fn fast_two_sum(a: f64, b: f64) -> Self
        ensures { result ≡ fast_two_sum a b }
    {
        let r_hi = a + b;
        let t = r_hi - a;
        let r_lo = b - t;
        DoubleDouble::new(r_lo, r_hi)
    }

    // a + b, six operations.
    fn two_sum(a: f64, b: f64) -> Self
        ensures { result ≡ two_sum a b }
    {
        let r_hi = a + b;
        let t1 = r_hi - a;
        let t2 = r_hi - t1;
        let t3 = b - t1;
        let t4 = a - t2;
        let r_lo = t3 + t4;
        DoubleDouble::new(r_lo, r_hi)
    }

    // a + b, exact where a leads.
    pub fn from_exact_add(a: f64, b: f64) -> Self
        ensures value { result ≡ fast_two_sum a b }
        ensures exact { Small a 1974 → Small b 1974 → Leads a b → SumOf a b result.lo result.hi }
    {
        DoubleDouble::fast_two_sum(a, b)
    }

    // a + b, exact in any order.
    pub fn from_full_exact_add(a: f64, b: f64) -> Self
        ensures value { result ≡ two_sum a b }
        ensures exact { Small a 1974 → Small b 1974 → SumOf a b result.lo result.hi }
    {
        DoubleDouble::two_sum(a, b)
    }

    // b + a where b leads.
    pub fn f64_add(b: f64, a: DoubleDouble) -> Self
        ensures { result ≡ number_plus_pair b a }
    {
        let t = DoubleDouble::from_exact_add(b, a.hi);
        let l = a.lo + t.lo;
        DoubleDouble { lo: l, hi: t.hi }
    }

    // a + b in any order.
    pub fn full_add_f64(a: DoubleDouble, b: f64) -> Self
        ensures { result ≡ pair_plus_number a b }
    {
        let t = DoubleDouble::from_full_exact_add(a.hi, b);
        let l = a.lo + t.lo;
        DoubleDouble { lo: l, hi: t.hi }
    }

    pub fn to_f64(self) -> f64
        ensures { result ≡ rounded_sum self }
    {
        self.lo + self.hi
    }
}

impl Neg for DoubleDouble {
    type Output = Self;

    ghost neg_gives = { λ x r. r ≡ negated x };

    fn neg(self) -> Self {
        DoubleDouble::new(-self.lo, -self.hi)
    }
}
