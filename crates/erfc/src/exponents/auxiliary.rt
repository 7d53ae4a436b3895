// pxfm's src/exponents/auxiliary.rs.
ghost use Rattle.std.specs.Prelude.{◌≡◌, pos, negsuc, ◌≤ℤ◌, ◌<ℤ◌};
ghost use Rattle.std.specs.Float.{binary64};
ghost use Rattle.std.specs.Float.Ieee.{mul};
ghost use Rattle.ieee.specs.Meaning.{Number};
ghost use Rattle.erfc.specs.Scaling.{power, scaled_down, scaled_up, ldexp_of, times_power, FirstExact};

use crate::dyadic_float::{DyadicSign, f64_from_parts};

const EXP_MAX: i32 = 1023;

const EXP_MIN: i32 = -1022;

const EXP_BIAS: u64 = 1023;

// 2^n, for the exponent of a normal number.
pub fn power_of_two(n: i64) -> f64
    requires n_low { negsuc 1021 ≤ℤ n }
    requires n_high { n ≤ℤ pos 1023 }
    ensures { result ≡ power n }
{
    f64_from_parts(DyadicSign::Pos, (EXP_BIAS as i64 + n) as u64, 0)
}

// x * 2^n.
fn times_power(x: f64, n: i32) -> f64
    requires n_low { negsuc 1021 ≤ℤ n }
    requires n_high { n ≤ℤ pos 1023 }
    ensures { result ≡ mul binary64 x (power n) }
{
    x * power_of_two(i64::from(n))
}

// Down to -1022. Not one function with the next, as in the Rust: their tests run in opposite directions, and would be closures longer than the branches.
fn scaled_down(d: f64, i: i32) -> f64
    requires { i <ℤ negsuc 1021 }
    ensures { result ≡ scaled_down d i }
{
    let f_exp_min = f64_from_parts(DyadicSign::Pos, 1, 0);
    let f_pow_subnorm = f64_from_parts(DyadicSign::Pos, 52 + EXP_BIAS, 0);
    // 2^52 times 2^-1022, so that a step loses no digit of a normal number's product
    let mul = f_exp_min * f_pow_subnorm;
    let add = -EXP_MIN - 52;
    let mut x = d * mul;
    let mut n = i + add;
    if n >= EXP_MIN {
        return times_power(x, n);
    }
    x *= mul;
    n += add;
    if n < EXP_MIN {
        return times_power(x, EXP_MIN);
    }
    times_power(x, n)
}

// Up to 1023.
fn scaled_up(d: f64, i: i32) -> f64
    requires { pos 1023 <ℤ i }
    ensures { result ≡ scaled_up d i }
{
    let f_exp_max = f64_from_parts(DyadicSign::Pos, EXP_BIAS << 1, 0);
    let mut x = d * f_exp_max;
    let mut n = i - EXP_MAX;
    if n <= EXP_MAX {
        return times_power(x, n);
    }
    x *= f_exp_max;
    n -= EXP_MAX;
    if n > EXP_MAX {
        return times_power(x, EXP_MAX);
    }
    times_power(x, n)
}

// d * 2^i, in at most three products; d and i are the Rust's two parameters.
#[tactic(auto, unfolding(crate::specs::Scaling::ldexp_of))]
pub(crate) fn ldexp_steps(d: f64, i: i32) -> f64
    ensures { result ≡ ldexp_of d i }
{
    if i < EXP_MIN {
        scaled_down(d, i)
    } else if i > EXP_MAX {
        scaled_up(d, i)
    } else {
        times_power(d, i)
    }
}

// d * 2^i, rounded once where the first product does not round.
#[tactic(auto, using(crate::proofs::Scales::once))]
pub fn ldexp(d: f64, i: i32) -> f64
    ensures value { result ≡ ldexp_of d i }
    ensures once { Number d → FirstExact d i → result ≡ times_power d i }
{
    ldexp_steps(d, i)
}
