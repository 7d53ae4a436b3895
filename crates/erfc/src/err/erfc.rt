// pxfm's src/err/erfc.rs, over any arithmetic.
ghost use Rattle.std.specs.Prelude.{◌≡◌, Ok, ◌<◌, negsuc, ◌≤ℤ◌, from_bits};
ghost use Rattle.std.specs.Float.{binary64};
ghost use Rattle.ieee.specs.Whole.{Whole};
ghost use Rattle.erfc.specs.Exponentials.{multiple, multiple_int, reduced_indices, q1, reduced_argument, exp1, accurate_multiple, accurate_multiple_int, accurate_argument, leading_degrees, exp_accurate};
ghost use Rattle.erfc.specs.Asymptotics.{reciprocal, squared, fast_polynomial, fast_err, fast_step, accurate_polynomial, scaled_value, accurate_step};
ghost use Rattle.erfc.specs.Classes.{class_of};
ghost use Rattle.erfc.specs.Answers.{plain_answer, with_fast_step, without_fast_step, answer_of, evaluation, Within, OutcomeWithin};

use crate::answer::{AccuratePart, Answer, Code, FastPart, Refusal};
use crate::argument::{FAST_END, TAIL_END, TailArgument};
use crate::classes::{Class, classify};
use crate::err::erf::Erf;
use crate::exponents::auxiliary::{ldexp_steps, power_of_two};
use crate::horner::{Coefficients, Doubles, Singles, evaluate};
use crate::rounding::round_ties_even::round_ties_even;
use crate::rows::{accurate_row, fast_row};
use double_double::arithmetic::Arithmetic;
use double_double::double_double::DoubleDouble;
use std::num::f64_from_bits_with_nan;
use tables::err::erfc::{AccurateNumbers, AsymptoticNumbers, ExpNumbers};
use tables::exponents::exp::{exp_reduce_0, exp_reduce_1};
use tables::numbers::Numbers;

// The answer of 403a8f7bfbd15495, which other rounding modes would miss.
const LISTED_ANSWER: u64 = 0x000667bd620fd95b;

// A polynomial for exp(z), for |z| < 2^-12.88.
#[tactic(auto, unfolding(crate::specs::Exponentials::q1))]
fn q_1<A: Arithmetic>(arith: &mut A, z_dd: DoubleDouble) -> DoubleDouble
    ensures { (arith.new, result) ≡ q1 A.Arithmetic.ops arith.old z_dd }
{
    const C: [u64; 5] = [
        0x3ff0000000000000,
        0x3ff0000000000000,
        0x3fe0000000000000,
        0x3fc5555555995d37,
        0x3fa55555558489dc,
    ];
    let z = z_dd.to_f64();
    let mut q = arith.dd_fmla(
        f64_from_bits_with_nan(C[4]),
        z_dd.hi,
        f64_from_bits_with_nan(C[3]),
    );
    q = arith.dd_fmla(q, z, f64_from_bits_with_nan(C[2]));
    let mut v = DoubleDouble::from_exact_add(f64_from_bits_with_nan(C[1]), q * z);
    v = arith.quick_mult(z_dd, v);
    DoubleDouble::f64_add(f64_from_bits_with_nan(C[0]), v)
}

// k as 4096 m + 64 i2 + i1: a tuple, as in the Rust.
fn reduced_indices(k: i64) -> (i64, usize, usize)
    ensures value { result ≡ reduced_indices k }
    ensures i2_bound { result.1 < 64 }
    ensures i1_bound { result.2 < 64 }
{
    let m = k >> 12;
    let i2 = (k >> 6) & 0x3f;
    let i1 = k & 0x3f;
    (m, i2 as usize, i1 as usize)
}

// x without k times log(2)/4096.
fn reduced_argument<A: Arithmetic>(arith: &mut A, k: f64, x: DoubleDouble) -> DoubleDouble
    ensures { (arith.new, result) ≡ reduced_argument A.Arithmetic.ops arith.old k x }
{
    let log2_dd = DoubleDouble::from_bit_pair((0x3bbabc9e3b39803f, 0x3f262e42fefa39ef));
    let k_dd = arith.quick_mult_f64(log2_dd, k);
    let mut y_dd = DoubleDouble::from_exact_add(x.hi - k_dd.hi, x.lo);
    y_dd.lo -= k_dd.lo;
    y_dd
}

// A fast exponential, and the multiple of log(2)/4096 that was taken off.
#[derive(Clone, Copy)]
struct Exp1 {
    k: i64,
    result: DoubleDouble,
    ghost k_low: { negsuc 3999999 ≤ℤ k },
    ghost k_high: { k ≤ℤ negsuc 48999 },
}

// exp(x), for x whose multiple k lies in the fast range.
fn exp_1<A: Arithmetic>(arith: &mut A, x: DoubleDouble) -> Exp1
    requires { Whole (multiple x.hi) 49000 4000000 }
    ensures k { result.k ≡ multiple_int x.hi }
    ensures result { (arith.new, result.result) ≡ exp1 A.Arithmetic.ops arith.old x }
{
    const INVLOG2: u64 = 0x40b71547652b82fe;
    let k = round_ties_even(x.hi * f64_from_bits_with_nan(INVLOG2));
    let y_dd = reduced_argument(arith, k, x);
    let ki = k as i64;
    let (m, i2, i1) = reduced_indices(ki);
    let t1 = exp_reduce_0(i2);
    let t2 = exp_reduce_1(i1);
    let mut v = arith.quick_mult(t2, t1);
    let q = q_1(arith, y_dd);
    v = arith.quick_mult(v, q);
    let scale = power_of_two(m);
    v.hi *= scale;
    v.lo *= scale;
    Exp1 { k: ki, result: v }
}

// x without k times log(2); j is -k.
#[tactic(auto, unfolding(crate::specs::Exponentials::accurate_argument))]
fn accurate_argument<A: Arithmetic>(arith: &mut A, j: f64, x_dd: DoubleDouble) -> DoubleDouble
    ensures { (arith.new, result) ≡ accurate_argument A.Arithmetic.ops arith.old j x_dd }
{
    const LOG2_H: u64 = 0x3fe62e42fefa39ef;
    // 38 bits, so that k times it is exact
    const LOG2_L: u64 = 0x3c7abc9e3b398000;
    const LOG2_TINY: u64 = 0x398f97b57a079a19;
    let yh = arith.dd_fmla(j, f64_from_bits_with_nan(LOG2_H), x_dd.hi);
    let t = DoubleDouble::from_full_exact_add(j * f64_from_bits_with_nan(LOG2_L), x_dd.lo);
    let mut y_dd = DoubleDouble::from_exact_add(yh, t.hi);
    y_dd.lo = arith.dd_fmla(j, f64_from_bits_with_nan(LOG2_TINY), y_dd.lo + t.lo);
    y_dd
}

// Degrees 19 to 15 of the exponential's polynomial: the low part of y matters from degree 15 down.
#[tactic(auto, unfolding(crate::specs::Exponentials::leading_degrees))]
fn leading_degrees<A: Arithmetic>(arith: &mut A, y_dd: DoubleDouble) -> DoubleDouble
    ensures { (arith.new, result) ≡ leading_degrees A.Arithmetic.ops arith.old y_dd }
{
    let mut h = ExpNumbers.number(19 + 8);
    h = arith.dd_fmla(h, y_dd.hi, ExpNumbers.number(18 + 8));
    h = arith.dd_fmla(h, y_dd.hi, ExpNumbers.number(17 + 8));
    h = arith.dd_fmla(h, y_dd.hi, ExpNumbers.number(16 + 8));
    let mut t = arith.from_exact_mult(h, y_dd.hi);
    t.lo = arith.dd_fmla(h, y_dd.lo, t.lo);
    ExpNumbers.plus(15 + 8, t)
}

// An accurate exponential: result * 2^e.
#[derive(Clone, Copy)]
struct Exp {
    e: i32,
    result: DoubleDouble,
    ghost e_low: { negsuc 1069 ≤ℤ e },
    ghost e_high: { e ≤ℤ negsuc 11 },
}

// exp(x), for x whose multiple of log(2) lies in the tail's range.
#[tactic(auto, using(crate::proofs::Casts::back_32), unfolding(crate::specs::Exponentials::exp_accurate))]
fn exp_accurate<A: Arithmetic>(arith: &mut A, x_dd: DoubleDouble) -> Exp
    requires { Whole (accurate_multiple x_dd.hi) 12 1070 }
    ensures e { result.e ≡ accurate_multiple_int x_dd.hi }
    ensures result { (arith.new, result.result) ≡ exp_accurate A.Arithmetic.ops arith.old x_dd }
{
    const LOG2INV: u64 = 0x3ff71547652b82fe;
    let k = round_ties_even(x_dd.hi * f64_from_bits_with_nan(LOG2INV)) as i32;
    let y_dd = accurate_argument(arith, -k as f64, x_dd);
    let v = leading_degrees(arith, y_dd);
    let w = evaluate(
        arith,
        &Singles::<_, 16>(ExpNumbers),
        ExpNumbers.turns(),
        y_dd,
        v,
    );
    let result = evaluate(arith, &Doubles(ExpNumbers), 8, y_dd, w);
    Exp { e: k, result }
}

// 1/x as a pair, by one step of Newton: y + y*(1 - x*y).
#[tactic(auto, unfolding(crate::specs::Asymptotics::reciprocal))]
fn reciprocal_pair<A: Arithmetic>(arith: &mut A, x: f64) -> DoubleDouble
    ensures { (arith.new, result) ≡ reciprocal A.Arithmetic.ops arith.old x }
{
    let yh = 1.0 / x;
    let yl = yh * arith.dd_fmla(-x, yh, 1.0);
    DoubleDouble::new(yl, yh)
}

// The square of 1/x as a pair; the square of the low part is too small to matter.
#[tactic(auto, unfolding(crate::specs::Asymptotics::squared))]
fn reciprocal_square<A: Arithmetic>(arith: &mut A, y: DoubleDouble) -> DoubleDouble
    ensures { (arith.new, result) ≡ squared A.Arithmetic.ops arith.old y }
{
    let mut u = arith.from_exact_mult(y.hi, y.hi);
    u.lo = arith.dd_fmla(2.0 * y.hi, y.lo, u.lo);
    u
}

// A row's fast polynomial at u.
#[tactic(auto, unfolding(crate::specs::Asymptotics::fast_polynomial))]
fn fast_polynomial<A: Arithmetic>(
    arith: &mut A,
    p: AsymptoticNumbers,
    u: DoubleDouble,
) -> DoubleDouble
    ensures { (arith.new, result) ≡ fast_polynomial A.Arithmetic.ops arith.old p.row u }
{
    let mut zh = p.number(12);
    zh = arith.dd_fmla(zh, u.hi, p.number(11));
    zh = arith.dd_fmla(zh, u.hi, p.number(10));
    let mut v = arith.quick_mult_f64(u, zh);
    let z_dd = p.plus(9, v);
    let w_dd = evaluate(arith, &Singles::<_, 2>(p), p.turns(), u, z_dd);
    v = arith.quick_mult(w_dd, u);
    p.plus_both(0, v)
}

// The bound of the error of a pair with this hi.
fn fast_error(hi: f64) -> f64
    ensures { result ≡ fast_err hi }
{
    if hi >= f64_from_bits_with_nan(0x044151b9a3fdd5c9) {
        f64_from_bits_with_nan(0x3bbd900000000000) * hi
    } else {
        // more than 0x1.d9p-68 * hi
        f64_from_bits_with_nan(0x0010000000000000)
    }
}

// erfc(x) = exp(-x^2) * p(1/x) by the fast polynomials.
#[tactic(auto, unfolding(crate::specs::Asymptotics::fast_step))]
fn erfc_asympt_fast<A: Arithmetic>(arith: &mut A, argument: TailArgument<FAST_END>) -> FastPart
    ensures value { (arith.new, result) ≡ fast_step A.Arithmetic.ops arith.old (from_bits binary64 argument.bits) }
    ensures row_bound { result.row < 6 }
    ensures k_low { negsuc 3999999 ≤ℤ result.k }
    ensures k_high { result.k ≤ℤ negsuc 48999 }
{
    let x = f64::from(argument);
    let mut u = arith.from_exact_mult(x, x);
    let e = exp_1(arith, -u);
    let y = reciprocal_pair(arith, x);
    let row = fast_row(y.hi);
    u = reciprocal_square(arith, y);
    let z_dd = fast_polynomial(arith, AsymptoticNumbers { row }, u);
    u = arith.quick_mult(z_dd, y);
    let v = arith.quick_mult(u, e.result);
    FastPart {
        row,
        k: e.k,
        erf: Erf {
            result: v,
            err: fast_error(v.hi),
        },
    }
}

// A row's accurate polynomial at u.
#[tactic(auto, unfolding(crate::specs::Asymptotics::accurate_polynomial))]
fn accurate_polynomial<A: Arithmetic>(
    arith: &mut A,
    p: AccurateNumbers,
    u_dd: DoubleDouble,
) -> DoubleDouble
    ensures { (arith.new, result) ≡ accurate_polynomial A.Arithmetic.ops arith.old p.row u_dd }
{
    let z_dd = DoubleDouble::new(0.0, p.number(p.row + 20));
    let w_dd = evaluate(arith, &Singles::<_, 12>(p), p.turns(), u_dd, z_dd);
    evaluate(arith, &Doubles(p), 6, u_dd, w_dd)
}

// v * 2^k as one number.
#[tactic(auto, unfolding(crate::specs::Asymptotics::scaled_value))]
fn scaled_value(v: DoubleDouble, k: i32) -> f64
    requires k_low { negsuc 1069 ≤ℤ k }
    requires k_high { k ≤ℤ negsuc 11 }
    ensures { result ≡ scaled_value v k }
{
    let res = ldexp_steps(v.to_f64(), k);
    if res < f64_from_bits_with_nan(0x0010000000000000) {
        // a subnormal was rounded twice: add what the roundings lost
        let mut corr = v.hi - ldexp_steps(res, -k);
        corr += v.lo;
        return res + ldexp_steps(corr, k);
    }
    res
}

// erfc(x) by the accurate polynomials: the pair before scaling.
#[tactic(auto, unfolding(crate::specs::Asymptotics::accurate_step))]
fn erfc_asympt_accurate<A: Arithmetic>(
    arith: &mut A,
    argument: TailArgument<TAIL_END>,
) -> AccuratePart
    ensures value { (arith.new, result) ≡ accurate_step A.Arithmetic.ops arith.old (from_bits binary64 argument.bits) }
    ensures row_bound { result.row < 7 }
    ensures k_low { negsuc 1069 ≤ℤ result.k }
    ensures k_high { result.k ≤ℤ negsuc 11 }
{
    let x = f64::from(argument);
    let mut u_dd = arith.from_exact_mult(x, x);
    let exp_result = exp_accurate(arith, -u_dd);
    let y = reciprocal_pair(arith, x);
    let row = accurate_row(y.hi);
    u_dd = reciprocal_square(arith, y);
    let z_dd = accurate_polynomial(arith, AccurateNumbers { row }, u_dd);
    u_dd = arith.quick_mult(z_dd, y);
    u_dd = DoubleDouble::from_exact_add(u_dd.hi, u_dd.lo);
    let v = arith.quick_mult(u_dd, exp_result.result);
    AccuratePart {
        row,
        k: exp_result.e,
        pair: v,
    }
}

// A tail argument with a fast step. Rows and multiples are `Within` their bounds over an arithmetic with the meaning alone; `specs/` makes the record over others too, so its type can't say it.
fn erfc_fast_tail<A: Arithmetic>(arith: &mut A, argument: TailArgument<FAST_END>) -> Answer
    ensures value { (arith.new, result) ≡ with_fast_step A.Arithmetic.ops arith.old (from_bits binary64 argument.bits) }
    ensures within { Within result }
{
    let fast = erfc_asympt_fast(arith, argument);
    let mut answer = Answer {
        value: fast.erf.left_end(),
        code: Code::Fast,
        fast: Some(fast),
        accurate: None,
    };
    if fast.erf.is_decided() {
        return answer;
    }
    let accurate = erfc_asympt_accurate(arith, TailArgument::from(argument));
    answer.value = scaled_value(accurate.pair, accurate.k);
    answer.code = Code::Retried;
    answer.accurate = Some(accurate);
    answer
}

// A tail argument without a fast step: its pair would be subnormal.
fn erfc_far_tail<A: Arithmetic>(arith: &mut A, argument: TailArgument<TAIL_END>) -> Answer
    ensures value { (arith.new, result) ≡ without_fast_step A.Arithmetic.ops arith.old (from_bits binary64 argument.bits) }
    ensures within { Within result }
{
    let accurate = erfc_asympt_accurate(arith, argument);
    Answer {
        value: scaled_value(accurate.pair, accurate.k),
        code: Code::Accurate,
        fast: None,
        accurate: Some(accurate),
    }
}

fn answer_without_step(value: f64, code: Code) -> Answer
    ensures { result ≡ plain_answer value code }
{
    Answer {
        value,
        code,
        fast: None,
        accurate: None,
    }
}

// The answer of an argument of this class.
fn answer_of<A: Arithmetic>(arith: &mut A, class: Class, bits: u64) -> Answer
    requires { Ok class ≡ class_of bits }
    ensures value { (arith.new, result) ≡ answer_of A.Arithmetic.ops class arith.old (from_bits binary64 bits) }
    ensures within { Within result }
{
    match class {
        Class::Nan => answer_without_step(f64::NAN, Code::Nan),
        Class::Zero => answer_without_step(0.0, Code::Flat),
        Class::Two => answer_without_step(2.0, Code::Flat),
        Class::One => answer_without_step(1.0, Code::One),
        Class::FastTail => erfc_fast_tail(arith, TailArgument { bits }),
        Class::FarTail => erfc_far_tail(arith, TailArgument { bits }),
        Class::Listed => answer_without_step(f64_from_bits_with_nan(LISTED_ANSWER), Code::Listed),
    }
}

// Complementary error function of the f64 with these bits: NaN, the flat ends and the tail.
#[tactic(auto, unfolding(crate::specs::Answers::evaluation))]
pub fn f_erfc<A: Arithmetic>(arith: &mut A, bits: u64) -> Result<Answer, Refusal>
    ensures value { (arith.new, result) ≡ evaluation A.Arithmetic.ops arith.old bits }
    ensures within { OutcomeWithin result }
{
    Ok(answer_of(arith, classify(bits)?, bits))
}
