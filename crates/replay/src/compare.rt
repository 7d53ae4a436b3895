// One argument, evaluated and compared with an expected answer.
ghost use Rattle.std.specs.Prelude.{◌≡◌};
ghost use Rattle.replay.specs.Comparisons.{is_compared, agrees_with, judged, replayed, counted_in};

use double_double::arithmetic::Arithmetic;
use erfc::answer::{Answer, Code, Refusal};
use erfc::err::erfc::f_erfc;
use std::num::f64_to_bits_with_nan;

// The bits of an argument, and of the answer that is expected of it.
#[derive(Clone, Copy, Debug, PartialEq, Eq)]
pub struct Expected {
    pub argument: u64,
    pub answer: u64,
}

// What came of comparing one answer.
#[derive(Clone, Copy, Debug, PartialEq, Eq)]
pub enum Comparison {
    Equal,
    // the bits that came instead
    Differs(u64),
    // a tail argument that the arithmetic does not compare
    Skipped,
}

#[derive(Clone, Copy, Debug, Default, PartialEq, Eq)]
pub struct Counts {
    pub compared: u64,
    pub equal: u64,
}

// NaN and flat ends always, tail arguments below the one that the arithmetic names.
fn is_compared(code: Code, argument: u64, end: u64) -> bool
    ensures { result ≡ is_compared code argument end }
{
    match code {
        Code::Nan | Code::Flat | Code::One => true,
        Code::Fast | Code::Retried | Code::Accurate | Code::Listed => argument < end,
    }
}

// The bits are those of the value; one NaN is as good as another.
fn agrees(value: f64, expected: u64) -> bool
    ensures { result ≡ agrees_with value expected }
{
    if value.is_nan() {
        0x7ff0000000000000 < expected % 0x8000000000000000
    } else {
        f64_to_bits_with_nan(value) == expected
    }
}

fn judge(answer: &Answer, expected: Expected, end: u64) -> Comparison
    ensures { result ≡ judged answer.now expected.argument end expected.answer }
{
    if !is_compared(answer.code, expected.argument, end) {
        Comparison::Skipped
    } else if agrees(answer.value, expected.answer) {
        Comparison::Equal
    } else {
        Comparison::Differs(f64_to_bits_with_nan(answer.value))
    }
}

// f_erfc of the argument over this arithmetic, against the expected bits.
pub fn replay<A: Arithmetic>(arith: &mut A, expected: Expected) -> Result<Comparison, Refusal>
    ensures { (arith.new, result) ≡ replayed A.Arithmetic.ops A.Arithmetic.COMPARED_BELOW arith.old expected.argument expected.answer }
{
    let answer = f_erfc(arith, expected.argument)?;
    Ok(judge(&answer, expected, A::COMPARED_BELOW))
}

impl Counts {
    // One comparison more.
    pub fn count(&mut self, comparison: Comparison)
        ensures { self.new ≡ counted_in self.old comparison }
    {
        match comparison {
            Comparison::Equal => {
                self.compared = self.compared.saturating_add(1);
                self.equal = self.equal.saturating_add(1);
            }
            Comparison::Differs(_) => self.compared = self.compared.saturating_add(1),
            Comparison::Skipped => {}
        }
    }
}
