// What an argument answers.
ghost use Rattle.std.specs.Prelude.{◌≡◌};
ghost use Rattle.erfc.specs.Answers.{code_number, refusal_number, ends_of};

use crate::err::erf::Erf;
use double_double::double_double::DoubleDouble;

// How a value came about.
#[derive(Clone, Copy, PartialEq, Eq)]
pub enum Code {
    Nan = 0,
    // +0 or 2.0, far out
    Flat = 1,
    // 1.0, around zero
    One = 2,
    // the fast step decided
    Fast = 3,
    // the fast step did not decide, the accurate step answered
    Retried = 4,
    // there is no fast step, the accurate step answered
    Accurate = 5,
    // from the list of exceptions
    Listed = 6,
}

// Why there is no value.
#[derive(Clone, Copy, PartialEq, Eq)]
pub enum Refusal {
    // positive, between the flat end around zero and the tail
    Positive = 1,
    // negative, between the two flat ends
    Negative = 2,
}

// The fast step: its row, its multiple of log(2)/4096, its pair and the bound of its error.
#[derive(Clone, Copy)]
pub struct FastPart {
    pub row: usize,
    pub k: i64,
    pub erf: Erf,
}

// The accurate step: its row, its multiple of log(2), and the pair that 2^k scales to the answer.
#[derive(Clone, Copy)]
pub struct AccuratePart {
    pub row: usize,
    pub k: i32,
    pub pair: DoubleDouble,
}

// A record with the parts that exist, by this project's rule; the code says how it came about.
#[derive(Clone, Copy)]
pub struct Answer {
    pub value: f64,
    pub code: Code,
    pub fast: Option<FastPart>,
    pub accurate: Option<AccuratePart>,
}

impl From<Code> for u8 {
    ghost from_gives = { λ c n. n ≡ code_number c };

    fn from(code: Code) -> u8 {
        code as u8
    }
}

impl From<Refusal> for u8 {
    ghost from_gives = { λ r n. n ≡ refusal_number r };

    fn from(refusal: Refusal) -> u8 {
        refusal as u8
    }
}

// The two ends of the rounding test, each rounded, where there was a fast step. By this project's rule a reader who finds no fast part stops there.
pub fn rounded_ends(record: &Answer) -> Option<(f64, f64)>
    ensures { result ≡ ends_of «record».now }
{
    let Some(fast) = record.fast else {
        return None;
    };
    Some((fast.erf.left_end(), fast.erf.right_end()))
}
