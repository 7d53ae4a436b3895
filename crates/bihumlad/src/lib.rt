// One argument over an arithmetic, as a value and a code. This is the library for Rust; bihumlad_c exports plain and fused to C.
#![tactic(auto)]

ghost use Rattle.std.specs.Prelude.{◌≡◌};
ghost use Rattle.erfc.specs.Answers.{evaluation};
ghost use Rattle.bihumlad.specs.Crossing.{crossing, crossed};

use double_double::arithmetic::Arithmetic;
use erfc::answer::{Answer, Refusal};
use erfc::err::erfc::f_erfc;

// A value and its code; a refused argument has NaN and code 7 or 8. The code is a number, since C has no enum with a value.
#[repr(C)]
#[derive(Clone, Copy)]
pub struct Evaluated {
    pub value: f64,
    pub code: u8,
}

impl From<Result<Answer, Refusal>> for Evaluated {
    ghost from_gives = { λ outcome r. r ≡ crossing outcome };

    fn from(outcome: Result<Answer, Refusal>) -> Self {
        match outcome {
            Ok(answer) => Evaluated {
                value: answer.value,
                code: u8::from(answer.code),
            },
            Err(refusal) => Evaluated {
                value: f64::NAN,
                code: 6 + u8::from(refusal),
            },
        }
    }
}

// f_erfc of the f64 with these bits.
pub fn evaluate<A: Arithmetic>(arith: &mut A, bits: u64) -> Evaluated
    ensures { (arith.new, result) ≡ crossed (evaluation A.Arithmetic.ops arith.old bits) }
{
    Evaluated::from(f_erfc(arith, bits))
}
