// pxfm's src/rounding/round_ties_even.rs: one function for its two compile-time branches.
ghost use Rattle.std.specs.Prelude.{◌≡◌};
ghost use Rattle.std.specs.Float.{round_ties_even, binary64};
ghost use Rattle.ieee.specs.Meaning.{Number};
ghost use Rattle.ieee.specs.Nearest.{NearestWhole};
ghost use Rattle.ieee.specs.Shifted.{shifted};

// 2^51: below it the sum with 2^52 + 2^51 keeps its exponent.
const LIMIT: f64 = 2251799813685248.0;

// Around 2^52 + 2^51 the last digit counts ones, so the sum rounds to a whole number.
fn shift_round(x: f64) -> f64
    ensures { result ≡ shifted x }
{
    const SHIFT: f64 = 6755399441055744.0;
    (x + SHIFT) - SHIFT
}

// The nearest whole number, ties to even.
pub fn round_ties_even(x: f64) -> f64
    ensures value { result ≡ round_ties_even binary64 x }
    ensures nearest { Number x → NearestWhole x result }
{
    if -LIMIT < x && x < LIMIT {
        let r = shift_round(x);
        // a zero keeps the sign of x
        if r == 0.0 { x * 0.0 } else { r }
    } else {
        x.round_ties_even()
    }
}
