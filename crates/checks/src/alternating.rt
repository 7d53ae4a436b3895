// A third arithmetic, with a state: it answers as plain and as fused in turn, and counts its calls.
ghost use Rattle.std.specs.Prelude.{◌≡◌, true, false};
ghost use Rattle.checks.specs.Alternating.{passed, alternating_ops};
ghost use Rattle.checks.specs.AlternatingMeaning.{alternating_meaning};

use double_double::arithmetic::Arithmetic;
use double_double::double_double::DoubleDouble;
use double_double::fused::Fused;
use double_double::plain::Plain;

#[derive(Clone, Copy, Drop)]
pub struct Alternating {
    pub fused: bool,
    pub calls: u64,
}

impl Alternating {
    // Counts a call, and answers as fused or as plain, whose turn it is.
    fn in_turn<T, F: FnOnce() -> T, P: FnOnce() -> T>(&mut self, fused: F, plain: P) -> T
        requires fused_answers { F.IsAlwaysCallable fused }
        requires plain_answers { P.IsAlwaysCallable plain }
        ensures as_fused { self.old.fused ≡ true → F.post fused result }
        ensures as_plain { self.old.fused ≡ false → P.post plain result }
        ensures after { self.new ≡ passed self.old }
    {
        let is_fused = self.fused;
        self.fused = !is_fused;
        self.calls = self.calls.wrapping_add(1);
        if is_fused { fused() } else { plain() }
    }
}

impl Arithmetic for Alternating {
    // its bits are compared with nothing
    const COMPARED_BELOW: u64 = 0;

    ghost COMPARED_BELOW = { 0 };

    ghost ops = { alternating_ops };

    ghost meaning = { alternating_meaning };

    fn from_exact_mult(&mut self, a: f64, b: f64) -> DoubleDouble {
        self.in_turn(
            || Fused.from_exact_mult(a, b),
            || Plain.from_exact_mult(a, b),
        )
    }

    fn quick_mult(&mut self, a: DoubleDouble, b: DoubleDouble) -> DoubleDouble {
        self.in_turn(|| Fused.quick_mult(a, b), || Plain.quick_mult(a, b))
    }

    fn quick_mult_f64(&mut self, a: DoubleDouble, b: f64) -> DoubleDouble {
        self.in_turn(|| Fused.quick_mult_f64(a, b), || Plain.quick_mult_f64(a, b))
    }

    fn dd_fmla(&mut self, a: f64, b: f64, c: f64) -> f64 {
        self.in_turn(|| Fused.dd_fmla(a, b, c), || Plain.dd_fmla(a, b, c))
    }
}
