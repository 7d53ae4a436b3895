// pxfm's src/err/erf.rs: a pair with a bound of its error.
ghost use Rattle.std.specs.Prelude.{◌≡◌};
ghost use Rattle.std.specs.Float.Ieee as Ieee;
ghost use Rattle.erfc.specs.Ends.{left_end, right_end};

use double_double::double_double::DoubleDouble;

#[derive(Clone, Copy)]
pub struct Erf {
    pub result: DoubleDouble,
    pub err: f64,
}

impl Erf {
    // The least that the exact number can be, rounded.
    pub fn left_end(self) -> f64
        ensures { result ≡ left_end self }
    {
        self.result.hi + (self.result.lo - self.err)
    }

    // The most that it can be, rounded.
    pub fn right_end(self) -> f64
        ensures { result ≡ right_end self }
    {
        self.result.hi + (self.result.lo + self.err)
    }

    // Both ends round to one number: that is the answer.
    pub fn is_decided(self) -> bool
        ensures { result ≡ Ieee.eq (left_end self) (right_end self) }
    {
        self.left_end() == self.right_end()
    }
}
