// Tail arguments.
ghost use Rattle.std.specs.Prelude.{◌≡◌, ◌<◌, ◌≤◌, from_bits};
ghost use Rattle.std.specs.Float.{binary64};
ghost use Rattle.erfc.specs.Rows.{tail_first};

use std::num::f64_from_bits_with_nan;

// There is no fast step from these bits on.
pub const FAST_END: u64 = 0x4039db1bb14e15ca;

// The tail ends before these bits.
pub const TAIL_END: u64 = 0x403b39dc41e48bfd;

// A tail argument, by bits below END.
#[derive(Clone, Copy)]
pub struct TailArgument<const END: u64> {
    pub bits: u64,
    ghost first: { tail_first ≤ bits },
    ghost below: { bits < END },
}

impl<const END: u64> From<TailArgument<END>> for f64 {
    ghost from_gives = { λ t x. x ≡ from_bits binary64 t.bits };

    fn from(argument: TailArgument<END>) -> f64 {
        f64_from_bits_with_nan(argument.bits)
    }
}

impl From<TailArgument<FAST_END>> for TailArgument<TAIL_END> {
    ghost from_gives = { λ t u. u.bits ≡ t.bits };

    fn from(argument: TailArgument<FAST_END>) -> Self {
        TailArgument {
            bits: argument.bits,
        }
    }
}
