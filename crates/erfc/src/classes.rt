// The classes of arguments, by their bits.
ghost use Rattle.std.specs.Prelude.{◌≡◌};
ghost use Rattle.erfc.specs.Classes.{class_of};

use crate::answer::Refusal;
use crate::argument::{FAST_END, TAIL_END};

#[derive(Clone, Copy)]
pub enum Class {
    Nan,
    Zero,
    Two,
    One,
    // a tail argument with a fast step
    FastTail,
    // a tail argument without one
    FarTail,
    Listed,
}

pub fn classify(bits: u64) -> Result<Class, Refusal>
    ensures { result ≡ class_of bits }
{
    if bits <= 0x3c8c5bf891b4ef6a {
        Ok(Class::One)
    } else if bits < 0x400713786d9c7c0a {
        Err(Refusal::Positive)
    } else if bits < FAST_END {
        Ok(Class::FastTail)
    } else if bits == 0x403a8f7bfbd15495 {
        Ok(Class::Listed)
    } else if bits < TAIL_END {
        Ok(Class::FarTail)
    } else if bits <= 0x7ff0000000000000 {
        Ok(Class::Zero)
    } else if bits < 0x8000000000000000 {
        Ok(Class::Nan)
    } else if bits <= 0xbc9c5bf891b4ef6a {
        Ok(Class::One)
    } else if bits < 0xc017744f8f74e94b {
        Err(Refusal::Negative)
    } else if bits <= 0xfff0000000000000 {
        Ok(Class::Two)
    } else {
        Ok(Class::Nan)
    }
}
