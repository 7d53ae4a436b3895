// The library for C: what bihumlad offers, under the names that C calls.
#![tactic(auto)]

ghost use Rattle.std.specs.Prelude.{◌≡◌};
ghost use Rattle.double_double.specs.Fused.{fused_ops};
ghost use Rattle.double_double.specs.Plain.{plain_ops};
ghost use Rattle.double_double.specs.declared.fused.Fused.{Fused as FusedState};
ghost use Rattle.double_double.specs.declared.plain.Plain.{Plain as PlainState};
ghost use Rattle.erfc.specs.Answers.{evaluation};
ghost use Rattle.bihumlad.specs.Crossing.{crossing};

use bihumlad::{Evaluated, evaluate};
use double_double::fused::Fused;
use double_double::plain::Plain;

// Two functions, since C calls each by its name.
#[unsafe(no_mangle)]
pub extern "C" fn bihumlad_erfc_plain(bits: u64) -> Evaluated
    ensures { (s : PlainState) → result ≡ crossing (evaluation plain_ops s bits).1 }
{
    evaluate(&mut Plain, bits)
}

#[unsafe(no_mangle)]
pub extern "C" fn bihumlad_erfc_fused(bits: u64) -> Evaluated
    ensures { (s : FusedState) → result ≡ crossing (evaluation fused_ops s bits).1 }
{
    evaluate(&mut Fused, bits)
}
