//! Why an operation has no value.

ghost use Rattle.std.specs.Prelude.{◌≡◌};
ghost use Rattle.ftn_interp.specs.declared.halt.Halt.TheVariants as halts;

use core_prog::{FaultCode, Site};
use ftn_base::NoMemory;

/// Why an operation of a run has no value, and so the run doesn't go on.
#[derive(Clone, Copy)]
pub enum Halt {
    /// A fault, at this token.
    Faulted(FaultCode, Site),
    /// The operands are none that the operation takes. In a lawful program that doesn't happen, and the run counts as cut.
    Cut,
    /// An allocation was refused.
    NoMemory,
}

impl From<NoMemory> for Halt {
    ghost from_gives = { λ _ halt. halt ≡ halts.NoMemory };

    fn from(_error: NoMemory) -> Halt {
        Halt::NoMemory
    }
}
