//! What ends a run early.

ghost use Rattle.std.specs.Prelude.{◌≡◌};
ghost use Rattle.rename_ref.specs.declared.first_meaning.halt.Halt.TheVariants as halts;

use crate::first_meaning::Outcome;
use ftn_base::NoMemory;
use std::alloc::{AllocError, AllocFailed};

/// Why a run ends before its program does.
#[derive(Clone, Copy)]
pub(crate) enum Halt {
    /// It faulted, or its steps are spent.
    Ended(Outcome),
    /// An allocation was refused.
    NoMemory,
}

impl From<Outcome> for Halt {
    ghost from_gives = { λ outcome halt. halt ≡ halts.Ended outcome };

    fn from(outcome: Outcome) -> Halt {
        Halt::Ended(outcome)
    }
}

impl From<NoMemory> for Halt {
    ghost from_gives = { λ _ halt. halt ≡ halts.NoMemory };

    fn from(_error: NoMemory) -> Halt {
        Halt::NoMemory
    }
}

impl From<AllocError> for Halt {
    ghost from_gives = { λ _ halt. halt ≡ halts.NoMemory };

    fn from(_error: AllocError) -> Halt {
        Halt::NoMemory
    }
}

impl<T: Drop> From<AllocFailed<T>> for Halt {
    ghost from_gives = { λ _ halt. halt ≡ halts.NoMemory };

    fn from(_error: AllocFailed<T>) -> Halt {
        Halt::NoMemory
    }
}
