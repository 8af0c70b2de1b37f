//! Why bytes give no plan.

ghost use Rattle.std.specs.Prelude.{◌≡◌};
ghost use Rattle.plan_file.specs.declared.fault.PlanFault.TheVariants as faults;
ghost use Rattle.plan_file.specs.declared.fault.Stop.TheVariants as stops;

use ftn_base::NoMemory;
use std::alloc::{AllocError, AllocFailed};
use thiserror::Error;

/// Why no plan was read.
#[derive(Clone, Copy, Debug, Error)]
pub enum PlanFault {
    /// The bytes are no plan's text. The first field that is broken or cut begins at this offset.
    #[error("NotAPlan")]
    NotAPlan(u32),
    /// An allocation was refused.
    #[error("NoMemory")]
    NoMemory,
}

impl From<NoMemory> for PlanFault {
    ghost from_gives = { λ _ fault. fault ≡ faults.NoMemory };

    fn from(_error: NoMemory) -> PlanFault {
        PlanFault::NoMemory
    }
}

/// Why reading stops.
#[derive(Clone, Copy)]
pub enum Stop {
    /// A field is broken or cut. So many bytes are left from its start on.
    Broken(usize),
    /// An allocation was refused.
    NoMemory,
}

impl From<NoMemory> for Stop {
    ghost from_gives = { λ _ stop. stop ≡ stops.NoMemory };

    fn from(_error: NoMemory) -> Stop {
        Stop::NoMemory
    }
}

impl From<AllocError> for Stop {
    ghost from_gives = { λ _ stop. stop ≡ stops.NoMemory };

    fn from(_error: AllocError) -> Stop {
        Stop::NoMemory
    }
}

impl<T: Drop> From<AllocFailed<T>> for Stop {
    ghost from_gives = { λ _ stop. stop ≡ stops.NoMemory };

    fn from(_error: AllocFailed<T>) -> Stop {
        Stop::NoMemory
    }
}
