//! Why ties make no classes.

ghost use Rattle.std.specs.Prelude.{◌≡◌};
ghost use Rattle.equiv_class.specs.declared.fault.TieFault.TheVariants as fault;

use ftn_base::NoMemory;
use std::alloc::AllocError;

/// Why there are no classes.
#[derive(Clone, Copy, Drop)]
pub enum TieFault {
    /// The first tie that contradicts those before it (5.5.1): it would make two different units of one sequence
    /// one.
    Conflict {
        /// The number of the tie, from 0.
        tie: u32,
        /// The unit of the tie's first object, as an offset in the sequence that the ties before it make.
        one: u32,
        /// The unit of the tie's second object, in the same sequence.
        other: u32,
    },
    /// There was no memory for the answer.
    NoMemory,
}

impl From<NoMemory> for TieFault {
    ghost from_gives = { λ _ made. made ≡ fault.NoMemory };

    fn from(_error: NoMemory) -> TieFault {
        TieFault::NoMemory
    }
}

impl From<AllocError> for TieFault {
    ghost from_gives = { λ _ made. made ≡ fault.NoMemory };

    fn from(_error: AllocError) -> TieFault {
        TieFault::NoMemory
    }
}
