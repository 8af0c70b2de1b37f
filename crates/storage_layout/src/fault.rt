//! Why there is no layout.

ghost use Rattle.std.specs.Prelude.{◌≡◌};
ghost use Rattle.storage_layout.specs.declared.fault.LayoutFault.TheVariants as fault;

use ftn_base::NoMemory;
use std::alloc::AllocError;

/// Why there is no layout. Ties, objects and lists have their numbers, from 0.
#[derive(Clone, Copy, Drop)]
pub enum LayoutFault {
    /// The first object that takes more than 2^20 units, or with which all take more than 2^24.
    TooLarge(u32),
    /// The first tie that makes two different units of one sequence one (5.5.1).
    Conflict(u32),
    /// The first tie that extends a common block before its first unit (5.5.2.3).
    BeforeStart(u32),
    /// The first tie that joins two common blocks (5.5.2.3).
    TwoBlocks(u32),
    /// A numeric and a character unit are one (5.5.1, 5.5.2.3).
    SortMismatch {
        /// The first tie that makes such units one.
        tie: Option<u32>,
        /// The list and the position in it of the first member with which the lists alone make such units one.
        member: Option<(u32, u32)>,
    },
    /// The first list by which a named block ends elsewhere than in its first scoping unit (5.5.2.4).
    CommonSize(u32),
    /// There was no memory for the answer.
    NoMemory,
}

impl From<NoMemory> for LayoutFault {
    ghost from_gives = { λ _ made. made ≡ fault.NoMemory };

    fn from(_error: NoMemory) -> LayoutFault {
        LayoutFault::NoMemory
    }
}

impl From<AllocError> for LayoutFault {
    ghost from_gives = { λ _ made. made ≡ fault.NoMemory };

    fn from(_error: AllocError) -> LayoutFault {
        LayoutFault::NoMemory
    }
}
