//! What calls on the outside answer where they don't succeed.

ghost use Rattle.std.specs.Prelude.{◌≡◌};
ghost use Rattle.store_io.specs.declared.fault.ListFault.TheVariants as list;
ghost use Rattle.store_io.specs.declared.fault.ReadFault.TheVariants as read;

use ftn_base::NoMemory;
use std::alloc::{AllocError, AllocFailed};
use thiserror::Error;

/// The outside failed: a device answered an error, and the device's count of faults rose.
#[derive(Clone, Copy)]
pub struct Failed;

/// Why a list of names could not be given.
#[derive(Clone, Copy, Debug, Error)]
pub enum ListFault {
    /// The store failed, and its count of faults rose.
    #[error("Failed")]
    Failed,
    /// There was no memory for the names.
    #[error("NoMemory")]
    NoMemory,
}

/// Why a text could not be given.
#[derive(Clone, Copy, Debug, Error)]
pub enum ReadFault {
    /// The store failed, and its count of faults rose.
    #[error("Failed")]
    Failed,
    /// The store has no file of that name.
    #[error("Absent")]
    Absent,
    /// There was no memory for the text.
    #[error("NoMemory")]
    NoMemory,
}

/// Why a file could not be taken away.
#[derive(Clone, Copy, Debug, Error)]
pub enum RemoveFault {
    /// The store failed, and its count of faults rose.
    #[error("Failed")]
    Failed,
    /// The store has no file of that name.
    #[error("Absent")]
    Absent,
}

/// Why a sink took nothing.
#[derive(Clone, Copy, Debug, Error)]
pub enum SinkFault {
    /// The sink failed, and its count of faults rose.
    #[error("Failed")]
    Failed,
    /// The sink had no memory, and its count of wants rose.
    #[error("NoMemory")]
    NoMemory,
}

impl From<AllocError> for ListFault {
    ghost from_gives = { λ _ fault. fault ≡ list.NoMemory };

    fn from(_error: AllocError) -> ListFault {
        ListFault::NoMemory
    }
}

impl<T: Drop> From<AllocFailed<T>> for ListFault {
    ghost from_gives = { λ _ fault. fault ≡ list.NoMemory };

    fn from(_error: AllocFailed<T>) -> ListFault {
        ListFault::NoMemory
    }
}

impl From<NoMemory> for ListFault {
    ghost from_gives = { λ _ fault. fault ≡ list.NoMemory };

    fn from(_error: NoMemory) -> ListFault {
        ListFault::NoMemory
    }
}

impl From<AllocError> for ReadFault {
    ghost from_gives = { λ _ fault. fault ≡ read.NoMemory };

    fn from(_error: AllocError) -> ReadFault {
        ReadFault::NoMemory
    }
}
