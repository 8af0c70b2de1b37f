//! Why rows could not be read.

use ftn_base::{NameFault, NoMemory};
use std::alloc::{AllocError, AllocFailed};
use std::num::ParseIntError;
use std::str::Utf8Error;

/// Why rows could not be read or compared.
#[derive(Clone, Copy)]
pub enum RowFault {
    /// A line says nothing that a row can say.
    BadLine,
    /// An allocation was refused.
    NoMemory,
    /// A file of rows could not be read.
    NoFile,
}

impl RowFault {
    /// The fault in words.
    pub fn text(self) -> &'static str {
        match self {
            RowFault::BadLine => "a line of it says nothing that a row can say",
            RowFault::NoMemory => "an allocation was refused",
            RowFault::NoFile => "it could not be read",
        }
    }
}

impl From<AllocError> for RowFault {
    fn from(_error: AllocError) -> RowFault {
        RowFault::NoMemory
    }
}

impl<T: Drop> From<AllocFailed<T>> for RowFault {
    fn from(_error: AllocFailed<T>) -> RowFault {
        RowFault::NoMemory
    }
}

impl From<NoMemory> for RowFault {
    fn from(_error: NoMemory) -> RowFault {
        RowFault::NoMemory
    }
}

impl From<NameFault> for RowFault {
    fn from(error: NameFault) -> RowFault {
        match error {
            NameFault::NotAName => RowFault::BadLine,
            NameFault::NoMemory => RowFault::NoMemory,
        }
    }
}

impl From<Utf8Error> for RowFault {
    fn from(_error: Utf8Error) -> RowFault {
        RowFault::BadLine
    }
}

impl From<ParseIntError> for RowFault {
    fn from(_error: ParseIntError) -> RowFault {
        RowFault::BadLine
    }
}
