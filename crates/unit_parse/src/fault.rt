//! Why statements don't nest.

ghost use Rattle.std.specs.Prelude.{◌≡◌};
ghost use Rattle.unit_parse.specs.declared.fault.NestFault.TheVariants as fault;
ghost use Rattle.unit_parse.specs.declared.fault.ParseFault.TheVariants as parse_fault;

use ftn_base::{FaultKind, NoMemory, Range};

/// Why statements don't nest.
#[derive(Clone, Copy, Drop)]
pub enum NestFault {
    /// The first statement that can't stand where it does; at the end, the innermost opening that has no ending.
    At {
        /// `Misplaced`, `OutOfProfile` or `TooDeep`.
        kind: FaultKind,
        /// The number of the statement in the file, from 0.
        statement: u32,
    },
    /// There was no memory for the trees.
    NoMemory,
}

impl From<NoMemory> for NestFault {
    ghost from_gives = { λ _ made. made ≡ fault.NoMemory };

    fn from(_error: NoMemory) -> NestFault {
        NestFault::NoMemory
    }
}

/// Why a file is not read.
#[derive(Clone, Copy, Drop)]
pub enum ParseFault {
    /// The first fault of the file.
    At {
        /// What is wrong.
        kind: FaultKind,
        /// The bytes of the first token of the statement.
        range: Range,
    },
    /// No memory was left.
    NoMemory,
}

impl From<NoMemory> for ParseFault {
    ghost from_gives = { λ _ made. made ≡ parse_fault.NoMemory };

    fn from(_error: NoMemory) -> ParseFault {
        ParseFault::NoMemory
    }
}
