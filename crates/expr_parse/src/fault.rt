//! Why tokens are not read.

use ftn_base::NoMemory;
use std::alloc::{AllocError, AllocFailed};

/// Why a row of tokens is no statement and no expression.
#[derive(Clone, Copy)]
pub enum StatementFault {
    /// It is none of Fortran 90, as far as can be told.
    NotAStatement,
    /// It has a form that Fortran 90 may have, and the profile hasn't.
    OutOfProfile,
    /// Its parentheses nest more than 200 deep.
    TooDeep,
    /// No memory was left.
    NoMemory,
}

/// Why the tokens that come next are not read in one form.
#[derive(Clone, Copy)]
pub enum Misfit {
    /// They don't have this form.
    NoFit,
    /// No memory was left.
    NoMemory,
}

impl From<NoMemory> for Misfit {
    ghost use Rattle.std.specs.Prelude.{◌≡◌};
    ghost use Rattle.expr_parse.specs.declared.fault.Misfit.TheVariants as misfit;

    ghost from_gives = { λ fault gives. gives ≡ misfit.NoMemory };

    fn from(_fault: NoMemory) -> Misfit {
        Misfit::NoMemory
    }
}

impl From<AllocError> for Misfit {
    ghost use Rattle.std.specs.Prelude.{◌≡◌};
    ghost use Rattle.expr_parse.specs.declared.fault.Misfit.TheVariants as misfit;

    ghost from_gives = { λ fault gives. gives ≡ misfit.NoMemory };

    fn from(_fault: AllocError) -> Misfit {
        Misfit::NoMemory
    }
}

impl<T: Drop> From<AllocFailed<T>> for Misfit {
    ghost use Rattle.std.specs.Prelude.{◌≡◌};
    ghost use Rattle.expr_parse.specs.declared.fault.Misfit.TheVariants as misfit;

    ghost from_gives = { λ fault gives. gives ≡ misfit.NoMemory };

    fn from(_fault: AllocFailed<T>) -> Misfit {
        Misfit::NoMemory
    }
}
