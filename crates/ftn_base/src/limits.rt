//! Limits and numbers: those of source form by edition (3.2.1, 3.3.1), and this project's own.

ghost use Rattle.std.specs.Prelude.{◌≡◌};
ghost use Rattle.ftn_base.specs.Limits as spec;

use crate::name::Edition;

/// How many bytes a line may have before its end (3.3.1).
pub const LINE_LIMIT: usize = 132;

/// The greatest whole number.
pub const GREATEST_INTEGER: u32 = 2_147_483_647;

/// How deep parentheses may nest.
pub const MOST_PARENTHESES: usize = 200;

/// How deep IF, DO and SELECT CASE may nest.
pub const MOST_CONSTRUCTS: usize = 100;

/// How many files a project may have.
pub const MOST_FILES: u32 = 4096;

/// How many bytes the name of a file may have.
pub const MOST_FILE_NAME_BYTES: usize = 255;

/// How many bytes a file may have.
pub const MOST_FILE_BYTES: u32 = 4_194_304;

/// How many bytes all files of a project may have.
pub const MOST_PROJECT_BYTES: u32 = 16_777_216;

/// How many bytes the text of a project in first form may have.
pub const MOST_FIRST_FORM_BYTES: u32 = 65_536;

/// How many storage units a variable or a result may have.
pub const MOST_UNITS_OF_ONE: u32 = 1_048_576;

/// How many storage units all variables and results may have.
pub const MOST_UNITS_OF_ALL: u32 = 16_777_216;

/// A limit that a project passes.
#[derive(Clone, Copy)]
pub enum Limit {
    /// It has more than `MOST_FILES` files.
    Files,
    /// One of its files has more than `MOST_FILE_BYTES` bytes.
    File,
    /// Its files up to one of them have more than `MOST_PROJECT_BYTES` bytes.
    Project,
}

/// How many bytes a name of the edition may have (3.2.1).
pub fn name_limit(edition: Edition) -> usize
    ensures { result ≡ spec.name_limit edition }
{
    match edition {
        Edition::F90 => 31,
        Edition::F2003 => 63,
    }
}

/// How many lines may continue a statement of the edition (3.3.1.3).
pub fn continuation_limit(edition: Edition) -> u32
    ensures { result ≡ spec.continuation_limit edition }
{
    match edition {
        Edition::F90 => 39,
        Edition::F2003 => 255,
    }
}
