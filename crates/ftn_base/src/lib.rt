//! Names, places, limits, arithmetic of 32 bits and plain data that every other crate stands on.
//!
//! It promises that a `Name` is made exactly of what the edition calls a name and is kept in lower case, that a
//! `FileName` is made exactly of 1 to 255 printable bytes without `/`, that lines and columns are counted from 1 in
//! bytes, that arithmetic is the one on whole numbers without bounds wherever its result has 32 bits, and that a tick
//! adds one and nothing else changes a count.
//!
//! All of its specs are to be trusted. Beside those of its own calls (`Limits`, `Arithmetic`, `Letters`, `Names`,
//! `Places`, `Keywords`, `Files`, `FaultNames`) they say what the crates over plain lists promise: `ImplicitLetters`;
//! `ModuleUses`, `ModuleOrders` and `ModuleCycles`; `Exports` and `Accessible`; `Storage`, `StorageMembers`,
//! `StorageGiven`, `StorageFaults` and `StorageLayout`.
//!
//! It isn't said when memory is wanting, nor what the texts of errors are.
#![tactic(auto)]

mod arithmetic;
mod bytes;
mod entity;
mod fault;
mod file_name;
mod implicit;
mod keywords;
mod letters;
mod limits;
mod memory;
mod name;
mod place;
mod short;
mod status;
mod steps;
mod storage;
mod uses;

pub use arithmetic::{ArithmeticFault, difference, negative, power, product, quotient, sum};
pub use bytes::Bytes;
pub use entity::{Bounds, EntityId, Length, Letter, Shape, Sort, Tie, Ty};
pub use fault::{Fault, FaultKind};
pub use file_name::FileName;
pub use implicit::Twice;
pub use keywords::{is_intrinsic, is_keyword};
pub use letters::{fold_byte, folded, is_blank, is_digit, is_letter, is_name_byte};
pub use limits::{
    GREATEST_INTEGER, LINE_LIMIT, Limit, MOST_CONSTRUCTS, MOST_FILE_BYTES, MOST_FILE_NAME_BYTES,
    MOST_FILES, MOST_FIRST_FORM_BYTES, MOST_PARENTHESES, MOST_PROJECT_BYTES, MOST_UNITS_OF_ALL,
    MOST_UNITS_OF_ONE, continuation_limit, name_limit,
};
pub use memory::NoMemory;
pub use name::{Edition, Name, NameFault, is_name};
pub use place::{Place, Range, Span, line_and_column, offset_at};
pub use short::ShortBytes;
pub use status::Status;
pub use steps::Steps;
pub use storage::{BlockList, Member, Object};
pub use uses::{Access, UseItem, UseList};
