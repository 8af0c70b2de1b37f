//! The types of a project (Fortran 90, 5.1, 5.2.9, 7.1.4, 7.5.1, 8.1, 9.4.2, 12.3.2, 12.4), and which procedures its references call.
//!
//! `check` gives exactly the first fault of a project's types, as it is defined; `calls_of` the procedure that each reference calls, of a
//! generic name the specific one. To be trusted are `Procedures`, `ExpressionTypes`, `DataTypes`, `TypeFaults` and `Calls` of `ftn_tree`, and
//! what they stand on; `specs/steps` serves proofs alone, but for what the contract of `calls_of` cites. It isn't said how long a call takes:
//! it grows about in line with statements and names, but for generic references, which ask each specific procedure.
#![tactic(auto)]

mod actions;
mod arguments;
mod calls;
mod checking;
mod constants;
mod data;
mod data_objects;
mod data_references;
mod data_runs;
mod data_values;
mod designators;
mod expression_calls;
mod faults;
mod finding;
mod function_references;
mod generic_references;
mod natures;
mod operators;
mod places;
mod procedures;
mod project;
mod references;
mod said_names;
mod statement_calls;
mod statements;
mod typed;
mod typing;

pub use calls::{CallSite, calls_of};
pub use checking::check;
