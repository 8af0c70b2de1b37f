//! Constants, shapes and initial values (Fortran 90, 2.4, 5.1, 5.2.9, 5.2.10, 7.1.6.1).
//!
//! `values` gives what is known of the entities of a project as values, as it is defined, or exactly the first fault of its constants and
//! shapes. To be trusted are `Evaluations`, `Circles`, `Constants`, `Shapes`, `Cases`, `ConstantFaults`, `Givens` and `EntityValues` of
//! `ftn_tree`, and what they stand on. A character value of more than 2^24 bytes counts as want of memory. It isn't said how long a call
//! takes: it grows about in line with expressions and names, but for CASE values, which add the square of the logarithm of their number.
#![tactic(auto)]

mod case_faults;
mod circles;
mod components;
mod data;
mod declared;
mod entity_lists;
mod entity_shapes;
mod entity_values;
mod faults;
mod finding;
mod given_files;
mod given_runs;
mod givens;
mod intervals;
mod knowledge;
mod lengths;
pub mod links;
mod measured;
mod measuring;
pub mod name_numbers;
pub mod project;
mod project_faults;
pub mod said;
mod shape_faults;
mod statement_faults;
pub mod tables;
mod telling;
mod view;
pub mod written;

pub use entity_values::values;
