//! The resolved program and what it does when it runs (Fortran 90, 2.3.4, 6, 7, 8, 9.4, 12.4).
//!
//! No code runs here: the crate has the data of a resolved program, and its meaning as definitions. `Runs` in `specs/` says for each
//! program, input and number of steps what is printed, how the run ends and how much of the input is taken. To be trusted are all
//! files of `specs/`.
#![tactic(auto)]

mod expr;
mod io;
mod laws;
mod outcome;
mod program;
mod site;
mod stmt;
mod storage;

pub use expr::{Actuals, ConstantRef, Expr, Exprs, Substring, VariableRef};
pub use ftn_tree::{Intrinsic, ValueFault};
pub use io::{Inputs, Outputs};
pub use laws::{a_run_is_one, more_steps_only_add, places_return, room_is_free, time_passes};
pub use outcome::{FaultCode, Outcome};
pub use program::{Core, Procedure};
pub use site::Site;
pub use stmt::{Action, Arm, Case, CaseValues, Stmt};
pub use storage::{Area, Content, Dimension, Home, Limit, Run, Variable};
