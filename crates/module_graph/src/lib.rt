//! The order of modules, each after those that it uses, and the cycle where there is none (Fortran 90,
//! 11.3).
//!
//! `order` promises the one order that puts the least ready module first, or the least cycle, and an order exactly
//! where there is no cycle. To be trusted are `Uses` and `Faults` here, and `ModuleUses`, `ModuleOrders` and
//! `ModuleCycles` of `ftn_base`; `steps` serves proofs alone. It isn't said which of several cycles through the least
//! module is told, nor how long it takes: that grows in line with the entries of the lists.
#![tactic(auto)]

mod entries;
mod fault;
mod groups;
mod modules;
mod placing;
mod search;
mod waiting;
mod walk;

pub use fault::GraphFault;
pub use modules::order;
