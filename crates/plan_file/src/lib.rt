//! Plans of changes, and their text.
//!
//! `write_plan` gives the one text of a valid plan, `read_plan` the one plan of a text, or the start of the first field
//! that is broken or cut, and no plan's text is a front of another's. To be trusted are `Plans` and `Fields`; `steps`
//! serves proofs alone. What a plan changes isn't said here.
#![tactic(auto)]

mod fault;
mod fields;
mod plan;
mod reading;
mod writing;

pub use fault::PlanFault;
pub use plan::Plan;
pub use reading::{plan_texts_stay_apart, read_plan};
pub use writing::write_plan;
