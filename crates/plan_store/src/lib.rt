//! Changes of many files of a store that a stop can't leave half done.
//!
//! The text of a plan is put as `ftn.plan` first, then each file of the plan, and then the plan is taken away. Over a store that
//! tells its files a failed call leaves the whole old files, the whole new ones, or files amid the change, which the plan completes
//! however often that is tried: the law `recoveries_complete`. To be trusted are `Middle`, `Found` and `Recoveries`; `steps` serves proofs alone.
#![tactic(auto)]

mod finding;
mod putting;
mod recoveries;

pub use finding::{FindFault, Found, find_plan, is_listed};
pub use putting::{PlanFile, finish, plan_name, put_plan};
pub use recoveries::recoveries_complete;
