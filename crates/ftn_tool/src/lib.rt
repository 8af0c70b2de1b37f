//! The top call of `ftn_tool`: words in, a status out, and what the command changed in the files of a store.
//!
//! `tool` says for each command which answer comes when, what is written, and what is left of the files; `read_words` gives the command
//! that words mean, or the position of the bad word. To be trusted are `Words`, `Verdicts`, `Answers`, `Recovering` and `Rising`
//! here, `Middle` and `Found` of `plan_store`, `ProjectFaults` and `ProjectLimits` of `ftn_tree`, and what these cite; `steps` serves proofs alone. Time and memory aren't
//! said.
#![tactic(auto)]

mod carry;
mod checking;
mod command;
mod judging;
mod lines;
mod order;
mod over_project;
mod project;
mod recovering;
mod top;
mod verdict;

pub use command::{Command, Order, ProjectCommand, Request, WordsFault, read_words};
pub use top::tool;
