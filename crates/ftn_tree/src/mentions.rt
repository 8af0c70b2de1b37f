//! The names in a statement, each with what is said of it there.

mod entities;
mod extents;
mod forms;
mod given;
mod naming;
mod others;
mod shared;
