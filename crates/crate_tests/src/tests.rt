//! Each call is asked once or a few times, with all the memory that it needs. A function that asks answers nothing
//! where a call is refused what it should be given.

mod base;
mod constants;
mod devices;
mod edit_rows;
mod fields;
mod item_rows;
mod layout_given;
mod layout_rows;
mod modules;
mod operations;
mod plan_rows;
mod texts;
mod tie_rows;
mod types;
mod uses;
