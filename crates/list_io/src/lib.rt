//! Records that PRINT and WRITE make, and items that READ takes from a record (Fortran 90, 10.8).
//!
//! `line` gives exactly the record of its values, `item` exactly the value of an item of a type or that there is none,
//! and a value whose text is one item is read back as it was written. To be trusted are `ListRecords` and `ListItems` of
//! `ftn_tree` and `ReadBack` here. How a record is cut into items isn't said here.
#![tactic(auto)]

mod fault;
mod reading;
mod writing;

pub use fault::ItemFault;
pub use reading::{is_item_byte, item, items_are_read_back};
pub use writing::line;
