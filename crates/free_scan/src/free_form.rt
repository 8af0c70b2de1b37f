//! Tokens of free source form.

mod carried;
mod firsts;
mod line;
mod pieces;
mod reader;
mod row;
mod run;
mod scanner;
mod tokens;
mod values;

pub use pieces::one_row_of_pieces;
pub(crate) use pieces::{is_mark, is_pair};
pub use tokens::{ScanFault, scan};
