//! Programs in first form: one main program of integer scalars, assignments and `print *`.

mod clean;
mod lines;
mod names;
mod program;
mod reading;
mod rows;
mod statements;
mod token;

pub use lines::is_plain;
pub use program::{Operand, Program, Sign, Statement, Sum, Term};
pub use reading::{FirstForm, one_program_per_text, read_first_form};
pub use token::{PieceKind, PlacedPiece, pieces_are_unique, scan};
