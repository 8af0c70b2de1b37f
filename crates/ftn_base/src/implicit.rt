//! Ranges of letters in IMPLICIT statements (Fortran 90, 5.3).

/// The first letter of a range that a range of the same scoping unit gave before (5.3).
#[derive(Clone, Copy)]
pub struct Twice(pub u8);
