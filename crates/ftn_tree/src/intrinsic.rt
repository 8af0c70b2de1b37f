//! Intrinsic functions, and why an operation has no value.

/// An intrinsic function (Fortran 90, 13.10).
#[derive(Clone, Copy)]
pub enum Intrinsic {
    /// ABS.
    Abs,
    /// MOD.
    Mod,
    /// SIGN.
    Sign,
    /// MIN.
    Min,
    /// MAX.
    Max,
    /// LEN.
    Len,
    /// LEN_TRIM.
    LenTrim,
    /// TRIM.
    Trim,
    /// ICHAR.
    Ichar,
    /// CHAR.
    Char,
    /// INDEX.
    Index,
}

/// Why an operator or an intrinsic function gives no value for its operands.
#[derive(Clone, Copy)]
pub enum ValueFault {
    /// The result has more than 32 bits.
    TooBig,
    /// A divisor is zero, or zero has a negative exponent (7.2.1).
    ByZero,
    /// An argument, a subscript or a substring bound is out of range.
    OutOfRange,
    /// An operand has another type than is wanted.
    IllTyped,
}
