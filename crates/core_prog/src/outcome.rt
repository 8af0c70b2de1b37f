//! How a run ends.

/// What stops a run that can't go on (this project's own).
#[derive(Clone, Copy)]
pub enum FaultCode {
    /// A read of a storage unit that holds nothing, or something of another type than the reference has (Fortran 90, 14.7).
    Undefined,
    /// An integer outside 32 bits.
    Overflow,
    /// A zero divisor, a zero increment of DO, or 0 to a negative power.
    Zero,
    /// A subscript or a substring out of range (5.1.1.5, 6.2.2).
    Bounds,
    /// A dummy argument that needs more storage units than its actual argument has (12.4.1).
    Extent,
    /// A call of a procedure that is active (12.5.2).
    Recursion,
    /// CHAR of a number that is no byte, or ICHAR of a value that isn't one character (13.13).
    Range,
    /// An item of input that is none of its type (10.8.1).
    Input,
    /// No record where READ needs one (9.4.3).
    End,
}

/// How a run of a program ends.
#[derive(Clone, Copy)]
pub enum Outcome {
    /// By STOP or at the end of the main program (2.3.4).
    Stop,
    /// By a fault.
    Fault(FaultCode),
    /// A step was needed, and none was left.
    Spent,
}
