//! Faults of a project.

ghost use Rattle.std.specs.Prelude.{◌≡◌};
ghost use Rattle.ftn_base.specs.FaultNames.{name_of};

use crate::place::Span;

/// What is wrong with a project. The names are those that are printed.
#[derive(Clone, Copy)]
pub enum FaultKind {
    /// A byte that may not stand there, or that begins no token (3.1).
    BadByte,
    /// A character constant without its closing quote (4.3.2.1).
    OpenText,
    /// A line of more than 132 bytes (3.3.1).
    LongLine,
    /// A statement of more than 39 continuation lines (3.3.1.3).
    ManyContinuations,
    /// An `&` alone on its line, or one that no line follows (3.3.1.3).
    LoneAmpersand,
    /// A name of more than 31 bytes (3.2.1).
    LongName,
    /// A whole number above 2147483647.
    BigNumber,
    /// Tokens that are no statement.
    NotAStatement,
    /// A statement that the profile leaves out.
    OutOfProfile,
    /// Parentheses or constructs nested too deep.
    TooDeep,
    /// A statement out of its place (2.3.1).
    Misplaced,
    /// A name declared twice (14.1.2).
    Twice,
    /// Attributes that exclude each other, a local declaration of a name that USE makes accessible, or a value
    /// in two CASE lists.
    Conflicting,
    /// A name that denotes nothing.
    Unknown,
    /// A module that uses itself by way of others (11.3.2).
    Cycle,
    /// A USE item that its module doesn't make public (11.3.2).
    NotPublic,
    /// A reference by a name that two entities have (11.3.2).
    Ambiguous,
    /// A name whose implicit type is REAL (5.3).
    RealOutOfProfile,
    /// An expression that isn't constant where one is needed (7.1.6.1).
    NotConstant,
    /// A constant outside 32 bits.
    Overflow,
    /// A constant divided by zero.
    Zero,
    /// A constant defined by itself.
    Circular,
    /// Bounds or a length that the profile doesn't have.
    BadShape,
    /// An expression of another type or rank than its place wants.
    WrongType,
    /// Another number of arguments or subscripts than is declared.
    WrongCount,
    /// A generic reference that fits no specific procedure (12.3.2.1).
    NoSpecific,
    /// A generic reference that fits two specific procedures (14.1.2.3).
    TwoSpecifics,
    /// Something that may not be defined stands where it is defined.
    NotDefinable,
    /// More storage units than the limit.
    TooLarge,
    /// An EQUIVALENCE that makes two units of one sequence one (5.5.1).
    Conflict,
    /// An EQUIVALENCE that extends a block before its first unit (5.5.2.5).
    BeforeStart,
    /// An EQUIVALENCE that joins two blocks (5.5.2.5).
    TwoBlocks,
    /// A numeric and a character unit that would be one.
    SortMismatch,
    /// A named block of two sizes (5.5.2.4).
    CommonSize,
    /// A unit that two values are given to at the start (5.2.9).
    InitialTwice,
    /// No main program.
    NoMain,
    /// A second main program (2.1).
    TwoMains,
    /// The project isn't in the form that this version reads.
    NotBuilt,
}

/// A fault of a project: its kind, where it is, and the second place that some kinds have.
#[derive(Clone, Copy)]
pub struct Fault {
    /// What is wrong.
    pub kind: FaultKind,
    /// Where, if the fault has a place.
    pub span: Option<Span>,
    /// The second place of `Twice`, `Ambiguous`, `SortMismatch` and `InitialTwice`.
    pub other: Option<Span>,
}

impl FaultKind {
    /// The name that is printed.
    pub fn name(self) -> &'static str
        ensures { result.now ≡ name_of self }
    {
        match self {
            FaultKind::BadByte => "BadByte",
            FaultKind::OpenText => "OpenText",
            FaultKind::LongLine => "LongLine",
            FaultKind::ManyContinuations => "ManyContinuations",
            FaultKind::LoneAmpersand => "LoneAmpersand",
            FaultKind::LongName => "LongName",
            FaultKind::BigNumber => "BigNumber",
            FaultKind::NotAStatement => "NotAStatement",
            FaultKind::OutOfProfile => "OutOfProfile",
            FaultKind::TooDeep => "TooDeep",
            FaultKind::Misplaced => "Misplaced",
            FaultKind::Twice => "Twice",
            FaultKind::Conflicting => "Conflicting",
            FaultKind::Unknown => "Unknown",
            FaultKind::Cycle => "Cycle",
            FaultKind::NotPublic => "NotPublic",
            FaultKind::Ambiguous => "Ambiguous",
            FaultKind::RealOutOfProfile => "RealOutOfProfile",
            FaultKind::NotConstant => "NotConstant",
            FaultKind::Overflow => "Overflow",
            FaultKind::Zero => "Zero",
            FaultKind::Circular => "Circular",
            FaultKind::BadShape => "BadShape",
            FaultKind::WrongType => "WrongType",
            FaultKind::WrongCount => "WrongCount",
            FaultKind::NoSpecific => "NoSpecific",
            FaultKind::TwoSpecifics => "TwoSpecifics",
            FaultKind::NotDefinable => "NotDefinable",
            FaultKind::TooLarge => "TooLarge",
            FaultKind::Conflict => "Conflict",
            FaultKind::BeforeStart => "BeforeStart",
            FaultKind::TwoBlocks => "TwoBlocks",
            FaultKind::SortMismatch => "SortMismatch",
            FaultKind::CommonSize => "CommonSize",
            FaultKind::InitialTwice => "InitialTwice",
            FaultKind::NoMain => "NoMain",
            FaultKind::TwoMains => "TwoMains",
            FaultKind::NotBuilt => "NotBuilt",
        }
    }
}
