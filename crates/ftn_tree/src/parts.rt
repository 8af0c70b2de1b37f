//! Parts of statement forms.

use crate::expr::Expr;
use ftn_base::Bytes;
use sqlite_items::Items;

/// The type that a declaration or a FUNCTION statement writes (Fortran 90, 5.1.1).
#[derive(Drop)]
pub enum TypeSpec {
    /// `INTEGER`.
    Integer,
    /// `LOGICAL`.
    Logical,
    /// `CHARACTER`, with its length where one is written; without one it is 1.
    Character(Option<LengthSelector>),
}

/// The length that stands after `CHARACTER` (5.1.1.5).
#[derive(Drop)]
pub enum LengthSelector {
    /// `* length`.
    Star(CharLength),
    /// `( length )` or `( LEN = length )`.
    Paren {
        /// Whether `LEN =` is written.
        has_word: bool,
        /// The length.
        length: LengthValue,
    },
}

/// A length after `*` (5.1.1.5).
#[derive(Drop)]
pub enum CharLength {
    /// A whole number.
    Whole {
        /// Its token.
        token: u32,
        /// The number of characters.
        value: i32,
    },
    /// A length in parentheses.
    Paren(LengthValue),
}

/// A length as it is written (5.1.1.5).
#[derive(Drop)]
pub enum LengthValue {
    /// `*`: the length of the actual argument or of the value.
    Assumed,
    /// An expression, which has to be constant.
    Given(Expr),
}

/// The type of a group of IMPLICIT (5.3).
#[derive(Drop)]
pub enum ImplicitType {
    /// `REAL`, which the profile has here alone.
    Real,
    /// A type of the profile.
    Known(TypeSpec),
}

/// A type and the letters that it is given to (5.3).
#[derive(Drop)]
pub struct LetterGroup {
    /// The type.
    pub ty: ImplicitType,
    /// The letters in their parentheses.
    pub ranges: Items<LetterRange>,
}

/// A letter or a range of letters, each by its token (5.3).
#[derive(Clone, Copy)]
pub struct LetterRange {
    /// The first letter.
    pub first: u32,
    /// The last letter, where one is written after a `-`.
    pub last: Option<u32>,
}

/// One dimension of an array (5.1.2.4).
#[derive(Drop)]
pub struct BoundPair {
    /// The lower bound, if it is written; else it is 1.
    pub low: Option<Expr>,
    /// The upper bound, or nothing for `*`, which stands in the last dimension alone.
    pub high: Option<Expr>,
}

/// `PUBLIC` or `PRIVATE` (5.2.3).
#[derive(Clone, Copy)]
pub enum AccessWord {
    /// Accessible where the module is used.
    Public,
    /// Accessible in the module alone.
    Private,
}

/// `EXTERNAL` or `INTRINSIC` (12.3.2.2, 12.3.2.3).
#[derive(Clone, Copy)]
pub enum ProcedureWord {
    /// A procedure of the project.
    External,
    /// An intrinsic function.
    Intrinsic,
}

/// What stands in the parentheses of INTENT (5.2.1).
#[derive(Clone, Copy)]
pub enum IntentMode {
    /// `IN`.
    In,
    /// `OUT`.
    Out,
    /// `INOUT` or `IN OUT`.
    InOut {
        /// Whether it is one word.
        joined: bool,
    },
}

/// An attribute of a type declaration with its first token (5.1.2).
#[derive(Drop)]
pub struct Attribute {
    /// Its word.
    pub token: u32,
    /// Which one it is.
    pub kind: AttributeKind,
}

/// What an attribute says (5.1.2).
#[derive(Drop)]
pub enum AttributeKind {
    /// `PARAMETER`.
    Parameter,
    /// `SAVE`.
    Save,
    /// `PUBLIC` or `PRIVATE`.
    Access(AccessWord),
    /// `EXTERNAL` or `INTRINSIC`.
    Procedure(ProcedureWord),
    /// `INTENT ( mode )`.
    Intent(IntentMode),
    /// `DIMENSION ( bounds )`, one to seven of them.
    Dimension(Items<BoundPair>),
}

/// An entity in a type declaration (5.1).
#[derive(Drop)]
pub struct EntityDecl {
    /// The name.
    pub name: u32,
    /// Bounds of its own, one to seven of them.
    pub bounds: Option<Items<BoundPair>>,
    /// A length of its own, after `*`. It stands under CHARACTER alone.
    pub length: Option<CharLength>,
    /// The initial value after `=`.
    pub value: Option<Expr>,
}

/// A name with bounds in DIMENSION (5.2.5).
#[derive(Drop)]
pub struct ArrayDecl {
    /// The name.
    pub name: u32,
    /// The bounds, one to seven of them.
    pub bounds: Items<BoundPair>,
}

/// A name and its value in PARAMETER (5.2.10).
#[derive(Drop)]
pub struct NamedConstant {
    /// The name.
    pub name: u32,
    /// The value.
    pub value: Expr,
}

/// An item of SAVE (5.2.4).
#[derive(Clone, Copy)]
pub enum SaveItem {
    /// The name of a variable.
    Variable(u32),
    /// The name of a common block, between slashes.
    Block(u32),
}

/// A rename of USE, `local => source` (11.3.2).
#[derive(Clone, Copy)]
pub struct Rename {
    /// The name that it has here.
    pub local: u32,
    /// The name that it has in the module.
    pub source: u32,
}

/// An item after ONLY, `source` or `local => source` (11.3.2).
#[derive(Clone, Copy)]
pub struct OnlyItem {
    /// The name that it has here, where one of its own is written.
    pub local: Option<u32>,
    /// The name that it has in the module.
    pub source: u32,
}

/// What stands before the members of a group of COMMON (5.5.2).
#[derive(Clone, Copy)]
pub enum BlockName {
    /// Nothing, before the first group alone: blank common.
    Unwritten,
    /// Two slashes: blank common.
    Blank {
        /// The first slash, or the mark `//`.
        slash: u32,
        /// Whether they are the one mark `//`.
        joined: bool,
    },
    /// A name between slashes.
    Named {
        /// The first slash.
        slash: u32,
        /// The name.
        name: u32,
    },
}

/// A list of members of one block in COMMON (5.5.2).
#[derive(Drop)]
pub struct CommonGroup {
    /// Whether a comma stands before it, which it may from the second group on.
    pub comma: bool,
    /// The block.
    pub block: BlockName,
    /// The members.
    pub members: Items<CommonMember>,
}

/// A member of a common block (5.5.2).
#[derive(Drop)]
pub struct CommonMember {
    /// The name.
    pub name: u32,
    /// Bounds, one to seven of them.
    pub bounds: Option<Items<BoundPair>>,
}

/// A variable or an array element in EQUIVALENCE or DATA (5.5.1, 5.2.9).
#[derive(Drop)]
pub struct Designator {
    /// The name.
    pub name: u32,
    /// The subscripts in their parentheses.
    pub subscripts: Option<Items<Expr>>,
}

/// How often a value of DATA is given (5.2.9).
#[derive(Clone, Copy)]
pub enum Repeat {
    /// As often as a whole number says.
    Whole {
        /// Its token.
        token: u32,
        /// What it stands for.
        value: i32,
    },
    /// As often as a named constant says.
    Named(u32),
}

/// The sign before a number of DATA (5.2.9).
#[derive(Clone, Copy)]
pub enum Sign {
    /// `+`.
    Plus,
    /// `-`.
    Minus,
}

/// A constant of DATA (5.2.9).
#[derive(Drop)]
pub enum DataConstant {
    /// A whole number, with a sign before it if one is written.
    Whole {
        /// The sign, whose token is the one before the number's.
        sign: Option<Sign>,
        /// The number's token.
        token: u32,
        /// What it stands for without its sign.
        value: i32,
    },
    /// `.TRUE.` or `.FALSE.`.
    Truth {
        /// Its token.
        token: u32,
        /// What it stands for.
        value: bool,
    },
    /// A character constant.
    Quoted {
        /// Its token.
        token: u32,
        /// The bytes that it stands for.
        value: Bytes,
    },
    /// The name of a constant.
    Named(u32),
}

/// A value of DATA, `[repeat *] constant` (5.2.9).
#[derive(Drop)]
pub struct DataValue {
    /// How often it is given, if that is written; else once.
    pub repeat: Option<Repeat>,
    /// The constant.
    pub constant: DataConstant,
}

/// Objects of DATA and the values that they get (5.2.9).
#[derive(Drop)]
pub struct DataGroup {
    /// Whether a comma stands before it, which it may from the second group on.
    pub comma: bool,
    /// The objects, one at least.
    pub objects: Items<Designator>,
    /// The values between the slashes, one at least.
    pub values: Items<DataValue>,
}

/// What END ends (2.3.3, 8.1).
#[derive(Clone, Copy)]
pub enum EndWord {
    /// `PROGRAM`.
    Program,
    /// `MODULE`.
    Module,
    /// `BLOCK DATA`.
    BlockData {
        /// Whether it is one word.
        joined: bool,
    },
    /// `SUBROUTINE`.
    Subroutine,
    /// `FUNCTION`.
    Function,
    /// `INTERFACE`.
    Interface,
    /// `IF`.
    If,
    /// `DO`.
    Do,
    /// `SELECT`.
    Select,
}

/// What stands after END.
#[derive(Clone, Copy)]
pub struct Ending {
    /// The word.
    pub word: EndWord,
    /// Whether END and the word, or the first of its two words, are written as one word.
    pub joined: bool,
    /// The name after it.
    pub name: Option<u32>,
}

/// The control of a counted DO, `variable = from, to, step` (8.1.4.1).
#[derive(Drop)]
pub struct DoControl {
    /// Whether a comma stands before it.
    pub comma: bool,
    /// The name of the DO variable.
    pub variable: u32,
    /// What the variable begins with.
    pub from: Expr,
    /// What it goes to.
    pub to: Expr,
    /// What it grows by, if that is written; else 1.
    pub step: Option<Expr>,
}

/// EXIT or CYCLE (8.1.4.4).
#[derive(Clone, Copy)]
pub enum LeaveWord {
    /// `EXIT`: leave the loop.
    Exit,
    /// `CYCLE`: leave this turn of the loop.
    Cycle,
}

/// A range of a CASE statement (8.1.3.1).
#[derive(Drop)]
pub enum CaseRange {
    /// `value`.
    One(Expr),
    /// `low :`.
    From(Expr),
    /// `: high`.
    To(Expr),
    /// `low : high`.
    Between {
        /// The least value.
        low: Expr,
        /// The greatest value.
        high: Expr,
    },
}

/// How an input or output statement begins (9.4).
#[derive(Clone, Copy)]
pub enum IoStyle {
    /// `PRINT *` or `READ *`; a comma stands before the first item.
    Star,
    /// `WRITE ( *, * )` or `READ ( *, * )`; no comma stands before the first item.
    Paren,
}
