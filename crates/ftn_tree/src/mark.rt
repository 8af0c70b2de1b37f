//! What a statement is to the nesting of statements (Fortran 90, 2.3, 8.1, 11, 12).

ghost use Rattle.std.specs.Prelude.{◌≡◌};
ghost use Rattle.ftn_tree.specs.Marks as spec;

use crate::form::Form;
use crate::parts::{EndWord, ProcedureWord};

/// The word of an END and a name: of the END itself, or of a statement that opens what this END ends.
#[derive(Clone, Copy)]
pub struct Title {
    /// The word after END.
    pub word: EndWord,
    /// The token of the name, where one is written.
    pub name: Option<u32>,
}

/// What a statement is to the nesting of statements. An IF statement is what the statement in it is.
#[derive(Clone, Copy)]
pub enum Mark {
    /// USE (11.3.2).
    Use,
    /// IMPLICIT (5.3).
    Implicit,
    /// A type declaration or DIMENSION.
    Declaration,
    /// INTENT (5.2.1).
    Intent,
    /// PARAMETER, DATA, SAVE, COMMON, EQUIVALENCE or INTRINSIC, which a block data program unit may hold, too (11.4).
    Data,
    /// PUBLIC, PRIVATE or EXTERNAL.
    Specification,
    /// MODULE PROCEDURE (12.3.2.1).
    ModuleProcedure,
    /// The opening of a program unit, a procedure, an interface block or a construct.
    Open(Title),
    /// An executable statement that isn't one of those below.
    Action,
    /// EXIT or CYCLE, with the token of its construct name, where one is written (8.1.4.4).
    Leave(Option<u32>),
    /// RETURN (12.5.2.5).
    Return,
    /// ELSE IF (8.1.2).
    ElseIf,
    /// ELSE (8.1.2).
    Else,
    /// CASE with values (8.1.3).
    Case,
    /// CASE DEFAULT (8.1.3).
    Default,
    /// CONTAINS (12.5.2.6).
    Contains,
    /// END alone.
    PlainEnd,
    /// END with its word.
    End(Title),
}

/// What encloses a statement, the innermost thing that is open around it.
#[derive(Clone, Copy)]
pub enum Region {
    /// Nothing: the statement opens a program unit (2.1).
    File,
    /// A main program (11.1).
    MainProgram,
    /// A module (11.3).
    Module,
    /// A block data program unit (11.4).
    BlockData,
    /// A procedure that is a program unit (2.2.3.1).
    ExternalProcedure,
    /// A procedure in a module (2.2.3.2).
    ModuleProcedure,
    /// A procedure in a main program or in another procedure (2.2.3.3).
    InternalProcedure,
    /// An interface block without a name (12.3.2.1).
    Interface,
    /// An interface block with a generic name (12.3.2.1).
    GenericInterface,
    /// An interface body (12.3.2.1).
    Body,
    /// An IF construct (8.1.2).
    If,
    /// A DO construct (8.1.4).
    Do,
    /// A SELECT CASE construct (8.1.3).
    Select,
}

/// A part of what a region holds. Each opening stands for all that it opens.
#[derive(Clone, Copy)]
pub enum Content {
    /// Program units.
    Unit,
    /// Procedures, or bodies in an interface block.
    Procedure,
    /// Interface bodies and MODULE PROCEDURE statements.
    Specific,
    /// USE statements.
    Use,
    /// IMPLICIT statements.
    Implicit,
    /// Type declarations, DIMENSION and INTENT, which say characteristics of arguments (12.2.1).
    Characteristic,
    /// The specification statements but USE and IMPLICIT that a block data program unit may hold: type declarations, DIMENSION,
    /// PARAMETER, DATA, SAVE, COMMON, EQUIVALENCE and INTRINSIC (11.4).
    Data,
    /// All specification statements but USE and IMPLICIT, and interface blocks.
    Specification,
    /// Executable statements and constructs.
    Executable,
    /// CONTAINS.
    Contains,
    /// Executable statements and constructs, and ELSE IF.
    ElseIf,
    /// ELSE.
    Else,
    /// CASE, with values or DEFAULT.
    AnyCase,
    /// Executable statements and constructs, and CASE with values.
    Case,
    /// CASE DEFAULT.
    Default,
}

/// A stretch of the statements that a region holds.
#[derive(Clone, Copy)]
pub enum Section {
    /// Any number of statements of that part, none among them.
    Any(Content),
    /// Nothing at all up to the region's end, or one statement of that part.
    Once(Content),
    /// Nothing: it says that the next statement, if one follows, is of that part.
    First(Content),
}

impl Form {
    /// What the statement is to the nesting of statements.
    pub fn mark(&self) -> Mark
        ensures { result ≡ spec.mark_of self.now }
    {
        match self.action() {
            Form::UseAll { .. } | Form::UseOnly { .. } => Mark::Use,
            Form::Implicit { .. } => Mark::Implicit,
            Form::Declare { .. } | Form::Dimension { .. } => Mark::Declaration,
            Form::Intent { .. } => Mark::Intent,
            Form::Parameter { .. }
            | Form::Data { .. }
            | Form::Save { .. }
            | Form::Common { .. }
            | Form::Equivalence { .. } => Mark::Data,
            Form::Access { .. } => Mark::Specification,
            Form::External { word, .. } => procedures(*word),
            Form::ModuleProcedure { .. } => Mark::ModuleProcedure,
            Form::Interface { name } => open(EndWord::Interface, *name),
            Form::Program { name } => open(EndWord::Program, Some(*name)),
            Form::Module { name } => open(EndWord::Module, Some(*name)),
            Form::BlockData { joined, name } => open(EndWord::BlockData { joined: *joined }, *name),
            Form::Subroutine { name, .. } => open(EndWord::Subroutine, Some(*name)),
            Form::Function { name, .. } => open(EndWord::Function, Some(*name)),
            Form::IfThen { .. } => open(EndWord::If, None),
            Form::Do { label, .. } | Form::DoWhile { label, .. } => open(EndWord::Do, *label),
            Form::Select { .. } => open(EndWord::Select, None),
            Form::Assign { .. }
            | Form::Call { .. }
            | Form::If { .. }
            | Form::Stop { .. }
            | Form::Continue
            | Form::Print { .. }
            | Form::Read { .. } => Mark::Action,
            Form::Exit { label, .. } => Mark::Leave(*label),
            Form::Return => Mark::Return,
            Form::ElseIf { .. } => Mark::ElseIf,
            Form::Else => Mark::Else,
            Form::Case { ranges: Some(_) } => Mark::Case,
            Form::Case { ranges: None } => Mark::Default,
            Form::Contains => Mark::Contains,
            Form::End { of: None } => Mark::PlainEnd,
            Form::End { of: Some(ending) } => Mark::End(Title {
                word: ending.word,
                name: ending.name,
            }),
        }
    }

    /// The statement that is carried out where this one is: the one inside an IF statement, and else itself (8.1.2.4).
    pub fn action(&self) -> &Form
        ensures { result.now ≡ spec.action_of self.now }
    {
        match self {
            Form::If { inner, .. } => inner.get(),
            _ => self,
        }
    }
}

fn procedures(word: ProcedureWord) -> Mark
    ensures { result ≡ spec.procedure_mark word }
{
    match word {
        ProcedureWord::External => Mark::Specification,
        ProcedureWord::Intrinsic => Mark::Data,
    }
}

fn open(word: EndWord, name: Option<u32>) -> Mark
    ensures { result ≡ spec.opens word name }
{
    Mark::Open(Title { word, name })
}
