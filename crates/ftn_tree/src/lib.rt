//! Tokens, trees and tables of Fortran 90 source text, and the definitions that readers of it meet.
//!
//! Its own calls say what a token is in the grammar, what a statement is to nesting, and give the names of a statement with what is said
//! of them (`Form::push_mentions`) and its expressions with what their places want (`Form::push_expressions`). Two laws tie trees to
//! tokens: `operators_are_those_of_tokens` and `names_are_those_of_tokens`. A third, `units_around_are_extents`, ties the units around a
//! statement to the extents of a project.
//!
//! All of its specs are to be trusted, by whoever cites them:
//! source form (`Lines`, `Code`, `Logical`, `Pieces`, `Reading`, `Breaks`); expressions (`Lexemes`, `Operators`, `Levels`, `Trees`,
//! `Phrases`, `Grammar`, `Misfits`); statements (`Assignments`, `TypeForms`, `SpecificationForms`, `UnitForms`, `Specifications`,
//! `ExecutableForms`); nesting (`Marks`, `Regions`, `Nesting`, `NestFaults`); files and projects (`FileFaults`, `ProjectFaults`,
//! `ProjectLimits`); names and expressions of statements (`Roles`, `Expressions`, `PartMentions`, `Mentions`, `RowNames`, `Wants`);
//! scoping units and declarations (`Around`, `Extents`, `Scopes`, `ScopeLetters`, `Sayings`, `Exclusions`, `GlobalNames`,
//! `DeclarationFaults`, `DeclaredEntities`); kinds of entities (`Kinds`); records and items of lists (`ListRecords`, `ListItems`); what
//! names denote (`Meanings`, `Bindings`, `NameFaults`); values, operators and intrinsic functions (`Sorts`, `Operations`, `Intrinsics`,
//! `Arrays`); constants, shapes and initial values (`Declarations`, `KeyKinds`, `Evaluations`, `Circles`, `Constants`, `Shapes`, `Cases`,
//! `ConstantFaults`, `Givens`, `EntityValues`); types (`Procedures`, `ExpressionTypes`, `Calls`, `DataTypes`, `TypeFaults`); the first fault
//! of all these (`StageFaults`).
//!
//! That a text has a tree or a fault is shown by the crates that read, and what is declared by `decl_table`. No crate gives yet what
//! names denote, nor values and types.
#![tactic(auto)]

mod around;
mod expr;
mod form;
mod intrinsic;
mod laws;
mod lexeme;
mod mark;
mod mention;
mod mentions;
mod operator;
mod parts;
mod piece;
mod table;
mod token;
mod unit;
mod value;
mod want;
mod wants;

pub use around::units_around_are_extents;
pub use expr::{Expr, Part};
pub use form::Form;
pub use intrinsic::{Intrinsic, ValueFault};
pub use laws::{names_are_those_of_tokens, operators_are_those_of_tokens};
pub use lexeme::Lexeme;
pub use mark::{Content, Mark, Region, Section, Title};
pub use mention::{Mention, Role};
pub use operator::Operator;
pub use parts::{
    AccessWord, ArrayDecl, Attribute, AttributeKind, BlockName, BoundPair, CaseRange, CharLength,
    CommonGroup, CommonMember, DataConstant, DataGroup, DataValue, Designator, DoControl, EndWord,
    Ending, EntityDecl, ImplicitType, IntentMode, IoStyle, LeaveWord, LengthSelector, LengthValue,
    LetterGroup, LetterRange, NamedConstant, OnlyItem, ProcedureWord, Rename, Repeat, SaveItem,
    Sign, TypeSpec,
};
pub use piece::{PieceKind, Spot};
pub use table::{
    Bound, Entity, EntityKind, Extent, Occurrence, Scope, ScopeKind, StatementId, TableFault,
    Tables,
};
pub use token::{Token, TokenKind, Tokens};
pub use unit::{Arm, Block, FileTree, Statement, Unit};
pub use value::{Given, Kind, Value, Values};
pub use want::{Placed, Want};
