//! Scoping units, entities and occurrences of names.

ghost use Rattle.std.specs.Prelude.{◌≡◌};
ghost use Rattle.ftn_tree.specs.Kinds as spec;
ghost use Rattle.ftn_tree.specs.declared.table.TableFault.TheVariants as table_fault;

use crate::mention::Role;
use ftn_base::{Bytes, EntityId, Fault, Letter, Name, NoMemory, Span};
use sqlite_items::Items;
use std::alloc::{AllocError, AllocFailed};

/// Why a project has no tables.
#[derive(Clone, Copy)]
pub enum TableFault {
    /// The first fault of the project.
    Project(Fault),
    /// An allocation was refused.
    NoMemory,
}

impl From<NoMemory> for TableFault {
    ghost from_gives = { λ _ fault. fault ≡ table_fault.NoMemory };

    fn from(_error: NoMemory) -> TableFault {
        TableFault::NoMemory
    }
}

impl From<AllocError> for TableFault {
    ghost from_gives = { λ _ fault. fault ≡ table_fault.NoMemory };

    fn from(_error: AllocError) -> TableFault {
        TableFault::NoMemory
    }
}

impl<T: Drop> From<AllocFailed<T>> for TableFault {
    ghost from_gives = { λ _ fault. fault ≡ table_fault.NoMemory };

    fn from(_error: AllocFailed<T>) -> TableFault {
        TableFault::NoMemory
    }
}

/// The statements that a program unit, a procedure, an interface body or an interface block takes up (Fortran 90, 2.2, 12.3.2.1).
#[derive(Clone, Copy)]
pub struct Extent {
    /// The number of its file.
    pub file: u32,
    /// The number of the statement that opens it.
    pub opening: u32,
    /// The number of its END statement.
    pub ending: u32,
}

/// What a scoping unit is (Fortran 90, 14.1.1).
#[derive(Clone, Copy)]
pub enum ScopeKind {
    /// A main program.
    Program,
    /// A module.
    Module,
    /// A block data program unit.
    BlockData,
    /// A subroutine.
    Subroutine,
    /// A function.
    Function,
    /// An interface body, of a subroutine or of a function.
    Body,
}

impl ScopeKind {
    /// Whether it is a procedure that the project defines.
    pub fn is_procedure(self) -> bool
        ensures { result ≡ spec.is_procedure_scope self }
    {
        matches!(self, ScopeKind::Subroutine | ScopeKind::Function)
    }

    /// Whether executable statements may stand in it: in a main program or a procedure.
    pub fn holds_executables(self) -> bool
        ensures { result ≡ spec.holds_executables self }
    {
        matches!(
            self,
            ScopeKind::Program | ScopeKind::Subroutine | ScopeKind::Function
        )
    }
}

/// A statement of the project.
#[derive(Clone, Copy)]
pub struct StatementId {
    /// The number of its file.
    pub file: u32,
    /// Its number in the file.
    pub statement: u32,
}

/// A scoping unit (14.1.1): a program unit, a procedure or an interface body. The scoping units of a project are numbered from 0,
/// by file and by the offset of their openings.
#[derive(Drop)]
pub struct Scope {
    /// What it is.
    pub kind: ScopeKind,
    /// Its folded name, with the host's path and `/` before it. A BLOCK DATA without a name has `%blockdata`.
    pub path: Bytes,
    /// The number of its host (2.2.3): of the scoping unit around it, also for an interface body.
    pub host: Option<u32>,
    /// The first token of its opening.
    pub opening: Span,
    /// The statement that opens it, by which its [`crate::Unit`] is found.
    pub unit: StatementId,
    /// The implicit types of the letters from A to Z, 26 of them (5.3).
    pub letters: Items<Letter>,
}

/// What an entity is (14.1).
#[derive(Clone, Copy)]
pub enum EntityKind {
    /// A main program.
    Program,
    /// A module.
    Module,
    /// A block data program unit.
    BlockData,
    /// A subroutine.
    Subroutine,
    /// A function. Without RESULT its result is the same entity.
    Function,
    /// A variable other than a dummy argument or a result.
    Variable,
    /// A named constant.
    Constant,
    /// A dummy argument.
    Dummy,
    /// The result of a function with RESULT.
    Answer,
    /// A common block.
    Block,
    /// A generic name.
    Generic,
    /// A construct name.
    Construct,
    /// An intrinsic function.
    Intrinsic,
}

impl EntityKind {
    /// Whether it is a procedure that the project defines.
    pub fn is_procedure(self) -> bool
        ensures { result ≡ spec.is_procedure self }
    {
        matches!(self, EntityKind::Subroutine | EntityKind::Function)
    }

    /// Whether it is a variable, a dummy argument or the result after RESULT (2.4.3.1.1).
    pub fn is_variable(self) -> bool
        ensures { result ≡ spec.is_variable self }
    {
        matches!(
            self,
            EntityKind::Variable | EntityKind::Dummy | EntityKind::Answer
        )
    }

    /// Whether it is a program unit's or a procedure's, and so has a scoping unit of its own.
    pub fn is_unit(self) -> bool
        ensures { result ≡ spec.is_unit self }
    {
        matches!(
            self,
            EntityKind::Program
                | EntityKind::Module
                | EntityKind::BlockData
                | EntityKind::Subroutine
                | EntityKind::Function
        )
    }
}

/// An entity. Those of a project are numbered from 0, by file and by the offset of their first tokens, blank common last.
#[derive(Drop)]
pub struct Entity {
    /// Its folded name. Blank common and a BLOCK DATA without a name have none.
    pub name: Option<Name>,
    /// The scoping unit that it belongs to. Main programs, modules, block data program units, external procedures, common blocks
    /// and intrinsic functions belong to none.
    pub home: Option<u32>,
    /// What it is.
    pub kind: EntityKind,
    /// Its first token.
    pub first: Span,
    /// Whether its type comes from its first letter alone (5.3).
    pub implicit: bool,
    /// The scoping unit that it opens: that of a program unit or a procedure.
    pub opens: Option<u32>,
}

/// A name token. Those of a project are numbered from 0, by file and by offset.
#[derive(Drop)]
pub struct Occurrence {
    /// The token.
    pub span: Span,
    /// The scoping unit in which it stands. The names of an opening, also of an interface body's, stand in what is opened.
    pub scope: u32,
    /// The folded name.
    pub name: Name,
    /// Where in its statement it stands.
    pub role: Role,
}

/// The scoping units of a project, its entities, and where its names occur.
#[derive(Drop)]
pub struct Tables {
    /// The scoping units.
    pub scopes: Items<Scope>,
    /// The entities.
    pub entities: Items<Entity>,
    /// The occurrences of names.
    pub occurrences: Items<Occurrence>,
}

/// Tables in which each name is bound to what it denotes (14.1.2).
#[derive(Drop)]
pub struct Bound {
    /// The tables.
    pub tables: Tables,
    /// What each occurrence denotes.
    pub denotes: Items<EntityId>,
    /// For each scoping unit the local names and entities that its USE statements make accessible (11.3.2).
    pub accessible: Items<Items<(Name, EntityId)>>,
}
