//! Types and ranks, and procedures as references see them (Fortran 90, 2.4.5, 12.2).

ghost use Rattle.std.specs.Prelude.{◌≡◌};
ghost use Rattle.std.specs.Option.{option_map};
ghost use Rattle.ftn_tree.specs.ExpressionTypes as spec;
ghost use Rattle.ftn_tree.specs.KeyKinds as kinds;
ghost use Rattle.ftn_tree.specs.Sorts as sorts;
ghost use Rattle.const_value.specs.steps.Projects.{sort_seen};
ghost use Rattle.name_types.specs.steps.Kinds.{kind_seen};

use const_value::project::Sort;
use ftn_tree::{Extent, Intrinsic};

/// Whether both are one type.
pub fn same_sort(one: Sort, other: Sort) -> bool
    ensures { result ≡ sorts.same_sort (sort_seen one) (sort_seen other) }
{
    match one {
        Sort::Whole => matches!(other, Sort::Whole),
        Sort::Truth => matches!(other, Sort::Truth),
        Sort::Text => matches!(other, Sort::Text),
    }
}

/// A type without its length, and a rank (2.4.5).
#[derive(Clone, Copy)]
pub struct Kind {
    pub sort: Sort,
    pub rank: usize,
}

impl Kind {
    /// A scalar of a type.
    pub fn scalar(sort: Sort) -> Kind
        ensures { kind_seen result ≡ kinds.kind (sort_seen sort) 0 }
    {
        Kind { sort, rank: 0 }
    }

    /// An integer.
    pub fn integer() -> Kind
        ensures { kind_seen result ≡ spec.integer }
    {
        Kind::scalar(Sort::Whole)
    }

    /// A logical value.
    pub fn logical() -> Kind
        ensures { kind_seen result ≡ spec.logical }
    {
        Kind::scalar(Sort::Truth)
    }

    /// A character value.
    pub fn character() -> Kind
        ensures { kind_seen result ≡ spec.character }
    {
        Kind::scalar(Sort::Text)
    }

    /// Whether both are one type and rank.
    pub fn is_same(&self, other: &Kind) -> bool
        ensures { result ≡ spec.same_kind (kind_seen self.now) (kind_seen other.now) }
    {
        same_sort(self.sort, other.sort) && self.rank == other.rank
    }

    /// Whether it is an array's.
    pub fn is_array(&self) -> bool
        ensures { result ≡ spec.is_array (kind_seen self.now) }
    {
        self.rank > 0
    }
}

/// A dummy argument: its type and rank where it has a type, and whether what is passed to it is defined (5.1.2.3).
#[derive(Clone, Copy)]
pub struct Formal {
    pub kind: Option<Kind>,
    pub out: bool,
}

/// A procedure: its dummy arguments in their order, whether it is a function, and its result's type and rank (12.2).
#[derive(Drop)]
pub struct Signature {
    pub procedure: Extent,
    pub formals: Vec<Formal>,
    pub function: bool,
    pub result: Option<Kind>,
}

/// What a name is where it stands (12.4.1).
#[derive(Clone, Copy)]
pub enum Sense<'a> {
    /// A variable, a constant, a dummy argument or a result, and whether it may be defined.
    Data {
        kind: Kind,
        definable: bool,
    },
    /// With arguments: a function in itself.
    Itself(&'a Signature),
    /// Another procedure.
    Procedure(&'a Signature),
    /// A generic name: the numbers of the scoping units of its specific procedures, and the procedures of all scoping units.
    Generic {
        specifics: &'a [u32],
        signatures: &'a [Signature],
    },
    /// An intrinsic function.
    Intrinsic(Intrinsic),
    /// Nothing that may stand there.
    Other,
}
