//! What is kept of an expression: its type, and the first of what is told of it (Fortran 90, 7.1.4, 12.4.1).

ghost use Rattle.std.specs.Prelude.{◌≡◌, true, false};
ghost use Rattle.std.specs.Option.{option_map};
ghost use Rattle.name_types.specs.steps.Kinds.{kind_seen};
ghost use Rattle.type_check.specs.steps.Kept.{told_key, told_seen, standing_seen, typed_seen};
ghost use Rattle.ftn_tree.specs.ExpressionTypes as spec;
ghost use Rattle.type_check.specs.steps.Sights as sights;

use crate::finding::rank;
use ftn_base::FaultKind;
use name_types::kinds::Kind;

/// A fault and its token.
#[derive(Clone, Copy)]
pub struct Told {
    pub kind: FaultKind,
    pub token: u32,
}

impl Told {
    /// Its place in the order of what is told: by the token, then by the kind.
    fn key(&self) -> u64
        ensures { result ≡ told_key (told_seen self.now) }
    {
        u64::from(self.token) * 8 + u64::from(rank(self.kind))
    }
}

/// Of two the first, where there is one.
pub fn sooner(one: Option<Told>, other: Option<Told>) -> Option<Told>
    ensures { option_map told_seen result ≡ sights.sooner_told (option_map told_seen one) (option_map told_seen other) }
{
    match one {
        None => other,
        Some(first) => match other {
            None => Some(first),
            Some(second) => {
                if second.key() < first.key() {
                    Some(second)
                } else {
                    Some(first)
                }
            }
        },
    }
}

/// What is told where that holds.
pub fn told_where(holds: bool, kind: FaultKind, token: u32) -> Option<Told>
    ensures { option_map told_seen result ≡ sights.told_where holds kind token }
{
    if holds {
        Some(Told { kind, token })
    } else {
        None
    }
}

/// The type where nothing is told.
pub fn kind_if(told: &Option<Told>, kind: Kind) -> Option<Kind>
    ensures { option_map kind_seen result ≡ sights.kind_if (option_map told_seen told.now) (kind_seen kind) }
{
    match told {
        None => Some(kind),
        Some(_) => None,
    }
}

/// How an expression stands where a variable may: a reference, an element of an array, by the name of a variable or the like, one that may
/// be defined (14.7.6).
#[derive(Clone, Copy)]
pub struct Standing {
    pub reference: bool,
    pub element: bool,
    pub datum: bool,
    pub definable: bool,
}

impl Standing {
    /// That of an expression that is no reference.
    pub fn none() -> Standing
        ensures { standing_seen result ≡ spec.no_reference }
    {
        Standing {
            reference: false,
            element: false,
            datum: false,
            definable: false,
        }
    }

    /// That of a function reference.
    pub fn call() -> Standing
        ensures { standing_seen result ≡ spec.standing true false false false }
    {
        Standing {
            reference: true,
            element: false,
            datum: false,
            definable: false,
        }
    }
}

/// An expression: its first token, its type and rank, the first of what is told of it and of what is passed to be defined and may not be, and
/// how it stands.
#[derive(Clone, Copy)]
pub struct Typed {
    pub first: u32,
    pub kind: Option<Kind>,
    pub told: Option<Told>,
    pub passed: Option<Told>,
    pub standing: Standing,
}

impl Typed {
    /// An expression of that type that is no reference, where nothing is told.
    pub fn expression(first: u32, kind: Kind, told: Option<Told>, passed: Option<Told>) -> Typed
        ensures { typed_seen result ≡ sights.expression first (kind_seen kind) (option_map told_seen told) (option_map told_seen passed) }
    {
        Typed {
            first,
            kind: kind_if(&told, kind),
            told,
            passed,
            standing: Standing::none(),
        }
    }

    /// Whether it has another type or rank than that.
    pub fn is_other_than(&self, kind: Kind) -> bool
        ensures { result ≡ sights.fails (spec.same_kind (kind_seen kind)) (typed_seen self.now) }
    {
        match self.kind {
            Some(found) => !kind.is_same(&found),
            None => false,
        }
    }

    /// The first of what is told of it in a place that wants that type and rank.
    pub fn wanted(&self, kind: Kind) -> Option<Told>
        ensures { option_map told_seen result ≡ sights.wanted (kind_seen kind) (typed_seen self.now) }
    {
        sooner(
            self.told,
            told_where(self.is_other_than(kind), FaultKind::WrongType, self.first),
        )
    }
}
