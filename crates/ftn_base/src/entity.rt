//! Plain data on entities: types, shapes and ties.

ghost use Rattle.std.specs.Prelude.{◌≡◌, IfOk, [], ◌∷◌, ◌++◌};

use crate::memory::NoMemory;
use smallvec::SmallVec;
use std::alloc::Global;
use std::marker::Model;

/// The length of a character entity, in characters (4.3.2.1).
#[derive(Clone, Copy, PartialEq, Eq)]
pub enum Length {
    /// That many characters.
    Fixed(u32),
    /// `*`: the length of the actual argument or of the value.
    Assumed,
}

/// A type of the profile (4.3): default integer, default logical or default character.
#[derive(Clone, Copy, PartialEq, Eq)]
pub enum Ty {
    /// INTEGER, of 32 bits.
    Integer,
    /// LOGICAL.
    Logical,
    /// CHARACTER.
    Character(Length),
}

/// The implicit type of a first letter (5.3).
#[derive(Clone, Copy)]
pub enum Letter {
    /// No type, under IMPLICIT NONE.
    Nothing,
    /// REAL, which the profile leaves out.
    Real,
    /// A type of the profile.
    Known(Ty),
}

/// The bounds of an array, from the first dimension on: the lower and the upper one (5.1.2.4).
/// Contracts see the list of pairs.
#[derive(Drop)]
pub struct Bounds {
    pairs: SmallVec<(i32, i32), 2>,
}

impl Model for Bounds {
    ghost use Rattle.std.specs.Prelude.{List, ℤ};

    ghost Value = { List (ℤ × ℤ) };

    ghost view = { λ a. a.pairs.items };
}

impl Bounds {
    /// The bounds of a scalar: none.
    pub fn new(alloc: Global) -> Bounds
        ensures { result ≡ [] }
    {
        Bounds {
            pairs: SmallVec::new(alloc),
        }
    }

    /// These bounds and those of one more dimension. What it takes is of the allocator of `new`.
    pub fn with(self, low: i32, high: i32) -> Result<Bounds, NoMemory>
        ensures { IfOk result (λ made. made ≡ self ++ (low, high) ∷ []) }
    {
        let Bounds { mut pairs } = self;
        pairs.push((low, high))?;
        Ok(Bounds { pairs })
    }

    /// The pairs of a lower and an upper bound, lent.
    pub fn pairs(&self) -> &[(i32, i32)]
        ensures { result.now ≡ self.now }
    {
        self.pairs.as_slice()
    }

    /// Equal bounds in memory of their own.
    pub fn copy(&self, alloc: Global) -> Result<Bounds, NoMemory>
        ensures { IfOk result (λ same. same ≡ self.now) }
    {
        Ok(Bounds {
            pairs: SmallVec::from_slice(alloc, self.pairs())?,
        })
    }
}

/// The type and the bounds of an entity; a scalar has no bounds (5.1).
#[derive(Drop)]
pub struct Shape {
    /// The type.
    pub ty: Ty,
    /// The bounds of each dimension.
    pub bounds: Bounds,
}

impl Shape {
    /// An equal shape in memory of its own.
    pub fn copy(&self, alloc: Global) -> Result<Shape, NoMemory>
        ensures { IfOk result (λ same. same ≡ self.now) }
    {
        Ok(Shape {
            ty: self.ty,
            bounds: self.bounds.copy(alloc)?,
        })
    }
}

/// The number of an entity in its project.
#[derive(Clone, Copy)]
pub struct EntityId(pub u32);

/// An EQUIVALENCE tie (5.5.1): unit `at_a` of object `a` is unit `at_b` of object `b`, in storage units from 0.
#[derive(Clone, Copy)]
pub struct Tie {
    /// The first object.
    pub a: u32,
    /// The unit of the first object.
    pub at_a: u32,
    /// The second object.
    pub b: u32,
    /// The unit of the second object.
    pub at_b: u32,
}

/// The sort of a storage unit (14.6.3.1).
#[derive(Clone, Copy)]
pub enum Sort {
    /// A unit of an integer or a logical.
    Numeric,
    /// A unit of one character.
    Character,
}
