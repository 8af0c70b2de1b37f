//! Values, and what is known of entities as values.

ghost use Rattle.std.specs.Prelude.{◌≡◌, IfOk};

use ftn_base::{Bytes, EntityId, NoMemory, Shape, Span, Ty};
use sqlite_items::Items;
use std::alloc::Global;

/// A value of a type of the profile (Fortran 90, 4.3).
#[derive(Drop)]
pub enum Value {
    /// An integer.
    Whole(i32),
    /// A logical.
    Truth(bool),
    /// A character value, by its bytes.
    Chars(Bytes),
}

impl Value {
    /// An equal value in memory of its own.
    pub fn copy(&self, alloc: Global) -> Result<Value, NoMemory>
        ensures { IfOk result (λ same. same ≡ self.now) }
    {
        Ok(match self {
            Value::Whole(value) => Value::Whole(*value),
            Value::Truth(value) => Value::Truth(*value),
            Value::Chars(bytes) => Value::Chars(bytes.copy(alloc)?),
        })
    }
}

/// The type and the rank of a variable, a constant, a dummy argument or a result (2.4.1, 2.4.5).
#[derive(Clone, Copy)]
pub struct Kind {
    /// The type. A length that is no constant is that of the actual argument or of the value.
    pub ty: Ty,
    /// The number of dimensions, 0 of a scalar.
    pub rank: u32,
}

/// An initial value (5.1, 5.2.9, 14.7.4): what storage units of a variable hold before the run begins.
#[derive(Drop)]
pub struct Given {
    /// The variable.
    pub entity: EntityId,
    /// The first of its own storage units that the value reaches, from 0.
    pub first: u32,
    /// How many elements have the value.
    pub count: u32,
    /// The value of each, a character value padded or cut to the element's length.
    pub value: Value,
    /// The name that says so.
    pub span: Span,
}

/// What is known of the entities of a project as values. The first three lists have one entry for each entity, by its number.
#[derive(Drop)]
pub struct Values {
    /// The type and the bounds, where all bounds are constant.
    pub shapes: Items<Option<Shape>>,
    /// The value of a scalar constant, or of each element of an array constant.
    pub constants: Items<Option<Value>>,
    /// The type and the rank of each variable, constant, dummy argument and result, whether or not its bounds are constant.
    pub kinds: Items<Option<Kind>>,
    /// The initial values that declarations and DATA give, in the order of statements.
    pub given: Items<Given>,
}
