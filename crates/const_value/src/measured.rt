//! What is known of a name: its type with its length, its bounds, its value.

ghost use Rattle.std.specs.Prelude.{◌≡◌};
ghost use Rattle.std.specs.Option.{option_copied};
ghost use Rattle.const_value.specs.steps.Knowing as steps;

use ftn_base::{Bounds, Ty};
use ftn_tree::Value;

/// What is known of a name.
#[derive(Drop)]
pub(crate) struct Measured {
    /// The type as it is declared, where its length is known.
    pub ty: Option<Ty>,
    /// The bounds, where all are known. A scalar has none of them.
    pub bounds: Option<Bounds>,
    /// Whether a dimension has no element.
    pub empty: bool,
    /// The value of a constant that isn't defined by itself, or of each of its elements.
    pub value: Option<Value>,
}

impl Measured {
    /// Nothing is known.
    pub fn unknown() -> Measured
        ensures { result ≡ steps.unknown }
    {
        Measured {
            ty: None,
            bounds: None,
            empty: false,
            value: None,
        }
    }

    /// The bounds, where the length is known too and there is an element.
    pub fn known_bounds(&self) -> Option<&Bounds>
        ensures { option_copied result ≡ steps.known_bounds self.now }
    {
        if self.empty || self.ty.is_none() {
            None
        } else {
            self.bounds.as_ref()
        }
    }
}
