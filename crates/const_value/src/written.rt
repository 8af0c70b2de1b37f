//! The first type, bounds and value that statements write for a name.

ghost use Rattle.std.specs.Prelude.{◌≡◌};
ghost use Rattle.std.specs.Option.{option_map};
ghost use Rattle.const_value.specs.steps.Written as steps;

use crate::declared::Declared;
use ftn_tree::{BoundPair, CharLength, Expr, TypeSpec};

/// A type as it is written, with the entity's own length.
#[derive(Clone, Copy)]
pub struct Typing<'a> {
    /// The token of the name where the type is written.
    pub name: u32,
    /// The type.
    pub ty: &'a TypeSpec,
    /// The entity's own length.
    pub length: Option<&'a CharLength>,
}

/// What statements write for a name, of each the first.
#[derive(Clone, Copy)]
pub struct Written<'a> {
    /// The first type.
    pub typing: Option<Typing<'a>>,
    /// The first bounds.
    pub bounds: Option<&'a [BoundPair]>,
    /// The first value.
    pub value: Option<&'a Expr>,
}

impl<'a> Written<'a> {
    /// Nothing.
    pub fn nothing() -> Written<'a>
        ensures { steps.written_seen result ≡ steps.nothing }
    {
        Written {
            typing: None,
            bounds: None,
            value: None,
        }
    }

    /// With what one more statement declares.
    pub(crate) fn with(&self, declared: &Declared<'a>) -> Written<'a>
        ensures { steps.written_seen result ≡ steps.with_declared (steps.written_seen self.now) declared.now }
    {
        Written {
            typing: match self.typing {
                Some(typing) => Some(typing),
                None => typing_in(declared),
            },
            bounds: self.bounds.or(declared.bounds),
            value: self.value.or(declared.value),
        }
    }

    /// The bounds; a scalar has none.
    pub fn pairs(&self) -> &'a [BoundPair]
        ensures { result.now ≡ steps.pairs (steps.written_seen self.now) }
    {
        match self.bounds {
            Some(pairs) => pairs,
            None => &[],
        }
    }
}

fn typing_in<'a>(declared: &Declared<'a>) -> Option<Typing<'a>>
    ensures { option_map steps.typing_seen result ≡ steps.typing_in declared.now }
{
    match declared.ty {
        Some(ty) => Some(Typing {
            name: declared.name,
            ty,
            length: declared.length,
        }),
        None => None,
    }
}
