//! What an expression gives.

ghost use Rattle.std.specs.Prelude.{◌≡◌};
ghost use Rattle.ftn_tree.specs.Evaluations as spec;
ghost use Rattle.const_expr.specs.Seen.{seen};

use crate::told::Told;
use ftn_tree::Value;

/// What an expression gives where a constant one is wanted.
#[derive(Drop)]
pub struct Evaluated {
    /// Its first token.
    pub first: u32,
    /// Its value, where it has one.
    pub value: Option<Value>,
    /// The first of what is told of it.
    pub told: Told,
}

impl Evaluated {
    /// A literal.
    pub(crate) fn sure(first: u32, value: Value) -> Evaluated
        ensures { result ≡ seen (spec.sure first value) }
    {
        Evaluated {
            first,
            value: Some(value),
            told: Told::nothing(),
        }
    }

    /// A name that has no place in a constant expression.
    pub(crate) fn stray(token: u32) -> Evaluated
        ensures { result ≡ seen (spec.stray token) }
    {
        Evaluated {
            first: token,
            value: None,
            told: Told::stray(token),
        }
    }

    /// The same in parentheses.
    pub(crate) fn in_parens(self, token: u32) -> Evaluated
        ensures { (e : spec.Evaluated) → self ≡ seen e → result ≡ seen (spec.in_parens token e) }
    {
        let Evaluated { value, told, .. } = self;
        Evaluated {
            first: token,
            value,
            told,
        }
    }
}
