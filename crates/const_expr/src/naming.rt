//! What names are in constant expressions.

ghost use Rattle.std.specs.Prelude.{◌≡◌};
ghost use Rattle.std.specs.Option.{option_copied};
ghost use Rattle.const_expr.specs.Namings as steps;

use ftn_base::Bounds;
use ftn_tree::{Intrinsic, Value};

/// What a name is in a constant expression.
#[derive(Drop)]
pub enum Naming {
    /// An intrinsic function.
    Function(Intrinsic),
    /// A named constant.
    Constant {
        /// Its value, or that of each of its elements, where it has one.
        value: Option<Value>,
        /// The number of its dimensions.
        rank: usize,
        /// Its bounds, where they are known.
        bounds: Option<Bounds>,
    },
    /// Anything else, which has no place there.
    Stray,
}

/// What is known of the names of a file.
#[derive(Clone, Copy)]
pub struct Setting<'a> {
    /// For each token of the file the number of what it denotes, where it is a name.
    pub row: &'a [Option<u32>],
    /// For each number what it is in a constant expression.
    pub namings: &'a [Naming],
}

impl<'a> Setting<'a> {
    /// What the name at a token denotes.
    pub fn entity(&self, token: u32) -> Option<u32>
        ensures { result ≡ steps.entity_in self.now.row.now token }
    {
        match self.row.get(token as usize) {
            Some(entity) => *entity,
            None => None,
        }
    }

    /// What the name at a token is.
    pub fn naming(&self, token: u32) -> Option<&'a Naming>
        ensures { option_copied result ≡ steps.kept_at self.now.row.now self.now.namings.now token }
    {
        match self.entity(token) {
            Some(entity) => self.namings.get(entity as usize),
            None => None,
        }
    }
}
