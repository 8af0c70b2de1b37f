//! What the variables of a program hold.

ghost use Rattle.std.specs.Prelude.{◌≡◌, [], ◌∷◌, OnOk, reverse};
ghost use Rattle.std.specs.Map.{lookup};
ghost use Rattle.std.specs.Str.{bytes_eq};

use ftn_base::{Name, NoMemory};
use std::alloc::Global;
use std::marker::Model;

/// Names with the numbers that were stored under them. Contracts see them as a list, the newest first.
#[derive(Drop)]
pub(crate) struct Memory {
    stored: Vec<(Name, i64)>,
}

impl Model for Memory {
    ghost use Rattle.std.specs.Prelude.{List, ℕ, ℤ, reverse};

    ghost Value = { List (List ℕ × ℤ) };

    ghost view = { λ memory. reverse memory.stored.items };
}

impl Memory {
    /// Nothing is held.
    pub(crate) fn new(alloc: Global) -> Memory
        ensures { result ≡ [] }
    {
        Memory {
            stored: Vec::new(alloc),
        }
    }

    /// Stores a number under the name.
    pub(crate) fn store(&mut self, name: Name, value: i64) -> Result<(), NoMemory>
        ensures { OnOk result (self.new ≡ (name, value) ∷ self.old) }
    {
        self.stored.push((name, value))?;
        Ok(())
    }

    /// The number that was last stored under the name.
    pub(crate) fn find(&self, name: &Name) -> Option<i64>
        ensures { result ≡ lookup (bytes_eq name.now) self.now }
    {
        let mut at = self.stored.len();
        while at > 0 {
            at -= 1;
            let (stored, value) = &self.stored[at];
            if name == stored {
                return Some(*value);
            }
        }
        None
    }
}
