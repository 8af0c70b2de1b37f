//! Counters that no generic body can set back.

ghost use Rattle.std.specs.Prelude.{◌≡◌, ◌+◌, ◌-◌, ◌^◌, ◌<◌};

use std::marker::Model;

/// A count of steps that begins at 0. It keeps the mark that it was made of, so a body that is generic in `L`
/// can make no other counter of this type and can't set this one back. Contracts see the count.
#[derive(Drop)]
pub struct Steps<L> {
    mark: L,
    count: u64,
}

impl<L> Model for Steps<L> {
    ghost use Rattle.std.specs.Prelude.{ℕ};

    ghost Value = { ℕ };

    ghost view = { λ a. a.count };
}

impl<L> Steps<L> {
    /// A counter at 0.
    pub fn new(mark: L) -> Steps<L>
        ensures { result ≡ 0 }
    {
        Steps { mark, count: 0 }
    }

    /// Counts one step.
    pub fn tick(&mut self)
        requires { self.old < 2 ^ 64 - 1 }
        ensures { self.new ≡ self.old + 1 }
    {
        self.count += 1;
    }

    /// How many steps were counted.
    pub fn count(&self) -> u64
        ensures { result ≡ self.now }
    {
        self.count
    }
}
