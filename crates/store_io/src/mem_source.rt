//! A source in memory.

ghost use Rattle.std.specs.Option.{option_map};
ghost use Rattle.std.specs.Prelude.{◌≡◌, ◌↔◌, ◌<◌, ◌≤◌, ℕ, List, [], length, take, drop, min, IfOk, IsErr, IsTrue, OnErr, Some, if◌then◌else◌, is_err};
ghost use Rattle.store_io.specs.Counts.{Rose, is_listed, next_count};

use crate::failing::FailingCalls;
use crate::fault::Failed;
use crate::source::Source;
use std::marker::Model;

/// A source that gives bytes from memory and tells what is left of them. It fails at the listed calls and
/// at no other. Contracts see what is left, the numbers of the calls that fail, and the counts of calls and
/// faults, which stand still at the end of a u64.
#[derive(Drop)]
pub struct MemSource {
    bytes: Vec<u8>,
    // how many were given
    at: usize,
    failing: FailingCalls,
}

impl Model for MemSource {
    ghost use Rattle.std.specs.Prelude.{◌≤◌, drop, length};
    ghost use Rattle.store_io.specs.Memory.{Supply};

    ghost Value = { Supply };

    ghost view = { λ a. record { left = drop a.at a.bytes.items; fails = a.failing.fails.items; calls = a.failing.calls; faults = a.failing.faults } };

    ghost invariant = { λ a. a.at ≤ length a.bytes.items };
}

impl MemSource {
    /// The source of these bytes, whose calls of these numbers fail, counted from 1. It takes no memory.
    pub fn new(bytes: Vec<u8>, fails: Vec<u64>) -> MemSource
        ensures { result ≡ record { left = bytes.items; fails = fails.items; calls = 0; faults = 0 } }
    {
        MemSource {
            bytes,
            at: 0,
            failing: FailingCalls::new(fails),
        }
    }

    /// The bytes that are left.
    pub fn left(&self) -> &[u8]
        ensures left { result.now ≡ self.now.left }
        ensures told { ⟦<MemSource as Source>⟧.left self.now ≡ Some result.now }
    {
        &self.bytes[self.at..]
    }
}

// copies the front of `from` into the front of `into`, as many bytes as both have, and answers how many
fn copy_front(into: &mut [u8], from: &[u8]) -> usize
    ensures count { result ≡ min (length into.old) (length from.now) }
    ensures copied { take result into.new ≡ take result from.now }
{
    let count = into.len().min(from.len());
    into[..count].copy_from_slice(&from[..count]);
    count
}

impl Source for MemSource {
    ghost left = { λ source. Some source.left };

    ghost faults = { λ source. source.faults };

    fn read(&mut self, into: &mut [u8]) -> Result<usize, Failed>
        ensures within { IfOk result (λ count. count ≤ length into.old) }
        ensures given { IfOk result (λ count. (count ≤ length self.old.left) × (take count into.new ≡ take count self.old.left)) }
        ensures count { IfOk result (λ count. count ≡ min (length into.old) (length self.old.left)) }
        ensures taken { IfOk result (λ count. self.new.left ≡ drop count self.old.left) }
        ensures end { IfOk result (λ count. 0 < length into.old → (count ≡ 0) ↔ (self.old.left ≡ [])) }
        ensures kept { OnErr result (self.new.left ≡ self.old.left) }
        ensures later { self.old.faults ≤ self.new.faults }
        ensures failed { IsErr result → Rose self.old.faults self.new.faults }
        ensures faults { self.new.faults ≡ (if is_err result then next_count self.old.faults else self.old.faults) }
        ensures listed { IsErr result ↔ IsTrue (is_listed self.old.fails self.new.calls) }
        ensures calls { self.new.calls ≡ next_count self.old.calls }
        ensures fails { self.new.fails ≡ self.old.fails }
    {
        if self.failing.next_fails() {
            return Err(Failed);
        }
        let count = copy_front(into, &self.bytes[self.at..]);
        self.at += count;
        Ok(count)
    }
}
