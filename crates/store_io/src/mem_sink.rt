//! A sink in memory.

ghost use Rattle.std.specs.Prelude.{◌≡◌, ◌↔◌, ◌<◌, ◌≤◌, ◌++◌, ℕ, List, [], length, take, IfOk, IsErrOf, IsTrue, OnErr, Some, if◌then◌else◌, ◌⊎◌};
ghost use Rattle.store_io.specs.Counts.{Rose, is_listed, next_count};
ghost use Rattle.store_io.specs.Told.{Takes};

use crate::failing::FailingCalls;
use crate::fault::SinkFault;
use crate::sink::Sink;
use std::marker::Model;

/// A sink that keeps what it takes in memory and tells it. It fails at the listed calls and at no other, and
/// wants memory where its allocator refuses it. Contracts see what was taken, the numbers of the calls that
/// fail, and the counts of calls, faults and wants, which stand still at the end of a u64.
#[derive(Drop)]
pub struct MemSink {
    taken: Vec<u8>,
    failing: FailingCalls,
    // how many calls wanted memory
    wants: u64,
}

impl Model for MemSink {
    ghost use Rattle.store_io.specs.Memory.{Intake};

    ghost Value = { Intake };

    ghost view = { λ a. record { taken = a.taken.items; fails = a.failing.fails.items; calls = a.failing.calls; faults = a.failing.faults; wants = a.wants } };
}

impl MemSink {
    /// The empty sink whose calls of these numbers fail, counted from 1. It takes memory where the list has
    /// its own.
    pub fn new(fails: Vec<u64>) -> MemSink
        ensures { result ≡ record { taken = []; fails = fails.items; calls = 0; faults = 0; wants = 0 } }
    {
        MemSink {
            taken: Vec::new(*fails.allocator()),
            failing: FailingCalls::new(fails),
            wants: 0,
        }
    }

    /// The bytes that were taken.
    pub fn bytes(&self) -> &[u8]
        ensures taken { result.now ≡ self.now.taken }
        ensures told { ⟦<MemSink as Sink>⟧.taken self.now ≡ Some result.now }
    {
        &self.taken
    }
}

impl Sink for MemSink {
    ghost taken = { λ sink. Some sink.taken };

    ghost faults = { λ sink. sink.faults };

    ghost wants = { λ sink. sink.wants };

    fn write(&mut self, piece: &[u8]) -> Result<usize, SinkFault>
        ensures taken { IfOk result (λ count. (count ≡ length piece.now) × (self.new.taken ≡ self.old.taken ++ piece.now)) }
        ensures kept { OnErr result (self.new.taken ≡ self.old.taken) }
        ensures later { self.old.faults ≤ self.new.faults }
        ensures wants_later { self.old.wants ≤ self.new.wants }
        ensures failed { IsErrOf result SinkFault.Failed → Rose self.old.faults self.new.faults }
        ensures wanted { IsErrOf result SinkFault.NoMemory → Rose self.old.wants self.new.wants }
        ensures faults { self.new.faults ≡ (if is_listed self.old.fails self.new.calls then next_count self.old.faults else self.old.faults) }
        ensures wants { IsErrOf result SinkFault.NoMemory ⊎ (self.new.wants ≡ self.old.wants) }
        ensures listed { IsErrOf result SinkFault.Failed ↔ IsTrue (is_listed self.old.fails self.new.calls) }
        ensures calls { self.new.calls ≡ next_count self.old.calls }
        ensures fails { self.new.fails ≡ self.old.fails }
    {
        if self.failing.next_fails() {
            return Err(SinkFault::Failed);
        }
        if self.taken.extend_from_slice(piece).is_err() {
            self.wants = self.wants.saturating_add(1);
            return Err(SinkFault::NoMemory);
        }
        Ok(piece.len())
    }
}
