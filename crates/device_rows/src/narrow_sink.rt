//! A sink that takes little at a time.

ghost use Rattle.std.specs.Prelude.{◌<◌, ◌≤◌, None, length};

use std::alloc::Global;
use store_io::{Sink, SinkFault};

/// A sink in memory that takes at most so many bytes at a call, and fails or wants memory at chosen calls, counted
/// from 1. It tells no content to contracts.
#[derive(Drop)]
pub struct NarrowSink {
    taken: Vec<u8>,
    /// How many bytes it takes at a call at the most, or as many as there are where this is 0.
    pub most: usize,
    /// The calls that fail.
    pub fails: Vec<u64>,
    /// The calls that want memory.
    pub wants: Vec<u64>,
    calls: u64,
    faults: u64,
    wanted: u64,
}

impl NarrowSink {
    /// An empty sink that takes all that it is given.
    pub fn new(alloc: Global) -> NarrowSink {
        NarrowSink {
            taken: Vec::new(alloc),
            most: 0,
            fails: Vec::new(alloc),
            wants: Vec::new(alloc),
            calls: 0,
            faults: 0,
            wanted: 0,
        }
    }

    /// The bytes that were taken.
    pub fn bytes(&self) -> &[u8] {
        &self.taken
    }
}

impl Sink for NarrowSink {
    ghost taken = { λ _. None };

    ghost faults = { λ sink. sink.faults };

    ghost wants = { λ sink. sink.wanted };

    fn write(&mut self, piece: &[u8]) -> Result<usize, SinkFault> {
        self.calls = self.calls.saturating_add(1);
        if self.fails.contains(&self.calls) {
            self.faults = self.faults.saturating_add(1);
            return Err(SinkFault::Failed);
        }
        let front = front_of(piece, self.most);
        if self.wants.contains(&self.calls) || self.taken.extend_from_slice(front).is_err() {
            self.wanted = self.wanted.saturating_add(1);
            return Err(SinkFault::NoMemory);
        }
        Ok(front.len())
    }
}

/// The first bytes of the piece, so many at the most, or all of them where that is 0.
fn front_of(piece: &[u8], most: usize) -> &[u8]
    ensures within { length result.now ≤ length piece.now }
    ensures some { 0 < length piece.now → 1 ≤ length result.now }
{
    if most == 0 || piece.len() <= most {
        return piece;
    }
    &piece[..most]
}
