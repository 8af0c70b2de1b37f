//! Sources over readers of std. What a reader does is trusted.

ghost use Rattle.std.specs.Prelude.{◌≤◌, None, IfOk, length};

use crate::fault::Failed;
use crate::source::Source;
use std::io::{ErrorKind, Read};

/// The source of a reader's bytes. It tells no content. It counts the calls that failed; the count stands
/// still at the end of a u64.
#[derive(Drop)]
pub struct StdSource<I> {
    reader: I,
    faults: u64,
}

impl<I> StdSource<I> {
    /// The source of the reader's bytes.
    pub fn new(reader: I) -> StdSource<I> {
        StdSource { reader, faults: 0 }
    }
}

// a read that a signal interrupts is tried again
fn read_some<I: Read>(reader: &mut I, into: &mut [u8]) -> Result<usize, Failed>
    ensures { IfOk result (λ count. count ≤ length into.old) }
{
    for _ in 0..u64::MAX {
        match reader.read(into) {
            Ok(count) => return Ok(count),
            Err(error) => {
                if error.kind() != ErrorKind::Interrupted {
                    return Err(Failed);
                }
            }
        }
    }
    Err(Failed)
}

impl<I: Read> Source for StdSource<I> {
    ghost left = { λ _. None };

    ghost faults = { λ source. source.faults };

    fn read(&mut self, into: &mut [u8]) -> Result<usize, Failed> {
        let count = read_some(&mut self.reader, into);
        if count.is_err() {
            self.faults = self.faults.saturating_add(1);
        }
        count
    }
}
