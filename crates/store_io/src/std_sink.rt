//! Sinks over writers of std. What a writer does is trusted.

ghost use Rattle.std.specs.Prelude.{◌<◌, ◌≤◌, None, IfOk, length};

use crate::fault::{Failed, SinkFault};
use crate::sink::Sink;
use std::io::{ErrorKind, Write};

/// The sink that hands its bytes to a writer, and flushes the writer after each piece. It tells no content
/// and never wants memory. It counts the calls that failed; the count stands still at the end of a u64.
#[derive(Drop)]
pub struct StdSink<W> {
    writer: W,
    faults: u64,
}

impl<W> StdSink<W> {
    /// The sink that hands its bytes to the writer.
    pub fn new(writer: W) -> StdSink<W> {
        StdSink { writer, faults: 0 }
    }
}

// a write that a signal interrupts is tried again
fn write_some<W: Write>(writer: &mut W, piece: &[u8]) -> Result<usize, Failed>
    ensures { IfOk result (λ count. count ≤ length piece.now) }
{
    for _ in 0..u64::MAX {
        match writer.write(piece) {
            Ok(count) => return Ok(count),
            Err(error) => {
                if error.kind() != ErrorKind::Interrupted {
                    return Err(Failed);
                }
            }
        }
    }
    Err(Failed)
}

// a writer that takes nothing of a nonempty piece fails
fn write_flushed<W: Write>(writer: &mut W, piece: &[u8]) -> Result<usize, Failed>
    ensures within { IfOk result (λ count. count ≤ length piece.now) }
    ensures some { IfOk result (λ count. 0 < length piece.now → 1 ≤ count) }
{
    let count = write_some(writer, piece)?;
    if count == 0 && !piece.is_empty() {
        return Err(Failed);
    }
    writer.flush().map_err(|_| Failed)?;
    Ok(count)
}

impl<W: Write> Sink for StdSink<W> {
    ghost taken = { λ _. None };

    ghost faults = { λ sink. sink.faults };

    ghost wants = { λ _. 0 };

    fn write(&mut self, piece: &[u8]) -> Result<usize, SinkFault> {
        match write_flushed(&mut self.writer, piece) {
            Ok(count) => Ok(count),
            Err(Failed) => {
                self.faults = self.faults.saturating_add(1);
                Err(SinkFault::Failed)
            }
        }
    }
}
