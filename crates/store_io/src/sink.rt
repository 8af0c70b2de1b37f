//! Sinks for bytes.

ghost use Rattle.std.specs.Prelude.{◌≡◌, ℕ, ◌<◌, ◌≤◌, List, length, take, Option, IfOk, IsErrOf, OnErr, OnOk};
ghost use Rattle.store_io.specs.Counts.{Rose};
ghost use Rattle.store_io.specs.Told.{Takes, TakesFront};

use crate::fault::SinkFault;

/// A sink for bytes. It may tell the bytes that it has taken.
pub trait Sink {
    // the bytes that were taken, if the sink tells them
    ghost taken: { Self → Option (List ℕ) };

    // how many calls failed; it never falls
    ghost faults: { Self → ℕ };

    // how many calls wanted memory; it never falls
    ghost wants: { Self → ℕ };

    /// Takes the piece's first bytes, at least 1 of a nonempty piece, and answers how many. Where it fails,
    /// it takes none.
    fn write(&mut self, piece: &[u8]) -> Result<usize, SinkFault>
        ensures taken { IfOk result (λ count. (count ≤ length piece.now) × Takes (take count piece.now) (taken self.old) (taken self.new)) }
        ensures some { IfOk result (λ count. 0 < length piece.now → 1 ≤ count) }
        ensures kept { OnErr result (taken self.new ≡ taken self.old) }
        ensures later { faults self.old ≤ faults self.new }
        ensures wants_later { wants self.old ≤ wants self.new }
        ensures failed { IsErrOf result SinkFault.Failed → Rose (faults self.old) (faults self.new) }
        ensures wanted { IsErrOf result SinkFault.NoMemory → Rose (wants self.old) (wants self.new) };
}

/// Writes the whole text, going on after each part that the sink takes. Where the sink fails, the sink has
/// taken a part of the text from its front on.
pub fn write_all<O: Sink>(out: &mut O, text: &[u8]) -> Result<(), SinkFault>
    ensures whole { OnOk result (Takes text.now (O.taken out.old) (O.taken out.new)) }
    ensures part { OnErr result (TakesFront text.now (O.taken out.old) (O.taken out.new)) }
    ensures later { O.faults out.old ≤ O.faults out.new }
    ensures wants_later { O.wants out.old ≤ O.wants out.new }
    ensures failed { IsErrOf result SinkFault.Failed → Rose (O.faults out.old) (O.faults out.new) }
    ensures wanted { IsErrOf result SinkFault.NoMemory → Rose (O.wants out.old) (O.wants out.new) }
{
    let mut at = 0;
    'parts: while at < text.len() {
        let count = out.write(&text[at..])?;
        at += count;
    }
    Ok(())
}
