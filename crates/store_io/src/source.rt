//! Sources of bytes.

ghost use Rattle.std.specs.Option.{option_map};
ghost use Rattle.std.specs.Prelude.{◌≡◌, ◌↔◌, ℕ, ◌<◌, ◌≤◌, List, [], length, take, drop, Option, IfOk, IfSome, IsErr, OnErr};
ghost use Rattle.store_io.specs.Counts.{Rose};

use crate::fault::Failed;

/// A source of bytes. It may tell the bytes that it has left.
pub trait Source {
    // the bytes that are left, if the source tells them
    ghost left: { Self → Option (List ℕ) };

    // how many calls failed; it never falls
    ghost faults: { Self → ℕ };

    /// Puts the source's next bytes into the front of `into`, and answers how many. 0 for a nonempty `into`
    /// means that no byte is left. Where it fails, it gives none and leaves what is left as it was.
    fn read(&mut self, into: &mut [u8]) -> Result<usize, Failed>
        ensures within { IfOk result (λ count. count ≤ length into.old) }
        ensures given { IfOk result (λ count. IfSome (left self.old) (λ bytes. (count ≤ length bytes) × (take count into.new ≡ take count bytes))) }
        ensures taken { IfOk result (λ count. left self.new ≡ option_map (drop count) (left self.old)) }
        ensures end { IfOk result (λ count. IfSome (left self.old) (λ bytes. 0 < length into.old → (count ≡ 0) ↔ (bytes ≡ []))) }
        ensures kept { OnErr result (left self.new ≡ left self.old) }
        ensures later { faults self.old ≤ faults self.new }
        ensures failed { IsErr result → Rose (faults self.old) (faults self.new) };
}
