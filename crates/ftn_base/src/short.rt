//! Byte texts that are mostly short.

ghost use Rattle.std.specs.Prelude.{◌≡◌, IfOk};
ghost use Rattle.ftn_base.specs.Letters as spec;

use crate::letters::fold_byte;
use crate::memory::NoMemory;
use smallvec::SmallVec;
use std::alloc::Global;
use std::marker::Model;

/// A text of bytes that need not be UTF-8. One of at most 15 bytes takes no memory beside its own. Contracts see the list of
/// its bytes.
#[derive(Drop)]
pub struct ShortBytes {
    text: SmallVec<u8, 15>,
}

impl Model for ShortBytes {
    ghost use Rattle.std.specs.Prelude.{List, ℕ};

    ghost Value = { List ℕ };

    ghost view = { λ a. a.text.items };
}

impl ShortBytes {
    /// The text of these bytes. It takes no memory.
    pub fn from_vec(bytes: Vec<u8>) -> ShortBytes
        ensures { result ≡ bytes.items }
    {
        ShortBytes {
            text: SmallVec::from_vec(bytes),
        }
    }

    /// The text of a copy of these bytes.
    pub fn from_slice(alloc: Global, bytes: &[u8]) -> Result<ShortBytes, NoMemory>
        ensures { IfOk result (λ made. made ≡ bytes.now) }
    {
        let text = SmallVec::from_slice(alloc, bytes)?;
        Ok(ShortBytes { text })
    }

    /// The text of a copy of these bytes with each letter in lower case (3.1).
    pub fn folded(alloc: Global, bytes: &[u8]) -> Result<ShortBytes, NoMemory>
        ensures { IfOk result (λ made. made ≡ spec.folded bytes.now) }
    {
        let mut text = SmallVec::with_capacity(alloc, bytes.len())?;
        for byte in bytes {
            text.push(fold_byte(*byte))?;
        }
        Ok(ShortBytes { text })
    }

    /// The bytes, lent.
    pub fn bytes(&self) -> &[u8]
        ensures { result.now ≡ self.now }
    {
        self.text.as_slice()
    }

    /// An equal text of its own.
    pub fn copy(&self, alloc: Global) -> Result<ShortBytes, NoMemory>
        ensures { IfOk result (λ same. same ≡ self.now) }
    {
        ShortBytes::from_slice(alloc, self.bytes())
    }
}
