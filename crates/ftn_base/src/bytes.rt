//! Byte texts.

ghost use Rattle.std.specs.Prelude.{◌≡◌, IfOk};

use crate::memory::NoMemory;
use bstr::{BString, ByteVec};
use std::alloc::Global;
use std::marker::Model;

/// A text of bytes that need not be UTF-8. Contracts see the list of its bytes.
#[derive(Drop)]
pub struct Bytes {
    text: BString,
}

impl Model for Bytes {
    ghost use Rattle.std.specs.Prelude.{List, ℕ};
    ghost use Rattle.bstr.specs.Owned.{bstring_bytes};

    ghost Value = { List ℕ };

    ghost view = { λ a. bstring_bytes a.text };
}

impl Bytes {
    /// The text of these bytes. It takes no memory.
    pub fn from_vec(bytes: Vec<u8>) -> Bytes
        ensures { result ≡ bytes.items }
    {
        Bytes {
            text: BString::new(bytes),
        }
    }

    /// The text of a copy of these bytes.
    pub fn from_slice(alloc: Global, bytes: &[u8]) -> Result<Bytes, NoMemory>
        ensures { IfOk result (λ made. made ≡ bytes.now) }
    {
        let text = BString::from_slice(alloc, bytes)?;
        Ok(Bytes { text })
    }

    /// The bytes, lent.
    pub fn bytes(&self) -> &[u8]
        ensures { result.now ≡ self.now }
    {
        self.text.as_bytes()
    }

    /// The bytes, given back. It takes no memory.
    pub fn into_vec(self) -> Vec<u8>
        ensures { result.items ≡ self }
    {
        let Bytes { text } = self;
        text.into_vec()
    }

    /// An equal text in memory of its own.
    pub fn copy(&self, alloc: Global) -> Result<Bytes, NoMemory>
        ensures { IfOk result (λ same. same ≡ self.now) }
    {
        Bytes::from_slice(alloc, self.bytes())
    }
}
