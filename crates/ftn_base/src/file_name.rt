//! Names of files in the project's folder.

ghost use Rattle.std.specs.Cmp.Lexicographic.{pointwise, slice_cmp};
ghost use Rattle.std.specs.Cmp.Rules.{comparing, hashing};
ghost use Rattle.std.specs.Cmp.{partial_order_from_own_ties};
ghost use Rattle.std.specs.Hash as fed;
ghost use Rattle.std.specs.Ordering.{as_partial_cmp, nat_cmp};
ghost use Rattle.std.specs.Prelude.{◌≡◌, ◌==◌, ◌↔◌, IfOk, IsErrOf, IsTrue, false};
ghost use Rattle.std.proofs.Common.{rules};
ghost use Rattle.ftn_base.specs.Names as spec;
ghost use Rattle.ftn_base.specs.Files as files;

use crate::limits::MOST_FILE_NAME_BYTES;
use crate::memory::NoMemory;
use crate::name::NameFault;
use std::alloc::Global;
use std::cmp::Ordering;
use std::hash::{Hash, Hasher};
use std::marker::Model;

/// The name of a file: 1 to 255 bytes from 33 to 126, and no `/`. Contracts see the list of its bytes.
#[derive(Drop)]
pub struct FileName {
    bytes: Vec<u8>,
}

impl Model for FileName {
    ghost use Rattle.std.specs.Prelude.{List, ℕ, IsTrue};
    ghost use Rattle.ftn_base.specs.Names.{is_file_name};

    ghost Value = { List ℕ };

    ghost view = { λ a. a.bytes.items };

    ghost invariant = { λ a. IsTrue (is_file_name a.bytes.items) };
}

fn is_file_byte(byte: u8) -> bool
    ensures { result ≡ spec.is_file_byte byte }
{
    (33..=126).contains(&byte) && byte != b'/'
}

fn are_file_bytes(bytes: &[u8]) -> bool
    ensures { result ≡ spec.are_file_bytes bytes.now }
{
    bytes.iter().all(|byte| is_file_byte(*byte))
}

fn is_file_name(bytes: &[u8]) -> bool
    ensures { result ≡ spec.is_file_name bytes.now }
{
    1 <= bytes.len() && bytes.len() <= MOST_FILE_NAME_BYTES && are_file_bytes(bytes)
}

impl FileName {
    /// The file name that the bytes are.
    pub fn new(alloc: Global, bytes: &[u8]) -> Result<FileName, NameFault>
        ensures name { IfOk result (λ name. name ≡ bytes.now) }
        ensures not_a_name { IsErrOf result NameFault.NotAName ↔ (spec.is_file_name bytes.now ≡ false) }
    {
        if !is_file_name(bytes) {
            return Err(NameFault::NotAName);
        }
        Ok(FileName {
            bytes: Vec::from_slice(alloc, bytes)?,
        })
    }

    /// The bytes of the name.
    pub fn bytes(&self) -> &[u8]
        ensures bytes { result.now ≡ self.now }
        ensures valid { IsTrue (spec.is_file_name self.now) }
    {
        &self.bytes
    }

    /// Whether the file is a project file: its name ends in `.f90`.
    pub fn is_source(&self) -> bool
        ensures { result ≡ files.is_source self.now }
    {
        self.bytes.ends_with(b".f90")
    }

    /// An equal name in memory of its own.
    pub fn copy(&self, alloc: Global) -> Result<FileName, NoMemory>
        ensures { IfOk result (λ same. same ≡ self.now) }
    {
        Ok(FileName {
            bytes: Vec::from_slice(alloc, &self.bytes)?,
        })
    }
}

impl PartialEq for FileName {
    ghost eq = { pointwise ◌==◌ };

    ghost laws = { Prim.search (comparing, rules) };

    fn eq(&self, other: &FileName) -> bool {
        self.bytes() == other.bytes()
    }
}

impl Eq for FileName {
    ghost laws = { Prim.search (comparing, rules) };
}

impl Ord for FileName {
    ghost cmp = { slice_cmp nat_cmp };

    ghost total = { Prim.search (comparing, rules) };

    ghost matches_partial_cmp = { Prim.search (comparing, rules) };

    ghost matches_eq = { Prim.search (comparing, rules) };

    fn cmp(&self, other: &FileName) -> Ordering {
        self.bytes().cmp(other.bytes())
    }
}

impl PartialOrd for FileName {
    ghost partial_cmp = { as_partial_cmp (slice_cmp nat_cmp) };

    ghost laws = { partial_order_from_own_ties (Prim.search (comparing, rules)) (Prim.search (comparing, rules)) };

    fn partial_cmp(&self, other: &FileName) -> Option<Ordering> {
        Some(self.cmp(other))
    }
}

impl Hash for FileName {
    ghost hash_input = { λ name. fed.slice fed.u8 name };

    ghost respects_eq = { Prim.search (hashing, rules) };

    fn hash<H: Hasher>(&self, state: &mut H) {
        self.bytes().hash(state);
    }
}
