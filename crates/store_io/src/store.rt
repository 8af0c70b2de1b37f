//! Stores of files.

ghost use Rattle.std.specs.Option.{option_map};
ghost use Rattle.std.specs.Prelude.{◌≡◌, ◌↔◌, ℕ, ◌+◌, ◌≤◌, List, length, take, Option, IfOk, IfSome, IsErr, IsErrOf, OnErr, OnOk};
ghost use Rattle.ftn_base.specs.Files.{File, IsInOrder, names_of, text_of, with_file};
ghost use Rattle.store_io.specs.Counts.{Rose};
ghost use Rattle.store_io.specs.Told.{MayPut, MayRemove, without_file};

use crate::fault::{Failed, ListFault, ReadFault, RemoveFault};
use ftn_base::{FileName, NoMemory};

/// A folder of files. A store may tell its files, and then its calls speak of them; one that doesn't tell
/// them, as a folder of the system, promises only what does not depend on them.
pub trait Store {
    // the names and texts in byte order of names, if the store tells them
    ghost files: { Self → Option (List File) };

    // how many replaces need no memory
    ghost spare: { Self → ℕ };

    // how many calls failed; it never falls
    ghost faults: { Self → ℕ };

    /// Makes room, so that the next `more` replaces need no memory. It changes no file. It fails where
    /// there is no memory.
    fn prepare(&mut self, more: u32) -> Result<(), NoMemory>
        ensures room { OnOk result (more ≤ spare self.new) }
        ensures same { files self.new ≡ files self.old }
        ensures faults { faults self.new ≡ faults self.old };

    /// The names of the files, in byte order. A store that doesn't tell its files may give them in any order, and more
    /// than once. It changes nothing. It fails where the store does, or where there is no memory.
    fn list(&mut self) -> Result<Vec<FileName>, ListFault>
        ensures names { IfOk result (λ names. IfSome (files self.old) (λ told. (names.items ≡ names_of told) × IsInOrder told)) }
        ensures same { files self.new ≡ files self.old }
        ensures spare { spare self.new ≡ spare self.old }
        ensures later { faults self.old ≤ faults self.new }
        ensures failed { IsErrOf result ListFault.Failed → Rose (faults self.old) (faults self.new) };

    /// The text of a file, or its first `most + 1` bytes where it is longer. It changes nothing. It fails
    /// where the store does, where there is no such file, or where there is no memory.
    fn read(&mut self, name: &FileName, most: u32) -> Result<Vec<u8>, ReadFault>
        ensures text { IfOk result (λ text. IfSome (files self.old) (λ told. option_map (take (most + 1)) (text_of told name.now) ≡ Some text.items)) }
        ensures bounded { IfOk result (λ text. length text.items ≤ most + 1) }
        ensures absent { IfSome (files self.old) (λ told. IsErrOf result ReadFault.Absent ↔ (text_of told name.now ≡ None)) }
        ensures same { files self.new ≡ files self.old }
        ensures spare { spare self.new ≡ spare self.old }
        ensures later { faults self.old ≤ faults self.new }
        ensures failed { IsErrOf result ReadFault.Failed → Rose (faults self.old) (faults self.new) };

    /// Puts the whole text under the name, in place of an older one. It takes no memory. Where it fails, the
    /// old text or the whole new one is there. No other file changes.
    fn replace(&mut self, name: FileName, text: Vec<u8>) -> Result<(), Failed>
        requires { 1 ≤ spare self.old }
        ensures put { OnOk result (files self.new ≡ option_map (with_file name text.items) (files self.old)) }
        ensures kept { OnErr result (MayPut name text.items (files self.old) (files self.new)) }
        ensures spare { spare self.old ≤ spare self.new + 1 }
        ensures later { faults self.old ≤ faults self.new }
        ensures failed { IsErr result → Rose (faults self.old) (faults self.new) };

    /// Takes the file of that name away. It takes no memory. It fails where the store does, and then the file is there as it
    /// was or it is taken away, or where there is no such file. No other file changes.
    fn remove(&mut self, name: &FileName) -> Result<(), RemoveFault>
        ensures removed { OnOk result (files self.new ≡ option_map (without_file name.now) (files self.old)) }
        ensures kept { IsErrOf result RemoveFault.Failed → MayRemove name.now (files self.old) (files self.new) }
        ensures absent { IfSome (files self.old) (λ told. IsErrOf result RemoveFault.Absent ↔ (text_of told name.now ≡ None)) }
        ensures same { IsErrOf result RemoveFault.Absent → files self.new ≡ files self.old }
        ensures spare { spare self.old ≤ spare self.new }
        ensures later { faults self.old ≤ faults self.new }
        ensures failed { IsErrOf result RemoveFault.Failed → Rose (faults self.old) (faults self.new) };
}
