//! The folder of the system that the program runs in. What the system does there is trusted: no clause can
//! speak of it.

ghost use Rattle.std.specs.Prelude.{◌≡◌, ◌+◌, ◌^◌, ◌≤◌, None, IfOk, length};
ghost use Rattle.store_io.specs.Counts.{Rose};

use crate::dir_list::{list_here, path_of};
use crate::dir_put::{put_here, remove_here};
use crate::failure::{Failure, LeftOut, Step};
use crate::fault::{Failed, ListFault, ReadFault, RemoveFault};
use crate::store::Store;
use ftn_base::{FileName, NoMemory};
use std::alloc::Global;
use std::fs::File;
use std::io;
use std::io::{ErrorKind, Read};
use std::rt::Files;

/// The store of the regular files of the current folder. It tells no content. It counts the calls that
/// failed; the count stands still at the end of a u64.
#[derive(Drop)]
pub struct DirStore<'a, R> {
    rt: &'a R,
    alloc: Global,
    faults: u64,
    // why the last of them failed
    failure: Option<Failure>,
    // what the last listing left out
    left_out: Vec<LeftOut>,
}

impl<'a, R> DirStore<'a, R> {
    /// The store of the folder that `rt` runs in.
    pub fn new(rt: &'a R, alloc: Global) -> DirStore<'a, R> {
        DirStore {
            rt,
            alloc,
            faults: 0,
            failure: None,
            left_out: Vec::new(alloc),
        }
    }

    /// Why the last call that failed did so.
    pub fn failure(&self) -> Option<&Failure> {
        self.failure.as_ref()
    }

    /// The names that end in `.f90` and that the last listing left out, in byte order.
    pub fn left_out(&self) -> &[LeftOut] {
        &self.left_out
    }

    // counts a failure, and keeps why it came
    fn fail(&mut self, failure: Failure)
        ensures later { self.old.faults ≤ self.new.faults }
        ensures rose { Rose self.old.faults self.new.faults }
    {
        self.faults = self.faults.saturating_add(1);
        self.failure = Some(failure);
    }
}

impl<'a, R: Files> Store for DirStore<'a, R> {
    ghost files = { λ _. None };

    // replaces here take no room that could be made before
    ghost spare = { λ _. 2 ^ 32 };

    ghost faults = { λ store. store.faults };

    /// It does nothing, since no memory can be kept for the paths of a replace.
    fn prepare(&mut self, _more: u32) -> Result<(), NoMemory> {
        Ok(())
    }

    /// The names of the regular files, without those that are no `FileName`.
    fn list(&mut self) -> Result<Vec<FileName>, ListFault> {
        match list_here(self.rt, self.alloc) {
            Ok(listing) => {
                self.left_out = listing.left_out;
                Ok(listing.names)
            }
            Err(failure) if failure.reason.kind() == ErrorKind::OutOfMemory => {
                Err(ListFault::NoMemory)
            }
            Err(failure) => {
                self.fail(failure);
                Err(ListFault::Failed)
            }
        }
    }

    fn read(&mut self, name: &FileName, most: u32) -> Result<Vec<u8>, ReadFault> {
        match text_here(self.rt, self.alloc, name, most) {
            Ok(text) => Ok(text),
            Err(error) if error.kind() == ErrorKind::OutOfMemory => Err(ReadFault::NoMemory),
            Err(error) if error.kind() == ErrorKind::NotFound => Err(ReadFault::Absent),
            Err(reason) => {
                let file = name.copy(self.alloc).ok();
                self.fail(Failure {
                    file,
                    step: Step::Read,
                    reason,
                });
                Err(ReadFault::Failed)
            }
        }
    }

    /// Writes the text to a file that it makes beside the old one, and renames that. The paths take memory, and a want
    /// of it is an error like any other. A file that nobody may write isn't replaced.
    fn replace(&mut self, name: FileName, text: Vec<u8>) -> Result<(), Failed> {
        match put_here(self.rt, self.alloc, &name, &text) {
            Ok(()) => Ok(()),
            Err(failure) => {
                self.fail(Failure {
                    file: Some(name),
                    ..failure
                });
                Err(Failed)
            }
        }
    }

    /// Takes the file away and syncs the folder. The path takes memory, and a want of it is an error like any other.
    fn remove(&mut self, name: &FileName) -> Result<(), RemoveFault> {
        match remove_here(self.rt, name) {
            Ok(()) => Ok(()),
            Err(failure) if is_absence(&failure) => Err(RemoveFault::Absent),
            Err(failure) => {
                let file = name.copy(self.alloc).ok();
                self.fail(Failure { file, ..failure });
                Err(RemoveFault::Failed)
            }
        }
    }
}

// whether a removal failed since there was no such file
fn is_absence(failure: &Failure) -> bool {
    matches!(failure.step, Step::Remove) && failure.reason.kind() == ErrorKind::NotFound
}

fn first_bytes<R: Files>(rt: &R, alloc: Global, path: &str, limit: u64) -> io::Result<Vec<u8>> {
    let file = File::open(rt, path)?;
    let mut text = Vec::new(alloc);
    file.take(limit).read_to_end(&mut text)?;
    Ok(text)
}

fn text_here<R: Files>(rt: &R, alloc: Global, name: &FileName, most: u32) -> io::Result<Vec<u8>>
    ensures { IfOk result (λ text. length text.items ≤ most + 1) }
{
    let limit = most as u64 + 1;
    let mut text = first_bytes(rt, alloc, path_of(name)?, limit)?;
    // no clause of `read_to_end` says so, but the text has no more bytes
    text.truncate(limit as usize);
    Ok(text)
}
