//! Listing the folder of the system that the program runs in.

use crate::failure::{Failure, LeftOut, LeftOutReason, Step};
use ftn_base::{FileName, NameFault};
use std::alloc::{AllocError, Global};
use std::io::{ErrorKind, Read};
use std::rt::Files;
use std::{fs, io, str};

/// More than any name takes: a read gives whole names.
const BUFFER: usize = 4096;

/// The files of a folder.
#[derive(Drop)]
pub(crate) struct Listing {
    /// The names of the regular files, without those that are no `FileName`, in byte order.
    pub(crate) names: Vec<FileName>,
    /// The other names that end in `.f90`, in byte order.
    pub(crate) left_out: Vec<LeftOut>,
}

/// What a name of the folder stands for.
#[derive(Drop)]
enum Entry {
    Regular(FileName),
    LeftOut(LeftOutReason),
    Gone,
}

/// Lists the current folder.
pub(crate) fn list_here<R: Files>(rt: &R, alloc: Global) -> Result<Listing, Failure> {
    let names = raw_names(rt, alloc).map_err(|reason| Failure::new(Step::List, reason))?;
    let mut listing = Listing {
        names: Vec::new(alloc),
        left_out: Vec::new(alloc),
    };
    for name in &names {
        let entry = entry_of(rt, alloc, name)?;
        add_entry(alloc, &mut listing, name, entry).map_err(|error| Failure::new(
            Step::List,
            error.into(),
        ))?;
    }
    Ok(listing)
}

// all names of the folder, in byte order
fn raw_names<R: Files>(rt: &R, alloc: Global) -> io::Result<Vec<Vec<u8>>> {
    let mut folder = rt.open_dir("./")?;
    let mut names = Vec::new(alloc);
    let mut buffer = [0; BUFFER];
    for _ in 0..u64::MAX {
        let count = folder.read(&mut buffer)?;
        if count == 0 {
            break;
        }
        for name in buffer[..count].split(|byte| *byte == 0) {
            if !name.is_empty() {
                names.push(Vec::from_slice(alloc, name)?)?;
            }
        }
    }
    names.sort_unstable();
    Ok(names)
}

// what stands under that name; a name that is no `FileName` is not looked at
fn entry_of<R: Files>(rt: &R, alloc: Global, name: &[u8]) -> Result<Entry, Failure> {
    let name = match FileName::new(alloc, name) {
        Ok(name) => name,
        Err(NameFault::NotAName) => return Ok(Entry::LeftOut(LeftOutReason::Name)),
        Err(NameFault::NoMemory) => {
            return Err(Failure::new(Step::List, ErrorKind::OutOfMemory.into()));
        }
    };
    match kind_of(rt, &name) {
        Ok(kind) if kind.is_file() => Ok(Entry::Regular(name)),
        Ok(kind) if kind.is_symlink() => Ok(Entry::LeftOut(LeftOutReason::Link)),
        Ok(_) => Ok(Entry::LeftOut(LeftOutReason::Kind)),
        // the file went away in between
        Err(error) if error.kind() == ErrorKind::NotFound => Ok(Entry::Gone),
        Err(reason) => Err(Failure {
            file: Some(name),
            step: Step::Look,
            reason,
        }),
    }
}

fn kind_of<R: Files>(rt: &R, name: &FileName) -> io::Result<fs::FileType> {
    let path = path_of(name)?;
    Ok(fs::symlink_metadata(rt, path)?.file_type())
}

/// The name as a path.
pub(crate) fn path_of(name: &FileName) -> io::Result<&str> {
    str::from_utf8(name.bytes()).map_err(|_| io::Error::from(ErrorKind::InvalidFilename))
}

fn add_entry(
    alloc: Global,
    listing: &mut Listing,
    name: &[u8],
    entry: Entry,
) -> Result<(), AllocError> {
    match entry {
        Entry::Regular(name) => listing.names.push(name)?,
        Entry::LeftOut(reason) if name.ends_with(b".f90") => listing.left_out.push(LeftOut {
            name: shown(alloc, name)?,
            reason,
        })?,
        Entry::LeftOut(_) | Entry::Gone => {}
    }
    Ok(())
}

// the name as it is where that is text without control characters, else with escapes
fn shown(alloc: Global, name: &[u8]) -> Result<String, AllocError> {
    if let Ok(text) = str::from_utf8(name)
        && !text.chars().any(char::is_control)
    {
        return String::from_str(alloc, text);
    }
    let mut text = String::new(alloc);
    for byte in name.escape_ascii() {
        text.push(char::from(byte))?;
    }
    Ok(text)
}
