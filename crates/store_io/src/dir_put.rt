//! Replacing and removing a file of the folder of the system that the program runs in.

use crate::dir_list::path_of;
use crate::failure::{Failure, Step};
use ftn_base::{FileName, MOST_FILE_NAME_BYTES};
use std::alloc::{AllocError, Global};
use std::fs::{File, OpenFile, OpenOptions, Permissions};
use std::io::{Error, ErrorKind, Write};
use std::os::unix::fs::{OpenOptionsExt, PermissionsExt};
use std::rt::Files;
use std::{fs, io};

/// What takes the place of a name that would be too long with what is added to it.
const SHORT_NAME: &str = "ftn_tool";

/// How many names are tried for the new text.
const TRIES: u32 = 100;

/// The permissions that a new file asks for where there is no old one.
const NEW_FILE_MODE: u32 = 0o666;

/// Puts the whole text under that name of the current folder. The text is written to a file that is made for it beside
/// the old one, and synced; then that takes the name, and the folder is synced. No file that was there before is
/// written. What was made is taken away where a step fails before the new text has the name.
pub(crate) fn put_here<R: Files>(
    rt: &R,
    alloc: Global,
    name: &FileName,
    text: &[u8],
) -> Result<(), Failure> {
    let path = path_of(name).map_err(|reason| Failure::new(Step::Look, reason))?;
    let old = old_permissions(rt, path)?;
    let folder = File::open(rt, ".").map_err(|reason| Failure::new(Step::OpenFolder, reason))?;
    let (mut file, beside) = new_file(rt, alloc, path, &old).map_err(|reason| Failure::new(
        Step::Create,
        reason,
    ))?;
    let moved = write_text::<R>(&mut file, &old, text)
        .map_err(|reason| Failure::new(Step::Write, reason))
        .and_then(|()| move_over(rt, beside.as_str(), path));
    if moved.is_err() {
        // where it can't be taken away either, the first failure counts
        let _ = fs::remove_file(rt, beside.as_str());
        return moved;
    }
    sync_folder::<R>(&folder).map_err(|reason| Failure::new(Step::SyncFolder, reason))
}

/// Takes the file of that name of the current folder away, and syncs the folder. Nothing is there to be taken away where
/// the system finds no such file.
pub(crate) fn remove_here<R: Files>(rt: &R, name: &FileName) -> Result<(), Failure> {
    let path = path_of(name).map_err(|reason| Failure::new(Step::Remove, reason))?;
    let folder = File::open(rt, ".").map_err(|reason| Failure::new(Step::OpenFolder, reason))?;
    fs::remove_file(rt, path).map_err(|reason| Failure::new(Step::Remove, reason))?;
    sync_folder::<R>(&folder).map_err(|reason| Failure::new(Step::SyncRemoval, reason))
}

// the permissions of the file that is to be replaced, if there is one; one that nobody may write isn't replaced
fn old_permissions<R: Files>(rt: &R, path: &str) -> Result<Option<Permissions>, Failure> {
    let metadata = match fs::symlink_metadata(rt, path) {
        Ok(metadata) => metadata,
        Err(error) if error.kind() == ErrorKind::NotFound => return Ok(None),
        Err(reason) => return Err(Failure::new(Step::Look, reason)),
    };
    let permissions = metadata.permissions();
    if !metadata.is_file() {
        let reason = Error::new(ErrorKind::InvalidInput, "it is no regular file");
        return Err(Failure::new(Step::Replace, reason));
    }
    if permissions.readonly() {
        let reason = Error::new(
            ErrorKind::PermissionDenied,
            "nobody has permission to write it",
        );
        return Err(Failure::new(Step::Replace, reason));
    }
    Ok(Some(permissions))
}

// `NAME.tmp` at the first try, then `NAME.tmp1` and so on
fn beside_name(alloc: Global, name: &str, number: u32) -> Result<String, AllocError> {
    let mut beside = String::from_str(alloc, name)?;
    beside.push_str(".tmp")?;
    if number > 0 {
        write!(beside, "{number}")?;
    }
    Ok(beside)
}

// a file that wasn't there before, and its name
fn new_file<R: Files>(
    rt: &R,
    alloc: Global,
    path: &str,
    old: &Option<Permissions>,
) -> io::Result<(R::File, String)> {
    let mut options = OpenOptions::new();
    options.write(true).create_new(true).mode(mode_of(old));
    for number in 0..TRIES {
        let mut beside = beside_name(alloc, path, number)?;
        if beside.len() > MOST_FILE_NAME_BYTES {
            beside = beside_name(alloc, SHORT_NAME, number)?;
        }
        match options.open(rt, beside.as_str()) {
            Ok(file) => return Ok((file, beside)),
            Err(error) if error.kind() == ErrorKind::AlreadyExists => {}
            Err(error) => return Err(error),
        }
    }
    Err(Error::from(ErrorKind::AlreadyExists))
}

// what a new file is made with: nobody may read it who may not read the old one
fn mode_of(old: &Option<Permissions>) -> u32 {
    match old {
        Some(permissions) => permissions.mode() & 0o777,
        None => NEW_FILE_MODE,
    }
}

// writes the whole text to the disk, with the permissions of the old file
fn write_text<R: Files>(
    file: &mut R::File,
    old: &Option<Permissions>,
    text: &[u8],
) -> io::Result<()> {
    file.write_all(text)?;
    if let Some(permissions) = old {
        file.set_permissions(permissions.clone()?)?;
    }
    file.sync_all()
}

fn move_over<R: Files>(rt: &R, beside: &str, path: &str) -> Result<(), Failure> {
    fs::rename(rt, beside, path).map_err(|reason| Failure::new(Step::Rename, reason))
}

// what can't be synced at all counts as synced
fn sync_folder<R: Files>(folder: &R::File) -> io::Result<()> {
    match folder.sync_all() {
        Err(error)
            if matches!(
                error.kind(),
                ErrorKind::InvalidInput | ErrorKind::Unsupported
            ) => { Ok(()) }
        synced => synced,
    }
}
