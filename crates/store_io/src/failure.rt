//! What the store of a folder tells of its failures, and of the names that it leaves out.

use ftn_base::FileName;
use std::{io, str};
use thiserror::Error;

/// What could not be done as a call on the folder failed.
#[derive(Clone, Copy, Debug, Error)]
pub enum Step {
    /// Listing the folder.
    #[error("the folder could not be listed")]
    List,
    /// Asking what kind of file this is, and who may write it.
    #[error("its kind and permissions could not be found")]
    Look,
    /// Opening and reading the file.
    #[error("it could not be read")]
    Read,
    /// Finding that the file may be replaced.
    #[error("it may not be replaced")]
    Replace,
    /// Opening the folder, to sync it later.
    #[error("the folder could not be opened")]
    OpenFolder,
    /// Making the file that takes the new text.
    #[error("no file could be made beside it")]
    Create,
    /// Writing the new text, giving it the permissions of the old file, and syncing it.
    #[error("its new text could not be written beside it")]
    Write,
    /// Giving the new text the name of the old file.
    #[error("its new text could not take its name")]
    Rename,
    /// Syncing the folder, where the new text is in its place.
    #[error("it has its new text, but the folder could not be synced")]
    SyncFolder,
    /// Taking the file away.
    #[error("it could not be removed")]
    Remove,
    /// Syncing the folder, where the file is taken away.
    #[error("it is removed, but the folder could not be synced")]
    SyncRemoval,
}

/// Why a call on the folder failed.
#[derive(Drop)]
pub struct Failure {
    pub(crate) file: Option<FileName>,
    /// What could not be done.
    pub step: Step,
    /// The reason that the system gave.
    pub reason: io::Error,
}

impl Failure {
    /// The failure of a step, of a file that is to be named yet.
    pub(crate) fn new(step: Step, reason: io::Error) -> Failure {
        Failure {
            file: None,
            step,
            reason,
        }
    }

    /// The file at which it failed. There is none where the folder itself failed, or where there was no memory for the
    /// name.
    pub fn file(&self) -> Option<&str> {
        let name = self.file.as_ref()?;
        str::from_utf8(name.bytes()).ok()
    }
}

/// Why a file is left out of a listing.
#[derive(Clone, Copy, Debug, Error)]
pub enum LeftOutReason {
    /// Its name is no `FileName`.
    #[error("its name has a blank or another byte outside 33 to 126")]
    Name,
    /// It is a symbolic link.
    #[error("it is a symbolic link")]
    Link,
    /// It is a folder, a pipe, a socket or a device.
    #[error("it is no regular file")]
    Kind,
}

/// A name of the folder that ends in `.f90` and is left out of a listing.
#[derive(Drop)]
pub struct LeftOut {
    /// The name as it is shown: as it is where that is text without control characters, else with escapes.
    pub name: String,
    /// Why it is left out.
    pub reason: LeftOutReason,
}
