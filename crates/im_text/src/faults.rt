//! What is wrong with a file that can't be made, opened, read or written, in words for a person.

use std::fmt;
use std::fmt::{Display, Formatter};
use std::io::ErrorKind;

/// Why a file isn't made or opened. Its text is for a person.
#[derive(Clone, Copy, Debug, PartialEq, Eq)]
pub enum PathFault {
    /// Another program has the file's lock.
    InUse,
    /// A file of that name exists, and a new one was asked for.
    Exists,
    /// A note of this boot says that a sync of the file failed.
    Unsynced,
    /// It isn't a regular file, but a device, a FIFO or a socket.
    NotFile,
    /// It is a folder.
    IsFolder,
    /// The folder that should contain the file doesn't exist.
    NoFolder,
    /// The path is empty.
    EmptyPath,
    /// The new file of a migration is the old one.
    Same,
    /// A sync of the file failed as it was opened.
    Sync(ErrorKind),
    /// The system gives this reason.
    System(ErrorKind),
}

/// Which call on an open file failed. Its text is for a person.
#[derive(Clone, Copy, Debug, PartialEq, Eq)]
pub enum CallFault {
    /// The file no longer has the length that it had.
    Length,
    /// The file can't be read.
    Read(ErrorKind),
    /// The file can't be written.
    Write(ErrorKind),
    /// A sync failed: what was written since the last one may be lost.
    Sync(ErrorKind),
}

/// What the system says, in words for a person.
#[derive(Clone, Copy, Debug, PartialEq, Eq)]
pub struct Words(pub ErrorKind);

impl Display for Words {
    fn fmt<W: fmt::Write>(&self, f: &mut Formatter<W>) -> fmt::Result {
        match self.0 {
            ErrorKind::NotFound => f.write_str("there is no such file"),
            ErrorKind::PermissionDenied => f.write_str("there is no permission for it"),
            ErrorKind::IsADirectory => f.write_str("it is a folder"),
            ErrorKind::NotADirectory => f.write_str("a part of its path is no folder"),
            ErrorKind::ReadOnlyFilesystem => f.write_str("its file system may only be read"),
            ErrorKind::StorageFull => f.write_str("no space is left on the device"),
            ErrorKind::QuotaExceeded => f.write_str("no more space is granted to this user"),
            ErrorKind::FileTooLarge => f.write_str("a file may not be so long here"),
            ErrorKind::FilesystemLoop => f.write_str("its links lead round in a ring"),
            ErrorKind::InvalidFilename => f.write_str("a name is too long"),
            ErrorKind::InvalidInput => f.write_str("it isn't a name that a file may have"),
            ErrorKind::OutOfMemory => f.write_str("there is not enough memory"),
            ErrorKind::BrokenPipe => f.write_str("nobody reads it any more"),
            ErrorKind::Uncategorized | ErrorKind::Other => f.write_str(
                "a call of the system failed",
            ),
            kind => write!(f, "{kind}"),
        }
    }
}

impl Display for PathFault {
    fn fmt<W: fmt::Write>(&self, f: &mut Formatter<W>) -> fmt::Result {
        match *self {
            PathFault::InUse => f.write_str("it is in use by another program"),
            PathFault::Exists => f.write_str(
                "there is a file of that name, and it is left as it is",
            ),
            PathFault::Unsynced => f.write_str(
                "a sync of it failed since this machine was started, so what is read of it may not be on the disk: \
                 mount its file system anew and remove the note, or restart the machine",
            ),
            PathFault::NotFile => f.write_str("it is no ordinary file"),
            PathFault::IsFolder => f.write_str("it is a folder"),
            PathFault::NoFolder => f.write_str("its folder isn't there"),
            PathFault::EmptyPath => f.write_str("the path is empty"),
            PathFault::Same => f.write_str("the old file and the new one are one file"),
            PathFault::Sync(kind) => {
                let words = Words(kind);
                write!(
                    f,
                    "a sync of the file failed as it was opened: {words}; \
                     mount its file system anew, or restart the machine, before it is opened again"
                )
            }
            PathFault::System(kind) => Words(kind).fmt(f),
        }
    }
}

impl Display for CallFault {
    fn fmt<W: fmt::Write>(&self, f: &mut Formatter<W>) -> fmt::Result {
        match *self {
            CallFault::Length => f.write_str("the file has no longer the length that it had"),
            CallFault::Read(kind) => {
                let words = Words(kind);
                write!(f, "the file can't be read: {words}")
            }
            CallFault::Write(kind) => {
                let words = Words(kind);
                write!(f, "the file can't be written: {words}")
            }
            CallFault::Sync(kind) => {
                let words = Words(kind);
                write!(f, "a sync of the file failed: {words}")
            }
        }
    }
}
