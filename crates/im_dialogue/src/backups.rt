//! Where a dialogue keeps backups: copies of its image, as the memory is between two lines.
ghost use Rattle.std.specs.Prelude.{[]};

use crate::backup_name::BackupName;
use im_memory::Memory;
use im_text::Reason;
use std::fmt;
use std::fmt::{Display, Formatter};

/// Why a backup isn't kept. Its text is for a person.
#[derive(Clone, Copy, Debug, PartialEq, Eq)]
pub enum BackupFault {
    /// No folder for backups was given.
    NoFolder,
    /// There was not enough memory, or its file can't be made or written.
    Unkept(Reason),
}

impl Display for BackupFault {
    fn fmt<W: fmt::Write>(&self, f: &mut Formatter<W>) -> fmt::Result {
        match *self {
            BackupFault::NoFolder => f.write_str("no folder for backups was given, by --backups"),
            BackupFault::Unkept(reason) => write!(f, "{reason}"),
        }
    }
}

/// What stands beside a dialogue. It keeps copies of the image, each in a file of its own that has a name, and is shown
/// the memory.
pub trait Backups {
    ghost use Rattle.std.specs.Prelude.{◌≡◌, List, ◌∷◌, OnOk, OnErr};
    ghost use Rattle.im_dialogue.specs.Backups.{Backup, bytes_of};

    /// The copies that were kept so far, the newest first: the name of each, and what it means.
    ghost kept: { Self → List Backup };

    /// Keeps a copy: an image with this memory after `count` commands, and with a journal of `slots` slots, all of them
    /// free. It never replaces a file. Returns why the copy isn't kept. Then what was kept is as it was.
    fn keep(
        &mut self,
        memory: &Memory,
        slots: u32,
        count: u64,
        name: BackupName,
    ) -> Result<(), BackupFault>
        ensures kept { OnOk result (kept self.new ≡ record {
          name = bytes_of name;
          memory = memory.now.contents;
          count = count;
        } ∷ kept self.old) }
        ensures same { OnErr result (kept self.new ≡ kept self.old) };

    /// Is shown the memory each time that the dialogue rests: all that was asked is answered, and more is to be read.
    /// It may tell an operator what it sees. Nothing is kept by it.
    fn look_at(&mut self, memory: &Memory)
        ensures same { kept self.new ≡ kept self.old };
}

/// Keeps no backup, since no folder was given.
#[derive(Clone, Copy, Drop)]
pub struct NoBackups;

impl Backups for NoBackups {
    ghost kept = { λ _. [] };

    fn keep(
        &mut self,
        _memory: &Memory,
        _slots: u32,
        _count: u64,
        _name: BackupName,
    ) -> Result<(), BackupFault> {
        Err(BackupFault::NoFolder)
    }

    fn look_at(&mut self, _memory: &Memory) {}
}
