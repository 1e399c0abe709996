//! The backups that were kept, as contracts know them.
ghost use Rattle.std.specs.Prelude.{◌≡◌, ◌∷◌};
ghost use Rattle.{im_types.specs.Types.sizes_of, im_dialogue.specs.Backups.bytes_of};
ghost use Rattle.im_migration.specs.Migration.{LeavesLaid, moved_header};

use im_dialogue::BackupName;
use im_disk::{Disk, FileDisk, Start};
use im_memory::Memory;
use im_migration::Original;
use im_noted::NoteList;
use std::marker::Model;
use std::snapshot::Snapshot;

/// A backup that was kept. Only clauses read it.
#[derive(Drop)]
pub(crate) struct KeptBackup {
    name: BackupName,
    memory: Snapshot<Memory>,
    count: u64,
}

impl Model for KeptBackup {
    ghost use Rattle.im_dialogue.specs.Backups.{Backup, bytes_of};

    ghost Value = { Backup };

    ghost view = { λ k. record { name = bytes_of k.name; memory = k.memory.value.contents; count = k.count } };
}

/// Puts a backup on the shelf, the newest first, given the disk of its file, which means its memory and its count.
pub(crate) fn shelve<S: Start>(
    shelf: &mut NoteList<KeptBackup>,
    _disk: FileDisk<S>,
    original: &Original,
    name: BackupName,
)
    requires laid { let h = moved_header (sizes_of original.now.limits) original.now.count in
        LeavesLaid ⟦<FileDisk<S> as Disk>⟧ _disk h original.now.memory.now.contents }
    ensures kept { shelf.new ≡ record {
      name = bytes_of name;
      memory = original.now.memory.now.contents;
      count = original.now.count;
    } ∷ shelf.old }
{
    let memory = Snapshot::of(original.memory);
    let count = original.count;
    shelf.note(&KeptBackup {
        name,
        memory,
        count,
    });
}
