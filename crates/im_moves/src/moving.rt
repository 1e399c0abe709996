//! Dumps an image, and loads the text into a new file.
ghost use Rattle.std.specs.Prelude.{IfOk};
ghost use Rattle.im_disk.specs.Runs.{ReadsAlone};
ghost use Rattle.im_moves.specs.Moving.{LeavesBlankOrMoved, LeavesMoved, MayMeanLoaded};

use im_disk::Disk;
use im_dump::{Loaded, dump, read_dump, what_was_dumped_is_loaded};
use im_migration::{Asked, MoveNews, Original, prepare, put_new};
use im_types::{Observer, Refusal};
use std::alloc::Global;

// Returns what the dump of the image on a disk is loaded as.
fn reread<D: Disk>(alloc: Global, old: &mut D) -> Result<Loaded, Refusal>
    ensures means { IfOk result (MayMeanLoaded (D.honest old.new) (D.now old.old).bytes) }
    ensures reads { ReadsAlone D.Disk old.old old.new }
{
    what_was_dumped_is_loaded();
    let mut text: Vec<u8> = Vec::new(alloc);
    match dump(alloc, old, &mut text) {
        Ok(()) => match read_dump(alloc, text.as_slice()) {
            Ok(loaded) => Ok(loaded),
            Err(fault) => Err(fault.refusal()),
        },
        Err(reason) => Err(reason.refusal().unwrap_or(Refusal::Device)),
    }
}

/// Moves an image by its dump: the text is loaded into a new file, in the sizes that are asked for. Returns the new
/// file, which means the old one's memory, in those sizes, after as many commands: each value, who waits and in which
/// order, each window. If it is made, any crash since the start leaves a file that could be left before, no image, or
/// the whole one. The old file, of either version, is only read. Each refusal gives the new file back; what a crash
/// leaves then is said by [`put_new`] alone.
///
/// - Why the old image isn't read, `Device` if it was a call of its disk. Nothing was written.
/// - `BadLimits` if what the image means doesn't fit into the sizes. Nothing was written.
/// - `NoMemory` if `alloc` refused the room for the text and two memories. Nothing was written.
/// - `WrongLength`, `NotBlank` or `Device`, as [`put_new`] returns them.
pub fn move_by_dump<O: Disk, N: Disk, F: Observer<MoveNews>>(
    alloc: Global,
    old: &mut O,
    new: N,
    asked: Asked,
    observer: &mut F,
) -> Result<N, (Refusal, N)>
    ensures moved { IfOk result (λ to. LeavesMoved N.Disk to asked (O.honest old.new) (O.now old.old).bytes) }
    ensures leaves { IfOk result (λ to. LeavesBlankOrMoved N.Disk new to asked (O.honest old.new)
        (O.now old.old).bytes) }
    ensures reads { ReadsAlone O.Disk old.old old.new }
{
    let loaded = match reread(alloc, old) {
        Ok(loaded) => loaded,
        Err(refusal) => return Err((refusal, new)),
    };
    let original = Original {
        memory: &loaded.memory,
        limits: loaded.limits,
        count: loaded.count,
    };
    match prepare(alloc, &original, asked, observer) {
        Ok(resized) => put_new(new, &resized, observer),
        Err(refusal) => Err((refusal, new)),
    }
}
