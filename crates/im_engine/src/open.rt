//! Opens an image.
ghost use Rattle.std.specs.Prelude.{◌≡◌, ◌≤◌, false, ◌⊎◌, [], length, IfOk, IfErr, MatchResult};
ghost use Rattle.{im_types.specs.Types.Device, im_types.specs.Types.NoMemory, im_image.specs.Headers.MayRefuseOpening};
ghost use Rattle.{im_image.specs.Headers.seen, im_checkpoint.specs.Keeping.Fits, im_checkpoint.specs.Step.NoCheckpoint};
ghost use Rattle.im_disk.specs.{Moment.Fault, Moment.Faults, Since.LeavesNow};
ghost use Rattle.im_engine.specs.Leaving.{LeavesAsBefore};
ghost use Rattle.im_engine.specs.State.{Finds, IsFirstFault, IsFound, IsKeptIdle, MeansState, pages_at_first};

use crate::engine::Engine;
use im_checkpoint::Checkpoint;
use im_disk::Disk;
use im_image::{ImageParts, Versions, read_image};
use im_types::Refusal;
use std::alloc::Global;

// Puts all that was written on the disk, and then reads the image. So each file that may be left means what was read.
fn read_synced<D: Disk>(alloc: Global, disk: &mut D) -> Result<ImageParts, Refusal>
    ensures area { IfOk result (λ i. i.header.area ≤ 1) }
    ensures fits { IfOk result (λ i.
        Fits (record { header = seen i.header; step = NoCheckpoint }) i.memory.contents i.journal
        × (i.journal.ahead ≡ [])) }
    // It holds whatever is known of pages, if all of them count as changed.
    ensures kept { IfOk result (λ i. D.honest disk.new
        → IsKeptIdle (seen i.header) i.memory.contents i.journal (D.now disk.new)) }
    ensures found { IfOk result (λ i. D.honest disk.new → LeavesNow (D.now disk.new) (Finds (seen i.header)
        (record { contents = i.memory.contents; count = i.journal.count; room = i.journal.room }))) }
    ensures leaves { LeavesAsBefore D.Disk disk.old disk.new }
    ensures fault { IfErr result (λ e. (e ≡ NoMemory) ⊎ (e ≡ Device)
        ⊎ (D.honest disk.new → LeavesNow (D.now disk.new) (IsFirstFault e))) }
    ensures faults { Faults MayRefuseOpening result (D.failures disk.old) (D.failures disk.new) }
    ensures honest { D.honest disk.new → D.honest disk.old }
{
    // After a write without a sync, a crash may leave less than a read gives. The sync makes sure. A stop in it, or in
    // the reads behind it, leaves what a stop before it leaves.
    if let Err(_) = disk.sync() {
        return Err(Refusal::Device);
    }
    match read_image(alloc, disk, Versions::InUse) {
        Ok(image) => Ok(image),
        Err(refusal) => Err(refusal),
    }
}

impl<D: Disk> Engine<D> {
    /// Opens an image. It syncs first, then reads, and writes nothing.
    ///
    /// Each refusal gives the disk back. The first fault of the file: `WrongLength`, `NoHeader`, `BadHeader`, `BadPage`
    /// where the pages in force show no memory, `BadRecord` where the journal's run is at fault, or a command in it
    /// isn't accepted where it stands. Before a wrong length for its sizes comes `OldVersion`: the header in force is a
    /// sound one of the first version, whatever else is wrong with the image. `NoMemory` where `alloc` refused the room
    /// for the memory, for what is read, or for the pages of a checkpoint. `Device` where a call of the disk failed.
    pub fn open(alloc: Global, mut disk: D) -> Result<Engine<D>, (Refusal, D)>
        // Each file that a crash may leave means what the engine is, and could have been left before.
        ensures means { IfOk result (λ e. D.honest e.disk → LeavesNow (D.now e.disk) (MeansState e)) }
        ensures works { IfOk result (λ e. e.failed ≡ false) }
        // No checkpoint is under way, all pages of both areas count as changed, nothing is ahead, and header and room
        // are those that reading the file finds.
        ensures idle { IfOk result (λ e. (e.step ≡ NoCheckpoint) × (e.pages ≡ pages_at_first e.header false)
            × (e.ahead ≡ [])) }
        ensures found { IfOk result (λ e. D.honest e.disk → LeavesNow (D.now e.disk) (IsFound e)) }
        ensures leaves { MatchResult result (λ e. LeavesAsBefore D.Disk disk e.disk)
            (λ e. LeavesAsBefore D.Disk disk e.1) }
        ensures fault { IfErr result (λ e. (e.0 ≡ NoMemory) ⊎ (e.0 ≡ Device)
            ⊎ (D.honest e.1 → LeavesNow (D.now e.1) (IsFirstFault e.0))) }
        ensures faults { MatchResult result (λ e. D.failures e.disk ≡ D.failures disk)
            (λ e. Fault MayRefuseOpening (D.failures disk) (D.failures e.1) e.0) }
        ensures honest { MatchResult result (λ e. D.honest e.disk → D.honest disk) (λ e. D.honest e.1 → D.honest disk) }
    {
        match read_synced(alloc, &mut disk) {
            Ok(image) => match Checkpoint::idle(alloc, &image.header, false) {
                Ok(checkpoint) => Ok(Engine::started(
                    disk,
                    checkpoint,
                    image.journal,
                    image.memory,
                )),
                Err(refusal) => Err((refusal, disk)),
            },
            Err(refusal) => Err((refusal, disk)), // The first fault, or none.
        }
    }
}
