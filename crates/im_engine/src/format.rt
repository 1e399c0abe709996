//! Makes an image of a file.
ghost use Rattle.std.specs.Prelude.{◌≡◌, ◌<◌, true, false, ◌⊎◌, [], ◌∷◌, length, drop, IfOk, IfErr, OnOk, MatchResult};
ghost use Rattle.std.specs.Prelude.{IsErrOf};
ghost use Rattle.im_types.specs.Types.{Device, NoMemory, WrongLength, sizes_of, Header as Seen};
ghost use Rattle.im_disk.specs.{Moment.Counts, Moment.Fault, Moment.Faults, Since.LeavesNow};
ghost use Rattle.im_image.specs.{Fresh.new_header, Fresh.new_image, Headers.seen};
ghost use Rattle.im_checkpoint.specs.Turns.{IsIdle};
ghost use Rattle.im_engine.specs.Formatting.{HasLength, HasLengthUntouched, HasOtherLength};
ghost use Rattle.im_engine.specs.State.{IsEmptyMemory, IsNewImage, MeansState};

use crate::engine::Engine;
use im_checkpoint::Checkpoint;
use im_disk::{DeviceFault, Disk, open_gate};
use im_image::{Header, VERSION, new_image};
use im_journal::Journal;
use im_memory::Memory;
use im_types::layout::image_length;
use im_types::{Limits, Refusal};
use std::alloc::Global;

// The header of a new image.
fn new_header(limits: Limits) -> Header
    ensures { seen result ≡ new_header (sizes_of limits) }
{
    Header {
        version: VERSION,
        area: 0,
        generation: 1,
        count: 0,
        limits,
    }
}

// Writes a whole image, and then opens the gate of its first header.
fn write_image<D: Disk>(disk: &mut D, image: &[u8]) -> Result<(), DeviceFault>
    requires some { 0 < length image.now }
    requires size { D.honest disk.old → length image.now ≡ length (D.now disk.old).bytes }
    ensures written { OnOk result (D.honest disk.new → (D.now disk.new).bytes ≡ 0xA5 ∷ drop 1 image.now) }
    ensures calm { OnOk result (D.honest disk.new → (D.now disk.new).ranges ≡ []) }
    ensures honest { D.honest disk.new → D.honest disk.old }
    ensures failures { Counts result (D.failures disk.old) (D.failures disk.new) }
{
    disk.write_at(0, image)?; // Its gate is closed: a stop leaves no image, or what is left of an old one.
    open_gate(disk, 0) // The same; then the gate closed, or open before the whole of the image, which is on the disk.
}

// Makes a new image of a file. Returns the memory that it means, and a checkpoint that isn't under way.
fn lay_down<D: Disk>(
    alloc: Global,
    disk: &mut D,
    limits: Limits,
) -> Result<(Memory, Checkpoint), Refusal>
    ensures empty { IfOk result (λ r. IsEmptyMemory limits r.0) }
    ensures idle { IfOk result (λ r. IsIdle (new_header (sizes_of limits)) true r.1) }
    ensures written { OnOk result (D.honest disk.new → (D.now disk.new).bytes ≡ new_image 0xA5 (sizes_of limits)) }
    ensures calm { OnOk result (D.honest disk.new → (D.now disk.new).ranges ≡ []) }
    ensures wrong { IsErrOf result Refusal.WrongLength → D.honest disk.new
        → HasOtherLength D.Disk limits disk.old disk.new }
    ensures right { MatchResult result (λ r. D.honest disk.new → HasLength D.Disk limits disk.old)
        (λ e. e ≡ NoMemory → D.honest disk.new → HasLengthUntouched D.Disk limits disk.old disk.new) }
    ensures faults { Faults (λ e. (e ≡ WrongLength) ⊎ (e ≡ NoMemory) ⊎ (e ≡ Device)) result
        (D.failures disk.old) (D.failures disk.new) }
    ensures honest { D.honest disk.new → D.honest disk.old }
{
    let Ok(length) = disk.len() else {
        return Err(Refusal::Device);
    };
    if length != image_length(limits) {
        return Err(Refusal::WrongLength);
    }
    let Ok(memory) = Memory::new(alloc, limits) else {
        return Err(Refusal::NoMemory);
    };
    let Ok(image) = new_image(alloc, limits) else {
        return Err(Refusal::NoMemory);
    };
    let Ok(checkpoint) = Checkpoint::idle(alloc, &new_header(limits), true) else {
        return Err(Refusal::NoMemory);
    };
    // A stop in it leaves no image before the whole of the new one is on the disk.
    if let Err(_) = write_image(disk, &image) {
        return Err(Refusal::Device);
    }
    Ok((memory, checkpoint))
}

impl<D: Disk> Engine<D> {
    /// Makes the image of an empty memory of a file: the header in area 0, at generation 1 and count 0, and every gate
    /// of the journal closed. What the file held is gone. One write of the whole image, a sync, one of its gate alone,
    /// a sync.
    ///
    /// Each refusal gives the disk back. `WrongLength` exactly where the file's length isn't that of such an image, and
    /// `NoMemory` where `alloc` refused the room for the image, the memory and the pages of a checkpoint: then nothing
    /// was written. `Device` where a call of the disk failed: then the file may hold no image.
    pub fn format(alloc: Global, mut disk: D, limits: Limits) -> Result<Engine<D>, (Refusal, D)>
        ensures empty { IfOk result (λ e. IsNewImage limits e) }
        ensures image { IfOk result (λ e. D.honest e.disk
            → LeavesNow (D.now e.disk) (λ file. file ≡ new_image 0xA5 (sizes_of limits))) }
        // Each file that a crash may leave means that.
        ensures means { IfOk result (λ e. D.honest e.disk → LeavesNow (D.now e.disk) (MeansState e)) }
        ensures works { IfOk result (λ e. e.failed ≡ false) }
        ensures wrong { IfErr result (λ e. e.0 ≡ WrongLength → D.honest e.1
            → HasOtherLength D.Disk limits disk e.1) }
        ensures right { MatchResult result (λ e. D.honest e.disk → HasLength D.Disk limits disk)
            (λ e. e.0 ≡ NoMemory → D.honest e.1 → HasLengthUntouched D.Disk limits disk e.1) }
        ensures faults { MatchResult result (λ e. D.failures e.disk ≡ D.failures disk)
            (λ e. Fault (λ r. (r ≡ WrongLength) ⊎ (r ≡ NoMemory) ⊎ (r ≡ Device))
            (D.failures disk) (D.failures e.1) e.0) }
        ensures honest { MatchResult result (λ e. D.honest e.disk → D.honest disk) (λ e. D.honest e.1 → D.honest disk) }
    {
        match lay_down(alloc, &mut disk, limits) {
            Ok((memory, checkpoint)) => Ok(Engine::started(
                disk,
                checkpoint,
                Journal::fresh(limits),
                memory,
            )),
            Err(refusal) => Err((refusal, disk)),
        }
    }
}
