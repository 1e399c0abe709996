//! How many slots the journal of an image has, and when a dialogue makes room while nobody asks.
ghost use Rattle.std.specs.Prelude.{◌≡◌, ℕ, ◌/◌, ◌≤◌, IfOk, IfErr};
ghost use Rattle.im_types.specs.Types.{layout_in_use, image_length as length_of_image};
ghost use Rattle.im_engine.specs.Leaving.{LeavesAsBefore};
ghost use Rattle.im_dialogue.specs.Dialogue.{BeginsTalk, CountsSlots};

use im_disk::Disk;
use im_engine::Engine;
use im_session::Session;
use im_types::layout::{SLOT, image_length};
use im_types::{Limits, MAX_SLOTS, MIN_SLOTS, Refusal};
use std::alloc::Global;

// Returns how many slots the journal of an image of this many bytes has. The limits are those of its cells and elements
// with the least journal.
fn slots_in(bytes: usize, least: Limits) -> u32
    ensures { (slots : ℕ) → slots ≤ MAX_SLOTS → least.slots ≤ slots
        → bytes ≡ length_of_image layout_in_use
        (record { cells = least.cells; elements = least.elements; slots = slots })
        → result ≡ slots }
{
    let more = bytes.saturating_sub(image_length(least)) / SLOT;
    least.slots + more.min((MAX_SLOTS - least.slots) as usize) as u32
}

/// Returns half of what a journal of `slots` slots holds. With less room, turns are taken while nobody asks.
pub(crate) fn half_of(slots: u32) -> u32
    ensures { result ≡ slots / 2 }
{
    slots / 2
}

// Returns how many slots the journal of an image of `bytes` bytes has.
fn slots_of<D: Disk>(engine: &Engine<D>, bytes: usize) -> u32
    ensures { CountsSlots engine.now.memory bytes result }
{
    let memory = engine.memory();
    match Limits::new(memory.cells(), memory.elements(), MIN_SLOTS) {
        Some(least) => slots_in(bytes, least),
        None => 0,
    }
}

/// Opens the image of a disk. Returns a session that begins behind the opening, and how many slots the journal has.
pub(crate) fn open_with_slots<D: Disk>(
    alloc: Global,
    mut disk: D,
) -> Result<(Session<D>, u32), (Refusal, D)>
    ensures begins { IfOk result (λ r. BeginsTalk D.Disk disk r.0) }
    ensures leaves { IfErr result (λ e. LeavesAsBefore D.Disk disk e.1) }
    ensures honest { IfErr result (λ e. D.honest e.1 → D.honest disk) }
{
    let bytes = disk.len().unwrap_or(0);
    // A crash in this call leaves what a crash before it leaves: an opening writes nothing.
    match Engine::open(alloc, disk) {
        Ok(engine) => {
            let slots = slots_of(&engine, bytes);
            Ok((Session::of(engine), slots))
        }
        Err(refused) => Err(refused),
    }
}
