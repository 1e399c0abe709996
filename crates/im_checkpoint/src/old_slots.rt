//! Closes the gates of slots whose commands the area in force holds. A turn with no checkpoint under way calls `sweep`,
//! and a sweep of many slots calls `sweep_more`.
ghost use Rattle.std.specs.Prelude.{◌≡◌, ◌<◌, min, IfOk, OnErr};
ghost use Rattle.im_types.specs.Types.{Contents};
ghost use Rattle.im_journal.specs.Holding.{AllHold, to_sweep, with_room};
ghost use Rattle.im_checkpoint.specs.{Keeping.Paged, Keeping.StaysMeant, Step.CheckpointState, Step.NoCheckpoint};
ghost use Rattle.im_checkpoint.specs.Turns.{calls_for_slots, MakesSweep, MakesTurn};

use crate::checkpoint::TurnDone;
use im_disk::Disk;
use im_journal::Journal;
use im_types::Refusal;

/// Closes the gates of the oldest slots to be swept, three at most.
pub(crate) fn sweep<D: Disk>(disk: &mut D, journal: &mut Journal) -> Result<TurnDone, Refusal>
    requires some { 0 < to_sweep journal.old }
    requires holds { D.honest disk.old → AllHold journal.old (D.now disk.old) }
    ensures swept { IfOk result (λ answer. (answer ≡ TurnDone.Swept)
        × (journal.new ≡ with_room journal.old (min 3 (to_sweep journal.old)))) }
    ensures same { OnErr result (journal.new ≡ journal.old) }
    ensures keeps { D.honest disk.new → (c : CheckpointState) (x : Paged) (m : Contents) → c.step ≡ NoCheckpoint
        → StaysMeant D.Disk disk.old disk.new result c x c x m journal.old journal.new }
    ensures runs { MakesTurn D.Disk disk.old disk.new result }
{
    // The pages in force hold the commands of these slots. Nobody reads the slots, whatever a stop leaves of their
    // gates.
    match journal.sweep_turn(disk) {
        Ok(_) => Ok(TurnDone::Swept),
        Err(refusal) => Err(refusal),
    }
}

/// Like `sweep`, for `most` slots at most. Returns their number.
pub(crate) fn sweep_more<D: Disk>(
    disk: &mut D,
    journal: &mut Journal,
    most: u32,
) -> Result<u32, Refusal>
    requires holds { D.honest disk.old → AllHold journal.old (D.now disk.old) }
    ensures swept { IfOk result (λ n. (n ≡ min most (to_sweep journal.old))
        × (journal.new ≡ with_room journal.old n)) }
    ensures same { OnErr result (journal.new ≡ journal.old) }
    ensures keeps { D.honest disk.new → (c : CheckpointState) (x : Paged) (m : Contents) → c.step ≡ NoCheckpoint
        → StaysMeant D.Disk disk.old disk.new result c x c x m journal.old journal.new }
    ensures runs { MakesSweep D.Disk disk.old disk.new (calls_for_slots (to_sweep journal.old) most) result }
{
    if journal.to_sweep() == 0 {
        return Ok(0);
    }
    // As in a turn: nobody reads these slots, whatever a stop leaves of their gates.
    journal.sweep(disk, most)
}
