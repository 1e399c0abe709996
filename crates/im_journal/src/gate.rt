// Closes the gates of slots, or opens one.
ghost use Rattle.std.specs.Prelude.{◌≡◌, ◌+◌, ◌*◌, ◌^◌, ◌<◌, ◌≤◌, length, OnOk};
ghost use Rattle.im_disk.specs.Runs.{Runs};
ghost use Rattle.im_journal.specs.Gates.{AreShut, HasOpened, IsRing, MayClose, MayTouch};
ghost use Rattle.im_journal.specs.{Holding.ring_at, OnDisk.LeadsFrom};

use im_disk::{DeviceFault, Disk};
use im_types::layout::{CLOSED, OPEN};

/// Closes the gates of `count` slots of a ring, from the slot of sequence number `from` on. It writes one byte for each
/// and syncs. The slots are of commands before the run. Such a slot is no command while its gate is open, and may count
/// as room once its gate is closed.
pub(crate) fn close_gates<D: Disk>(
    disk: &mut D,
    base: usize,
    slots: u32,
    from: u64,
    count: u32,
) -> Result<(), DeviceFault>
    requires ring { IsRing base slots }
    requires last { from + count < 2 ^ 64 }
    requires inside { D.honest disk.old → base + 64 * slots ≤ length (D.now disk.old).bytes }
    ensures runs { Runs D.Disk disk.old disk.new result (count + 1)
        (MayClose (ring_at base slots) from count (D.now disk.old)) }
    ensures closed { OnOk result (LeadsFrom D.Disk disk.old disk.new (AreShut (ring_at base slots) from count)) }
{
    for i in 0..count {
        let at = base + 64 * (((from + i as u64) % slots as u64) as usize);
        disk.write_at(at, &[CLOSED])?; // A stop may leave any byte there: open or closed, the slot is no command.
    }
    disk.sync()?; // The same. Once this is done the gates are closed for good.
    Ok(())
}

/// Opens the gate at `at` by writing its byte. It makes no sync: that of the next bodies is for both.
pub(crate) fn write_gate<D: Disk>(disk: &mut D, at: usize) -> Result<(), DeviceFault>
    requires inside { D.honest disk.old → at + 1 ≤ length (D.now disk.old).bytes }
    ensures runs { Runs D.Disk disk.old disk.new result 1 (MayTouch at (D.now disk.old)) }
    ensures opened { OnOk result (LeadsFrom D.Disk disk.old disk.new (HasOpened at)) }
{
    disk.write_at(at, &[OPEN])?; // A stop may leave any byte there: the gate is closed, or open.
    Ok(())
}
