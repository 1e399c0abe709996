//! Bytes behind a gate: they count only once the gate, their first byte, is open.
ghost use Rattle.std.specs.Prelude.{◌≡◌, ◌+◌, ◌<◌, ◌≤◌, [], ◌∷◌, length, OnOk, slice_index};
ghost use Rattle.im_types.specs.Types.{open_gate};
ghost use Rattle.im_disk.specs.{Gate.IsClosed, Gate.MayOpen, Gate.MayWrite, Moment.synced, Moment.written, Runs.Runs};

use crate::{DeviceFault, Disk};
use im_types::layout::OPEN;

/// Syncs, opens the gate at `at` by writing its byte, and syncs again. The bytes behind the gate were written before.
///
/// A crash during the run leaves a file that could be left before, or the one that a read gives with any byte in the
/// place of the gate. After `Ok` the gate is open for good, over all that was written.
pub fn open_gate<D: Disk>(disk: &mut D, at: usize) -> Result<(), DeviceFault>
    requires inside { D.honest disk.old → at + 1 ≤ length (D.now disk.old).bytes }
    ensures runs { Runs D.Disk disk.old disk.new result 3 (MayOpen at (D.now disk.old)) }
    ensures opened { OnOk result (D.honest disk.new
        → D.now disk.new ≡ synced (written at (open_gate ∷ []) (D.now disk.old))) }
{
    disk.sync()?; // A stop leaves what it could leave before: the gate isn't written yet.
    disk.write_at(at, &[OPEN])?; // A stop leaves any byte there, and all that is behind it is on the disk.
    disk.sync() // The same. Once this is done the gate is open for good.
}

/// Writes bytes whose first byte is an open gate to a place where the gate is closed. The order is: the bytes behind
/// the gate, a sync, the gate, a sync.
///
/// A crash during the run leaves a file whose gate is closed, or open over all the bytes. Elsewhere it is a file that
/// could be left before. After `Ok` the bytes are on the disk.
pub fn write_behind_gate<D: Disk>(disk: &mut D, at: usize, bytes: &[u8]) -> Result<(), DeviceFault>
    requires below { at < usize.MAX }
    requires gate { slice_index bytes.now 0 ≡ open_gate }
    requires closed { D.honest disk.old → IsClosed at (length bytes.now) (D.now disk.old) }
    ensures runs { Runs D.Disk disk.old disk.new result 4 (MayWrite at bytes.now (D.now disk.old)) }
    ensures written { OnOk result (D.honest disk.new
        → D.now disk.new ≡ synced (written at bytes.now (D.now disk.old))) }
{
    disk.write_at(at + 1, &bytes[1..])?; // The gate is closed: what a stop leaves behind it doesn't count.
    open_gate(disk, at)
}
