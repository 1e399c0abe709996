//! The writes of a checkpoint's turns in the place of the header that isn't in force.
ghost use Rattle.std.specs.Prelude.{◌≡◌, ℕ, ◌+◌, ◌-◌, ◌*◌, ◌<◌, ◌≤◌, List, length, OnOk};
ghost use Rattle.im_types.specs.Types.{Contents, Header as Seen};
ghost use Rattle.im_disk.specs.{Gate.IsClosed, Runs.Obeys, Since.CallsAtMost};
ghost use Rattle.{im_journal.specs.Holding.JournalState, im_image.specs.Headers.seen};
ghost use Rattle.im_checkpoint.specs.Keeping.{ClosesOther, LeavesMeaning, Paged, TakesOver};
ghost use Rattle.im_checkpoint.specs.{Step.PagesDone, Step.Synced, Turns.next_header};

use im_disk::{DeviceFault, Disk, write_behind_gate};
use im_image::Header;
use im_types::LAST;
use im_types::layout::{CLOSED, OPEN, PAGE};

/// Returns the next header of the other area, with this count of commands.
pub(crate) fn next_header(header: &Header, count: u64) -> Header
    requires area { header.now.area ≤ 1 }
    requires later { header.now.generation < LAST }
    ensures next { seen result ≡ next_header (seen header.now) count }
    ensures area { result.area ≤ 1 }
{
    Header {
        version: header.version,
        area: 1 - header.area,
        generation: header.generation + 1,
        count,
        limits: header.limits,
    }
}

/// Puts all that was written on the disk, with the other header's gate closed. All pages were written before.
pub(crate) fn close_other<D: Disk>(disk: &mut D, header: &Header) -> Result<(), DeviceFault>
    requires area { header.now.area ≤ 1 }
    requires inside { D.honest disk.old → 8192 ≤ length (D.now disk.old).bytes }
    ensures leaves { D.honest disk.new → (count : ℕ) (x : Paged) (m : Contents) (j : JournalState)
        → LeavesMeaning D.Disk disk.old disk.new (seen header.now) (PagesDone count) x m j }
    ensures kept { OnOk result (D.honest disk.new → (count : ℕ) (x : Paged) (m : Contents) (j : JournalState)
        → ClosesOther D.Disk disk.old disk.new (seen header.now) count x m j) }
    ensures runs { Obeys D.Disk disk.old disk.new result (CallsAtMost D.past disk.old disk.new 3) }
{
    let at = PAGE * (1 - header.area as usize);
    let mut gate = [0; 1];
    disk.read(at, &mut gate)?; // A stop leaves what was there: nothing is written.
    if gate[0] == OPEN {
        disk.write_at(at, &[CLOSED])?; // Of a lower generation: it isn't in force, whatever a stop leaves of its gate.
        return disk.sync(); // The same.
    }
    // A closed gate isn't written. A stop within the write could open it over what an earlier stop left of a header.
    disk.sync() // Nobody reads what was written since the last sync.
}

/// Writes the next header behind its closed gate and then opens the gate.
pub(crate) fn open_next<D: Disk>(disk: &mut D, next: &Header) -> Result<(), DeviceFault>
    requires area { next.now.area ≤ 1 }
    requires closed { D.honest disk.old → IsClosed (4096 * next.now.area) 64 (D.now disk.old) }
    ensures leaves { D.honest disk.new
        → (h : Seen) (count : ℕ) (x : Paged) (m : Contents) (j : JournalState)
        → seen next.now ≡ next_header h count
        → LeavesMeaning D.Disk disk.old disk.new h (Synced count) x m j }
    ensures kept { OnOk result (D.honest disk.new
        → (h : Seen) (count : ℕ) (x : Paged) (m : Contents) (j : JournalState)
        → seen next.now ≡ next_header h count → TakesOver D.Disk disk.old disk.new h count x m j) }
    ensures runs { Obeys D.Disk disk.old disk.new result (CallsAtMost D.past disk.old disk.new 4) }
{
    let bytes = next.spell();
    // The pages are on the disk, and the gate is closed there. A stop leaves the old header in force, or the new one,
    // which means the same. After this call the new header is in force for good.
    write_behind_gate(disk, PAGE * next.area as usize, &bytes)
}
