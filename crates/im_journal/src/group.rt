// Writes the bodies of a group of commands.
ghost use Rattle.std.specs.Prelude.{◌≡◌, ◌+◌, ◌*◌, ◌≤◌, length, OnOk};
ghost use Rattle.im_disk.specs.Runs.{Runs};
ghost use Rattle.im_journal.specs.Groups.{AreLaid, AreWritten, count_at, FitsRing, MayWriteBodies};
ghost use Rattle.im_journal.specs.{Holding.ring_at, OnDisk.LeadsFrom};

use crate::slot::spell_in;
use im_disk::{DeviceFault, Disk};
use im_types::{Command, LAST, MAX_GROUP};

// The group count of the slot after `k` others.
fn count_at(group: u8, k: usize) -> u8
    ensures { result ≡ count_at group k }
{
    if k == 0 { group } else { 0 }
}

/// Writes commands behind the gates of the slots, from the slot of sequence number `from` on, with one call for each.
/// The group count of the first slot counts them all; that of each other slot is 0. The gates stay.
pub(crate) fn write_bodies<D: Disk>(
    disk: &mut D,
    base: usize,
    slots: u32,
    from: u64,
    commands: &[Command],
) -> Result<(), DeviceFault>
    requires fits { FitsRing base slots from (length commands.now) }
    requires inside { D.honest disk.old → base + 64 * slots ≤ length (D.now disk.old).bytes }
    ensures runs { Runs D.Disk disk.old disk.new result (length commands.now)
        (MayWriteBodies (ring_at base slots) from (length commands.now) (D.now disk.old)) }
    ensures written { OnOk result (LeadsFrom D.Disk disk.old disk.new
        (AreWritten (ring_at base slots) from commands.now)) }
{
    let group = commands.len() as u8;
    let mut slot = [0; 64];
    for i in 0..commands.len() {
        spell_in(&mut slot, count_at(group, i), &commands[i], from + i as u64);
        let at = base + 64 * (((from + i as u64) % slots as u64) as usize);
        disk.write_at(at + 1, &slot[1..])?; // A stop may leave any bytes there: the group's gate is closed.
    }
    Ok(())
}

/// Writes commands as [`write_bodies`] does, and syncs.
pub(crate) fn lay_bodies<D: Disk>(
    disk: &mut D,
    base: usize,
    slots: u32,
    from: u64,
    commands: &[Command],
) -> Result<(), DeviceFault>
    requires fits { FitsRing base slots from (length commands.now) }
    requires inside { D.honest disk.old → base + 64 * slots ≤ length (D.now disk.old).bytes }
    ensures runs { Runs D.Disk disk.old disk.new result (length commands.now + 1)
        (MayWriteBodies (ring_at base slots) from (length commands.now) (D.now disk.old)) }
    ensures laid { OnOk result (LeadsFrom D.Disk disk.old disk.new (AreLaid (ring_at base slots) from commands.now)) }
{
    write_bodies(disk, base, slots, from, commands)?;
    disk.sync()?; // A stop leaves what it could leave before: any bytes behind those gates.
    Ok(())
}
