//! Checks whether a file can become a new image: it has the length, and no header in it is open.
ghost use Rattle.std.specs.Prelude.{◌≡◌, ◌≤◌, true, false, ◌⊎◌, length, IfOk, IfErr, OnOk};
ghost use Rattle.im_types.specs.Types.{Device, WrongLength, NotBlank, sizes_of};
ghost use Rattle.im_disk.specs.{Moment.synced, Runs.Obeys, Runs.ObeysOrRefuses};
ghost use Rattle.im_migration.specs.Migration.{IsBlank, IsNoPlace, IsPlace, LeavesAsAtStart};

use im_disk::{DeviceFault, Disk};
use im_types::layout::{OPEN, PAGE, image_length};
use im_types::{Limits, Refusal};

// Returns whether the gates of both headers read closed after a sync.
fn is_blank<N: Disk>(new: &mut N) -> Result<bool, DeviceFault>
    requires { N.honest new.old → 4097 ≤ length (N.now new.old).bytes }
    ensures yes { IfOk result (λ b. N.honest new.new → b ≡ true → IsBlank (N.now new.old).bytes) }
    ensures no { IfOk result (λ b. N.honest new.new → b ≡ false → IsBlank (N.now new.old).bytes → ⊥) }
    ensures calm { OnOk result (N.honest new.new → N.now new.new ≡ synced (N.now new.old)) }
    ensures runs { Obeys N.Disk new.old new.new result (LeavesAsAtStart N.Disk new.old new.new) }
{
    // After a write without a sync, a crash may leave a gate open that reads closed. The sync makes sure. A stop in it,
    // or in the reads behind it, leaves what a stop before it leaves.
    new.sync()?;
    let mut zero = [OPEN; 1];
    let mut one = [OPEN; 1];
    new.read(0, &mut zero)?;
    new.read(PAGE, &mut one)?;
    Ok(zero[0] != OPEN && one[0] != OPEN)
}

/// Checks that a file can become a new image with these limits. Returns `WrongLength` if it doesn't have the length of
/// one, and `NotBlank` if a header in it is open after a sync. It writes nothing.
pub(crate) fn find_place<N: Disk>(new: &mut N, limits: Limits) -> Result<(), Refusal>
    ensures place { OnOk result (N.honest new.new → IsPlace (sizes_of limits) (N.now new.old).bytes) }
    ensures calm { OnOk result (N.honest new.new → N.now new.new ≡ synced (N.now new.old)) }
    ensures none { IfErr result (λ e. (e ≡ Device)
        ⊎ (N.honest new.new → IsNoPlace e (sizes_of limits) (N.now new.old).bytes)) }
    ensures same { IfErr result (λ e. (e ≡ Device) ⊎ (N.honest new.new
        → (N.now new.new).bytes ≡ (N.now new.old).bytes)) }
    ensures runs { ObeysOrRefuses N.Disk new.old new.new result
        (λ e. (e ≡ WrongLength) ⊎ (e ≡ NotBlank) ⊎ (e ≡ Device))
        (LeavesAsAtStart N.Disk new.old new.new) }
{
    let Ok(length) = new.len() else {
        return Err(Refusal::Device);
    };
    if length != image_length(limits) {
        return Err(Refusal::WrongLength);
    }
    match is_blank(new) {
        Ok(true) => Ok(()),
        Ok(false) => Err(Refusal::NotBlank),
        Err(_) => Err(Refusal::Device),
    }
}
