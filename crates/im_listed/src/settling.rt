//! How the bytes of a file are opened: by one sync, which is all that the caller has to do.
ghost use Rattle.std.specs.Prelude.{◌≡◌, true, false, [], ◌∷◌, map, IfOk};
ghost use Rattle.im_disk.specs.Moment.{synced};
ghost use Rattle.im_listed.specs.{History.given, Listing.Settles, Listing.task_of};

use crate::listed::Listed;
use crate::step::Step;
use im_disk::{DeviceFault, Disk};

// A disk over these bytes. After its one step, all of them are on the caller's disk.
pub(crate) fn settled(bytes: Vec<u8>) -> Result<Listed, DeviceFault>
    ensures now { IfOk result (λ d. d.now ≡ synced (given bytes.items)) }
    ensures begun { IfOk result (λ d. (d.failed ≡ false) × (d.begun ≡ given bytes.items)) }
{
    let mut disk = Listed::new(bytes);
    disk.sync()?;
    Ok(disk)
}

// Returns whether the steps are one sync, which changes no byte of the caller's file.
pub(crate) fn is_one_sync(steps: &[Step]) -> bool
    ensures { result ≡ true → map task_of steps.now ≡ Settles ∷ [] }
{
    matches!(steps, [Step::Sync])
}
