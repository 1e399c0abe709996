//! Finds why an image was refused and where it is damaged. It only reads.
ghost use Rattle.im_text.specs.Diagnosis.{OnlyLooks};

use crate::reasons::Reason;
use im_damage::find_damage;
use im_disk::Disk;
use im_types::Refusal;
use std::alloc::Global;

/// Returns the reason why an image is refused. It reads the image again to find the place of the damage. If that fails,
/// or there is no memory for it, the reason has the refusal alone.
pub fn diagnose<D: Disk>(alloc: Global, disk: &mut D, refusal: Refusal) -> Reason
    ensures reads { OnlyLooks D.Disk disk.old disk.new }
    ensures honest { D.honest disk.new → D.honest disk.old }
{
    Reason::Image(refusal, find_damage(alloc, disk, refusal))
}
