//! Puts a memory into a new file that can become its image.
ghost use Rattle.std.specs.Prelude.{◌≡◌, ◌≤◌, ◌⊎◌, IfErr, OnOk};
ghost use Rattle.im_types.specs.Types.{Device, LAST, sizes_of};
ghost use Rattle.im_disk.specs.{Runs.ObeysOrRefuses, Since.LeavesNow};
ghost use Rattle.im_image.specs.{Headers.seen, Reading.HasSizes};
ghost use Rattle.im_migration.specs.Migration.{IsLaidDown, IsNoPlace, IsPlace, LeavesBlankOrLaidSince, MayRefusePlace};
ghost use Rattle.im_migration.specs.Migration.{moved_header, UnwrittenOrDevice};

use crate::laying::lay_down;
use crate::news::MoveNews;
use crate::place::find_place;
use im_disk::Disk;
use im_image::Header;
use im_memory::Memory;
use im_types::{Observer, Refusal};

/// Puts a memory into a new file, as an image with this header. Returns `WrongLength` or `NotBlank`, with nothing
/// written, if the file can't become the image, and `Device` if a call of the disk failed.
pub(crate) fn put_image<N: Disk, O: Observer<MoveNews>>(
    new: &mut N,
    header: &Header,
    memory: &Memory,
    observer: &mut O,
) -> Result<(), Refusal>
    requires sizes { HasSizes (sizes_of header.now.limits) memory.now.contents }
    requires header { seen header.now ≡ moved_header (sizes_of header.now.limits) header.now.count }
    requires last { header.now.count ≤ LAST }
    ensures laid { OnOk result (N.honest new.new
        → LeavesNow (N.now new.new) (IsLaidDown (seen header.now) memory.now.contents)) }
    ensures place { OnOk result (N.honest new.new → IsPlace (sizes_of header.now.limits) (N.now new.old).bytes) }
    ensures none { IfErr result (λ e. (e ≡ Device)
        ⊎ (N.honest new.new → IsNoPlace e (sizes_of header.now.limits) (N.now new.old).bytes)) }
    ensures unwritten { IfErr result (λ e. UnwrittenOrDevice N.Disk new.old new.new e) }
    ensures runs { ObeysOrRefuses N.Disk new.old new.new result MayRefusePlace
        (LeavesBlankOrLaidSince N.Disk new.old new.new (seen header.now) memory.now.contents) }
{
    find_place(new, header.limits)?;
    match lay_down(new, header, memory, observer) {
        Ok(()) => Ok(()),
        Err(_) => Err(Refusal::Device),
    }
}
