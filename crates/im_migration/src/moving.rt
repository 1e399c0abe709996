//! The migration of an image.
ghost use Rattle.std.specs.Prelude.{◌≡◌, ◌⊎◌, IfOk, IfErr, MatchResult, Err};
ghost use Rattle.im_types.specs.Types.{Device, NoMemory, layout_1, layout_in_use, sizes_of, header_of, Reads};
ghost use Rattle.im_disk.specs.{Runs.ReadsAlone, Runs.ReadsOrRefuses, Since.LeavesNow};
ghost use Rattle.im_image.specs.Headers.{MayRefuseImage, seen};
ghost use Rattle.im_migration.specs.Migration.{FaultsOfTwo, HasCount, HasPlaceOrReason, LeavesBlankOrSame};
ghost use Rattle.im_migration.specs.Migration.{MayRefuseMigration, MeansSame, moved_header, UnwrittenOrDevice};
ghost use Rattle.im_types.specs.Layout as layout;

use crate::news::MoveNews;
use crate::putting::put_image;
use im_disk::Disk;
use im_image::{Header, VERSION, Versions, read_image};
use im_types::layout::image_length;
use im_types::{Limits, Observer, Refusal};
use std::alloc::Global;

/// Returns the header of a new image with this count of commands in its first area.
pub(crate) fn header_for(limits: Limits, count: u64) -> Header
    ensures seen { seen result ≡ moved_header (sizes_of limits) count }
    ensures limits { result.limits ≡ limits }
{
    Header {
        version: VERSION,
        area: 0,
        generation: 1,
        count,
        limits,
    }
}

/// Migrates an image of the first version. It puts the memory that the image means, after its journal's run, into the
/// new file. The new file becomes an image of the layout in use, at generation 1, with all commands counted in area 0.
/// The old file is only read. Returns the new file and the count. The observer gets the progress.
///
/// A crash since the start may leave a file that could be left before, one with both headers closed, or one that means
/// what the old file means. So a stopped migration can be run again. Each refusal gives the new file back.
///
/// - `WrongLength`, `NoHeader`, `BadHeader`, `BadPage`, `BadRecord`: the first fault of the old file by the rules of
///   the first version. An image of the layout in use is `BadHeader`. Nothing was written.
/// - `WrongLength` also if the new file doesn't have the length of an image with the old one's limits. Nothing was
///   written.
/// - `NotBlank` if a header of the new file is open after a sync. Nothing was written.
/// - `NoMemory` if `alloc` refused the room for the memory, or for what is read. Nothing was written.
/// - `Device` if a call of either disk failed. The new file may be partly written, and its headers are as above.
pub fn migrate<O: Disk, N: Disk, V: Observer<MoveNews>>(
    alloc: Global,
    old: &mut O,
    mut new: N,
    observer: &mut V,
) -> Result<(N, u64), (Refusal, N)>
    // What a stop leaves of the new file, and what is there at the end.
    ensures leaves { MatchResult result
        (λ r. LeavesBlankOrSame N.Disk new r.0 (O.honest old.new) (O.now old.old).bytes)
        (λ e. LeavesBlankOrSame N.Disk new e.1 (O.honest old.new) (O.now old.old).bytes) }
    ensures moved { IfOk result (λ r. O.honest old.new → N.honest r.0
        → LeavesNow (N.now r.0) (MeansSame (O.now old.old).bytes)) }
    ensures count { IfOk result (λ r. O.honest old.new → HasCount (O.now old.old).bytes r.1) }
    // The new file had the length, and no header in it was open; or why it isn't the image.
    ensures place { HasPlaceOrReason N.Disk new result (O.honest old.new) (O.now old.old).bytes }
    ensures unwritten { IfErr result (λ e. UnwrittenOrDevice N.Disk new e.1 e.0) }
    ensures faults { FaultsOfTwo N.failures MayRefuseMigration result (O.failures old.old) (O.failures old.new) new }
    // The old file is only read.
    ensures reads { ReadsAlone O.Disk old.old old.new }
    ensures honest { MatchResult result (λ r. N.honest r.0 → N.honest new) (λ e. N.honest e.1 → N.honest new) }
{
    match read_image(alloc, old, Versions::First) {
        Ok(image) => {
            let count = image.journal.count();
            let header = header_for(image.header.limits, count);
            match put_image(&mut new, &header, &image.memory, observer) {
                Ok(()) => Ok((new, count)),
                Err(refusal) => Err((refusal, new)),
            }
        }
        Err(refusal) => Err((refusal, new)),
    }
}

/// Returns the length that a new file needs for the memory of an image of the first version. It reads the whole image,
/// and refuses it as [`migrate`] does.
pub fn length_for<O: Disk>(alloc: Global, old: &mut O) -> Result<usize, Refusal>
    ensures length { IfOk result (λ n. O.honest old.new
        → n ≡ layout.image_length layout_in_use (header_of (O.now old.old).bytes).sizes) }
    ensures fault { IfErr result (λ e. (e ≡ NoMemory) ⊎ (e ≡ Device)
        ⊎ (O.honest old.new → Reads layout_1 (O.now old.old).bytes (Err e))) }
    ensures reads { ReadsOrRefuses O.Disk old.old old.new result MayRefuseImage }
{
    match read_image(alloc, old, Versions::First) {
        Ok(image) => Ok(image_length(image.header.limits)),
        Err(refusal) => Err(refusal),
    }
}
