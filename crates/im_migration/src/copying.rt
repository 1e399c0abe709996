//! Copies an image to a new file, in other sizes if they are asked for.
ghost use Rattle.std.specs.Prelude.{◌≡◌, IfOk, IfErr, MatchResult};
ghost use Rattle.im_types.specs.Types.{NoMemory, BadLimits, layout_in_use, sizes_of};
ghost use Rattle.im_disk.specs.Runs.{ReadsAlone, ReadsOrRefuses};
ghost use Rattle.im_migration.specs.Copying.{CopyFails, IsLengthFor, IsWhole, LeavesBlankOrCopy, LeavesCopy};
ghost use Rattle.im_migration.specs.Copying.{MayBeSource, MayRefuseCopy, MayRefuseSource, SourceFails};
ghost use Rattle.im_migration.specs.Migration.{FaultsOfTwo, HasCountIn, UnwrittenOrDevice};
ghost use Rattle.im_migration.specs.Resizing.{FitsSizes, HasNoCopy, IsResized, sizes_asked};

use crate::asked::Asked;
use crate::news::MoveNews;
use crate::preparing::{limits_asked, resized_to};
use crate::putting::put_image;
use crate::resized::Resized;
use im_disk::Disk;
use im_image::{ImageParts, Versions, read_image};
use im_types::layout::image_length;
use im_types::{Limits, Observer, Refusal};
use std::alloc::Global;

// The limits of a copy of an image. The only refusal is `BadLimits`, and the observer is told why.
fn limits_for<V: Observer<MoveNews>>(
    image: &ImageParts,
    asked: Asked,
    observer: &mut V,
) -> Result<Limits, Refusal>
    ensures sizes { IfOk result (λ l. sizes_of l ≡ sizes_asked asked (sizes_of image.now.header.limits)) }
    ensures fits { IfOk result (λ l. FitsSizes (sizes_of l) image.now.memory.contents) }
    ensures none { IfErr result (λ e. (e ≡ BadLimits)
        × HasNoCopy (sizes_asked asked (sizes_of image.now.header.limits)) image.now.memory.contents) }
{
    limits_asked(&image.memory, image.header.limits, asked, observer)
}

// The memory of an image in these sizes, with the header of its copy. The only refusal is `NoMemory`.
fn resize_image(alloc: Global, image: &ImageParts, limits: Limits) -> Result<Resized, Refusal>
    requires { FitsSizes (sizes_of limits) image.now.memory.contents }
    ensures whole { IfOk result (λ r. IsWhole r) }
    ensures sizes { IfOk result (λ r. r.header.limits ≡ limits) }
    ensures count { IfOk result (λ r. r.header.count ≡ image.now.journal.count) }
    ensures memory { IfOk result (λ r. IsResized (sizes_of limits) image.now.memory.contents r.memory.contents) }
    ensures only { IfErr result (λ e. e ≡ NoMemory) }
{
    resized_to(alloc, &image.memory, image.journal.count(), limits)
}

// Reads the memory of an image, and gives it the sizes that are asked for.
fn read_source<O: Disk, V: Observer<MoveNews>>(
    alloc: Global,
    old: &mut O,
    asked: Asked,
    observer: &mut V,
) -> Result<Resized, Refusal>
    ensures whole { IfOk result (λ r. IsWhole r) }
    ensures found { IfOk result (λ r. MayBeSource asked (O.honest old.new) (O.now old.old).bytes r) }
    ensures none { IfErr result (λ e. SourceFails asked (O.honest old.new) (O.now old.old).bytes e) }
    ensures reads { ReadsOrRefuses O.Disk old.old old.new result MayRefuseSource }
{
    match read_image(alloc, old, Versions::InUse) {
        Ok(image) => match limits_for(&image, asked, observer) {
            Ok(limits) => resize_image(alloc, &image, limits),
            Err(refusal) => Err(refusal),
        },
        Err(refusal) => Err(refusal),
    }
}

/// Copies an image to a new file, with the sizes that are asked for. The new file becomes an image at generation 1,
/// with all commands counted in area 0, and an empty journal. The old file is only read: the commands in its journal
/// are counted in the copy. Returns the new file and the count. The observer gets the progress.
///
/// The copy means the same memory. Each address has the same cell, each element the same window, and the same requests
/// wait in the same order. An address past the last old cell is free, and an element past the last old one has sent
/// nothing.
///
/// A crash since the start may leave a file that could be left before, one with both headers closed, or the whole copy.
/// So a stopped copy can be made again. Each refusal gives the new file back.
///
/// - `WrongLength`, `NoHeader`, `BadHeader`, `OldVersion`, `BadPage`, `BadRecord`: why the old file isn't opened.
///   Nothing was written.
/// - `BadLimits` if a size is out of its range, if a block lies past the last cell, or if an element past the last one
///   has sent requests. The observer is told which. Nothing was written.
/// - `WrongLength` also if the new file doesn't have the length of the copy. Nothing was written.
/// - `NotBlank` if a header of the new file is open after a sync. Nothing was written.
/// - `NoMemory` if `alloc` refused the room for two memories, or for what is read. Nothing was written.
/// - `Device` if a call of either disk failed. The new file may be partly written, and its headers are as above.
pub fn copy<O: Disk, N: Disk, V: Observer<MoveNews>>(
    alloc: Global,
    old: &mut O,
    mut new: N,
    asked: Asked,
    observer: &mut V,
) -> Result<(N, u64), (Refusal, N)>
    // What a stop leaves of the new file, and what is there at the end.
    ensures leaves { MatchResult result
        (λ r. LeavesBlankOrCopy N.Disk new r.0 asked (O.honest old.new) (O.now old.old).bytes)
        (λ e. LeavesBlankOrCopy N.Disk new e.1 asked (O.honest old.new) (O.now old.old).bytes) }
    ensures copied { IfOk result (λ r. LeavesCopy N.Disk r.0 asked (O.honest old.new) (O.now old.old).bytes) }
    ensures count { IfOk result (λ r. O.honest old.new → HasCountIn layout_in_use (O.now old.old).bytes r.1) }
    ensures refused { IfErr result
        (λ e. CopyFails asked (O.honest old.new) (N.honest e.1) (O.now old.old).bytes (N.now new).bytes e.0) }
    ensures unwritten { IfErr result (λ e. UnwrittenOrDevice N.Disk new e.1 e.0) }
    ensures faults { FaultsOfTwo N.failures MayRefuseCopy result (O.failures old.old) (O.failures old.new) new }
    // The old file is only read.
    ensures reads { ReadsAlone O.Disk old.old old.new }
{
    match read_source(alloc, old, asked, observer) {
        Ok(source) => match put_image(&mut new, &source.header, &source.memory, observer) {
            Ok(()) => Ok((new, source.header.count)),
            Err(refusal) => Err((refusal, new)),
        },
        Err(refusal) => Err((refusal, new)),
    }
}

/// Returns the length that a new file needs for a copy of an image. It reads the whole image, and refuses it and the
/// sizes as [`copy`] does. The observer is told what doesn't fit.
pub fn length_for_copy<O: Disk, V: Observer<MoveNews>>(
    alloc: Global,
    old: &mut O,
    asked: Asked,
    observer: &mut V,
) -> Result<usize, Refusal>
    ensures length { IfOk result (λ n. IsLengthFor asked (O.honest old.new) (O.now old.old).bytes n) }
    ensures none { IfErr result (λ e. SourceFails asked (O.honest old.new) (O.now old.old).bytes e) }
    ensures reads { ReadsOrRefuses O.Disk old.old old.new result MayRefuseSource }
{
    let image = match read_image(alloc, old, Versions::InUse) {
        Ok(image) => image,
        Err(refusal) => return Err(refusal),
    };
    match limits_for(&image, asked, observer) {
        Ok(limits) => Ok(image_length(limits)),
        Err(refusal) => Err(refusal),
    }
}
