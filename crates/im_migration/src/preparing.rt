//! Prepares a memory for a new image, in other sizes if they are asked for.
ghost use Rattle.std.specs.Prelude.{◌≡◌, ◌<◌, ◌≤◌, ◌⊎◌, IfOk, IfErr};
ghost use Rattle.im_types.specs.Types.{Device, NoMemory, BadLimits, LAST, sizes_of};
ghost use Rattle.{im_disk.specs.Since.LeavesNow, im_image.specs.Headers.seen, im_image.specs.Reading.HasSizes};
ghost use Rattle.im_migration.specs.Copying.{IsWhole};
ghost use Rattle.im_migration.specs.Migration.{GivesBackBlankOrLaid, IsLaidDown, IsNoPlace, LeavesLaid, MayRefusePlace};
ghost use Rattle.im_migration.specs.Migration.{moved_header, PlaceFails, UnwrittenOrDevice};
ghost use Rattle.im_migration.specs.Resizing.{FitsSizes, HasNoCopy, IsResized, sizes_asked};

use crate::asked::Asked;
use crate::misfits::Misfit;
use crate::moving::header_for;
use crate::news::MoveNews;
use crate::putting::put_image;
use crate::resized::Resized;
use crate::resizing::{misfit_of, resize};
use im_disk::Disk;
use im_memory::Memory;
use im_types::{LAST, Limits, Observer, Refusal};
use std::alloc::Global;

/// Returns the limits that a memory of an image with the limits `old` gets. The only refusal is `BadLimits`, and the
/// observer is told why.
pub(crate) fn limits_asked<O: Observer<MoveNews>>(
    memory: &Memory,
    old: Limits,
    asked: Asked,
    observer: &mut O,
) -> Result<Limits, Refusal>
    ensures sizes { IfOk result (λ l. sizes_of l ≡ sizes_asked asked (sizes_of old)) }
    ensures fits { IfOk result (λ l. FitsSizes (sizes_of l) memory.now.contents) }
    ensures none { IfErr result (λ e. (e ≡ BadLimits)
        × HasNoCopy (sizes_asked asked (sizes_of old)) memory.now.contents) }
{
    let Some(limits) = asked.limits(old) else {
        observer.tell(MoveNews::Misfits(Misfit::Range(asked)));
        return Err(Refusal::BadLimits);
    };
    match misfit_of(memory, limits) {
        None => Ok(limits),
        Some(misfit) => {
            observer.tell(MoveNews::Misfits(misfit));
            Err(Refusal::BadLimits)
        }
    }
}

/// Returns the memory in these sizes, with the header of a new image. The only refusal is `NoMemory`.
pub(crate) fn resized_to(
    alloc: Global,
    memory: &Memory,
    count: u64,
    limits: Limits,
) -> Result<Resized, Refusal>
    requires fits { FitsSizes (sizes_of limits) memory.now.contents }
    requires last { count ≤ LAST }
    ensures whole { IfOk result (λ r. IsWhole r) }
    ensures sizes { IfOk result (λ r. r.header.limits ≡ limits) }
    ensures count { IfOk result (λ r. r.header.count ≡ count) }
    ensures memory { IfOk result (λ r. IsResized (sizes_of limits) memory.now.contents r.memory.contents) }
    ensures only { IfErr result (λ e. e ≡ NoMemory) }
{
    let header = header_for(limits, count);
    match resize(alloc, memory, limits) {
        Ok(memory) => Ok(Resized { header, memory }),
        Err(refusal) => Err(refusal),
    }
}

/// What a new image is made of: a memory, the limits of the image that it was in, and its count of commands.
#[derive(Clone, Copy)]
pub struct Original<'a> {
    /// The memory.
    pub memory: &'a Memory,
    /// The limits.
    pub limits: Limits,
    /// The count. The most is [`LAST`].
    pub count: u64,
}

/// Prepares a memory for a new image of the sizes that are asked for. An address past the last cell is free, and an
/// element past the last one has sent nothing.
///
/// Returns `BadLimits` if a size is out of its range, if a block lies past the last cell, if an element past the last
/// one has sent requests, or if the count is past the last one. The observer is told which of the sizes. Returns
/// `NoMemory` if `alloc` refused the room for a second memory.
pub fn prepare<O: Observer<MoveNews>>(
    alloc: Global,
    original: &Original,
    asked: Asked,
    observer: &mut O,
) -> Result<Resized, Refusal>
    ensures whole { IfOk result (λ r. IsWhole r) }
    ensures sizes { IfOk result (λ r.
        sizes_of r.header.limits ≡ sizes_asked asked (sizes_of original.now.limits)) }
    ensures count { IfOk result (λ r. r.header.count ≡ original.now.count) }
    ensures memory { IfOk result (λ r.
        IsResized (sizes_of r.header.limits) original.now.memory.now.contents r.memory.contents) }
    ensures none { IfErr result (λ e. (e ≡ NoMemory) ⊎ ((e ≡ BadLimits) × ((LAST < original.now.count)
        ⊎ HasNoCopy (sizes_asked asked (sizes_of original.now.limits)) original.now.memory.now.contents))) }
{
    if original.count > LAST {
        return Err(Refusal::BadLimits);
    }
    match limits_asked(original.memory, original.limits, asked, observer) {
        Ok(limits) => resized_to(alloc, original.memory, original.count, limits),
        Err(refusal) => Err(refusal),
    }
}

/// Makes a new file the image of what was prepared. Each refusal gives the file back.
///
/// A crash since the start may leave a file that could be left before, one with both headers closed, or the whole
/// image. So what was stopped can be done again.
///
/// - `WrongLength` if the file doesn't have the length of the image. Nothing was written.
/// - `NotBlank` if a header of the file is open after a sync. Nothing was written.
/// - `Device` if a call of the disk failed. The file may be partly written, and its headers are as above.
pub fn put_new<N: Disk, O: Observer<MoveNews>>(
    mut new: N,
    source: &Resized,
    observer: &mut O,
) -> Result<N, (Refusal, N)>
    requires { IsWhole source.now }
    ensures leaves { GivesBackBlankOrLaid N.Disk new result
        (seen source.now.header) source.now.memory.contents }
    ensures laid { IfOk result (λ to. N.honest to
        → LeavesNow (N.now to) (IsLaidDown (seen source.now.header) source.now.memory.contents)) }
    ensures refused { IfErr result (λ e. (e.0 ≡ Device) ⊎ (N.honest e.1
        → IsNoPlace e.0 (sizes_of source.now.header.limits) (N.now new).bytes)) }
    ensures unwritten { IfErr result (λ e. UnwrittenOrDevice N.Disk new e.1 e.0) }
    ensures only { IfErr result (λ e. MayRefusePlace e.0) }
{
    match put_image(&mut new, &source.header, &source.memory, observer) {
        Ok(()) => Ok(new),
        Err(refusal) => Err((refusal, new)),
    }
}

/// Makes a new file an image of this memory, with its limits and its count, at generation 1 and with an empty journal.
/// Each refusal gives the file back. What a crash leaves, and the refusals, are those of [`put_new`].
pub fn put_memory<N: Disk, O: Observer<MoveNews>>(
    mut new: N,
    original: &Original,
    observer: &mut O,
) -> Result<N, (Refusal, N)>
    requires sizes { HasSizes (sizes_of original.now.limits) original.now.memory.now.contents }
    requires last { original.now.count ≤ LAST }
    ensures leaves { GivesBackBlankOrLaid N.Disk new result
        (moved_header (sizes_of original.now.limits) original.now.count) original.now.memory.now.contents }
    ensures laid { let h = moved_header (sizes_of original.now.limits) original.now.count in IfOk result
        (λ to. LeavesLaid N.Disk to h original.now.memory.now.contents) }
    ensures refused { IfErr result (λ e. PlaceFails N.Disk new e.1 e.0 (sizes_of original.now.limits)) }
    ensures unwritten { IfErr result (λ e. UnwrittenOrDevice N.Disk new e.1 e.0) }
    ensures only { IfErr result (λ e. MayRefusePlace e.0) }
{
    let header = header_for(original.limits, original.count);
    match put_image(&mut new, &header, original.memory, observer) {
        Ok(()) => Ok(new),
        Err(fault) => Err((fault, new)),
    }
}
