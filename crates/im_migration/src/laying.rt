//! Lays a memory down as a new image: first what stands behind the closed gate of its header, and then the gate.
ghost use Rattle.std.specs.Prelude.{◌≡◌, ℕ, ◌+◌, ◌*◌, ◌<◌, ◌≤◌, ◌⊎◌, length, OnOk};
ghost use Rattle.im_types.specs.Types.{LAST, layout_in_use, sizes_of, header_body};
ghost use Rattle.im_disk.specs.{Moment.overlaid, Runs.Obeys, Since.LeavesNow};
ghost use Rattle.im_image.specs.{Headers.seen, Reading.HasSizes};
ghost use Rattle.im_migration.specs.Laying.{AreCleared, ClosesSlots, IsBeside, IsCleared, IsLaid, StaysBlank};
ghost use Rattle.im_migration.specs.Migration.{IsBlank, IsLaidDown, LeavesOnlyBlankOrLaid, moved_header};
ghost use Rattle.im_types.specs.Layout as layout;

use crate::news::MoveNews;
use im_disk::{DeviceFault, Disk, open_gate};
use im_image::{Header, encode_page};
use im_memory::Memory;
use im_types::layout::{CLOSED, PAGE, SLOT, area_at, area_pages, image_length, journal_at};
use im_types::{Limits, Observer};

// Writes a range that has no gate of a header.
fn write_beside<N: Disk>(new: &mut N, at: usize, bytes: &[u8]) -> Result<(), DeviceFault>
    requires beside { IsBeside at (length bytes.now) }
    requires inside { N.honest new.old → at + length bytes.now ≤ length (N.now new.old).bytes }
    ensures written { OnOk result (N.honest new.new
        → (N.now new.new).bytes ≡ overlaid (N.now new.old).bytes at bytes.now) }
    ensures runs { Obeys N.Disk new.old new.new result (StaysBlank N.Disk new.old new.new) }
{
    new.write_at(at, bytes) // Where both gates were closed a stop leaves them so: they aren't in the range.
}

// Reports the number of pages and slots written.
fn tell<O: Observer<MoveNews>>(observer: &mut O, limits: Limits, pages: usize, slots: usize) {
    let all = (area_pages(limits) as u64).saturating_add(limits.slots as u64);
    let written = (pages as u64).saturating_add(slots as u64);
    observer.tell(MoveNews::Writes { written, all });
}

// The first byte and the end of a page, without the gate of a header, in a file of this length.
fn piece(page: usize, whole: usize) -> (usize, usize)
    requires inside { 4096 * page < whole }
    requires long { 8192 ≤ whole }
    ensures order { (result.0 ≤ result.1) × (result.1 ≤ result.0 + 4096) × (result.1 ≤ whole) }
    ensures beside { ((1 ≤ result.0) × (result.1 ≤ 4096)) ⊎ (4097 ≤ result.0) }
    ensures from { (result.0 ≤ 4096 * page + 1) × (2 ≤ page → result.0 ≡ 4096 * page) }
    ensures all { (result.1 ≡ 4096 * (page + 1)) ⊎ (result.1 ≡ whole) }
{
    let at = PAGE * page;
    let from = if page < 2 { at + 1 } else { at };
    let end = if whole - at < PAGE { whole } else { at + PAGE };
    (from, end)
}

// Writes zeros over a page of the file, except for the gate of a header.
fn clear_page<N: Disk>(new: &mut N, page: usize, whole: usize) -> Result<(), DeviceFault>
    requires inside { 4096 * page < whole }
    requires long { 8192 ≤ whole }
    requires size { N.honest new.old → length (N.now new.old).bytes ≡ whole }
    ensures cleared { OnOk result (N.honest new.new → AreCleared page whole (N.now new.old).bytes
        → AreCleared (page + 1) whole (N.now new.new).bytes) }
    ensures size { OnOk result (N.honest new.new → length (N.now new.new).bytes ≡ whole) }
    ensures runs { Obeys N.Disk new.old new.new result (StaysBlank N.Disk new.old new.new) }
{
    let (from, end) = piece(page, whole);
    let zeros = [0; PAGE];
    write_beside(new, from, &zeros[..end - from])
}

// Writes zeros over the whole file, except for the gates of the two headers. After that, each byte of the file already
// has its place on the disk.
fn clear<N: Disk>(new: &mut N, limits: Limits) -> Result<(), DeviceFault>
    requires size { N.honest new.old
        → length (N.now new.old).bytes ≡ layout.image_length layout_in_use (sizes_of limits) }
    ensures cleared { OnOk result (N.honest new.new
        → IsCleared (layout.image_length layout_in_use (sizes_of limits)) (N.now new.new).bytes) }
    ensures size { OnOk result (N.honest new.new
        → length (N.now new.new).bytes ≡ layout.image_length layout_in_use (sizes_of limits)) }
    ensures runs { Obeys N.Disk new.old new.new result (StaysBlank N.Disk new.old new.new) }
{
    let whole = image_length(limits);
    let mut page = 0;
    while page * PAGE < whole {
        clear_page(new, page, whole)?; // No header is open, whatever a stop leaves of the page.
        page += 1;
    }
    Ok(())
}

// Writes the pages of a memory into the first area.
fn write_pages<N: Disk, O: Observer<MoveNews>>(
    new: &mut N,
    memory: &Memory,
    limits: Limits,
    observer: &mut O,
) -> Result<(), DeviceFault>
    requires sizes { HasSizes (sizes_of limits) memory.now.contents }
    requires size { N.honest new.old
        → length (N.now new.old).bytes ≡ layout.image_length layout_in_use (sizes_of limits) }
    requires cleared { N.honest new.old
        → IsCleared (layout.image_length layout_in_use (sizes_of limits)) (N.now new.old).bytes }
    ensures laid { OnOk result (N.honest new.new
        → IsLaid (sizes_of limits) memory.now.records (layout.area_pages layout_in_use (sizes_of limits)) 0
        (N.now new.new).bytes) }
    ensures runs { Obeys N.Disk new.old new.new result (StaysBlank N.Disk new.old new.new) }
{
    let mut page = [0; PAGE];
    for i in 0..area_pages(limits) {
        tell(observer, limits, i, 0);
        encode_page(memory, limits, i, &mut page);
        // No header is open, whatever a stop leaves of the page.
        write_beside(new, area_at(limits, 0) + PAGE * i, &page)?;
    }
    Ok(())
}

// Closes the gate of each slot of the journal.
fn close_slots<N: Disk, O: Observer<MoveNews>>(
    new: &mut N,
    limits: Limits,
    observer: &mut O,
) -> Result<(), DeviceFault>
    requires size { N.honest new.old
        → length (N.now new.old).bytes ≡ layout.image_length layout_in_use (sizes_of limits) }
    ensures laid { OnOk result (N.honest new.new
        → ClosesSlots (sizes_of limits) limits.slots (N.now new.old).bytes (N.now new.new).bytes) }
    ensures size { OnOk result (N.honest new.new
        → length (N.now new.new).bytes ≡ layout.image_length layout_in_use (sizes_of limits)) }
    ensures runs { Obeys N.Disk new.old new.new result (StaysBlank N.Disk new.old new.new) }
{
    let at = journal_at(limits);
    let pages = area_pages(limits);
    for slot in 0..limits.slots as usize {
        tell(observer, limits, pages, slot);
        write_beside(new, at + SLOT * slot, &[CLOSED])?; // No header is open, whatever a stop leaves of the gate.
    }
    Ok(())
}

// Writes a header behind its gate.
fn write_header<N: Disk>(new: &mut N, header: &Header) -> Result<(), DeviceFault>
    requires { N.honest new.old → 64 ≤ length (N.now new.old).bytes }
    ensures written { OnOk result (N.honest new.new
        → (N.now new.new).bytes ≡ overlaid (N.now new.old).bytes 1 (header_body (seen header.now))) }
    ensures runs { Obeys N.Disk new.old new.new result (StaysBlank N.Disk new.old new.new) }
{
    let bytes = header.spell();
    write_beside(new, 1, &bytes[1..]) // The gate is closed, whatever a stop leaves behind it.
}

/// Lays a memory down as a new image with this header. The file has the image's length, and no header in it is open.
///
/// A crash during the run leaves a file without an open header, or the image. After `Ok` the image is on the disk.
pub(crate) fn lay_down<N: Disk, O: Observer<MoveNews>>(
    new: &mut N,
    header: &Header,
    memory: &Memory,
    observer: &mut O,
) -> Result<(), DeviceFault>
    requires sizes { HasSizes (sizes_of header.now.limits) memory.now.contents }
    requires header { seen header.now ≡ moved_header (sizes_of header.now.limits) header.now.count }
    requires last { header.now.count ≤ LAST }
    requires size { N.honest new.old
        → length (N.now new.old).bytes ≡ layout.image_length layout_in_use (sizes_of header.now.limits) }
    requires blank { N.honest new.old → LeavesNow (N.now new.old) IsBlank }
    ensures laid { OnOk result (N.honest new.new
        → LeavesNow (N.now new.new) (IsLaidDown (seen header.now) memory.now.contents)) }
    ensures runs { Obeys N.Disk new.old new.new result
        (LeavesOnlyBlankOrLaid N.Disk new.old new.new (seen header.now) memory.now.contents) }
{
    let _records = memory.records();
    clear(new, header.limits)?; // A stop in it leaves no header open, and so in the next three.
    write_pages(new, memory, header.limits, observer)?;
    close_slots(new, header.limits, observer)?;
    write_header(new, header)?;
    // A stop leaves the gate closed, or open over what is then on the disk. After this call it is open for good.
    open_gate(new, 0)
}
