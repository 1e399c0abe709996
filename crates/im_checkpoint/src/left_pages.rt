//! The pages that are left of a checkpoint: their bytes, and copies of those that a command is about to change.
//! [`Checkpoint::before`] copies pages, and a turn asks for the bytes of the next one.
//!
//! [`Checkpoint::before`]: crate::Checkpoint::before
ghost use Rattle.std.specs.Prelude.{◌≡◌, ℕ, ◌<◌, true, false, length};
ghost use Rattle.im_types.specs.Types.{layout_in_use, sizes_of, area_pages};
ghost use Rattle.{im_pages.specs.PageSets.has, im_image.specs.Encoding.IsAreaPage};
ghost use Rattle.im_checkpoint.specs.Copied.{AreCopied, copy_of};

use crate::page_copies::PageCopies;
use im_image::encode_page;
use im_memory::Memory;
use im_pages::PageSet;
use im_types::Limits;
use im_types::layout::PAGE;

/// Which pages of a memory are left, and which have changed since the checkpoint began.
#[derive(Clone, Copy)]
pub(crate) struct LeftPages<'a> {
    /// The memory as it is now.
    pub(crate) memory: &'a Memory,
    /// Its image's limits.
    pub(crate) limits: Limits,
    /// The pages that are left.
    pub(crate) left: &'a PageSet,
    /// The pages that have changed since.
    pub(crate) recent: &'a PageSet,
}

/// Puts the bytes of a page that is left into `page`. They are the copy if the page has changed, and else the page of
/// the memory.
pub(crate) fn page_for(pages: &LeftPages, copies: &PageCopies, i: usize, page: &mut [u8; PAGE])
    requires cells { length pages.now.memory.now.contents.cells ≡ pages.now.limits.cells }
    requires elements { length pages.now.memory.now.contents.windows ≡ pages.now.limits.elements }
    requires inside { i < area_pages layout_in_use (sizes_of pages.now.limits) }
    requires space { length copies.now ≡ area_pages layout_in_use (sizes_of pages.now.limits) }
    ensures copy { has pages.now.recent.now i ≡ true → page.new ≡ copy_of copies.now i }
    ensures fresh { has pages.now.recent.now i ≡ false
        → IsAreaPage (sizes_of pages.now.limits) pages.now.memory.now.records i page.new }
{
    if pages.recent.has(i) {
        *page = copies.copy(i);
        return;
    }
    encode_page(pages.memory, pages.limits, i, page);
}

// Copies a page of the memory, if the page is left and hasn't changed since the checkpoint began.
fn copy_page(pages: &LeftPages, i: usize, copies: &mut PageCopies)
    requires cells { length pages.now.memory.now.contents.cells ≡ pages.now.limits.cells }
    requires elements { length pages.now.memory.now.contents.windows ≡ pages.now.limits.elements }
    requires inside { i < area_pages layout_in_use (sizes_of pages.now.limits) }
    requires space { length copies.old ≡ area_pages layout_in_use (sizes_of pages.now.limits) }
    ensures space { length copies.new ≡ length copies.old }
    ensures copied { has pages.now.left.now i ≡ true → has pages.now.recent.now i ≡ false
        → IsAreaPage (sizes_of pages.now.limits) pages.now.memory.now.records i (copy_of copies.new i) }
    ensures stay { (page : ℕ) → page < area_pages layout_in_use (sizes_of pages.now.limits)
        → (page ≡ i → has pages.now.recent.now i ≡ true) → copy_of copies.new page ≡ copy_of copies.old page }
{
    if !pages.left.has(i) {
        return;
    }
    if pages.recent.has(i) {
        return;
    }
    let mut page = [0; PAGE];
    encode_page(pages.memory, pages.limits, i, &mut page);
    copies.put(i, &page);
}

/// Copies the pages from `from` on that a command names, if they are left and haven't changed since the checkpoint
/// began.
pub(crate) fn copy_pages(pages: &LeftPages, named: &PageSet, from: usize, copies: &mut PageCopies)
    requires cells { length pages.now.memory.now.contents.cells ≡ pages.now.limits.cells }
    requires elements { length pages.now.memory.now.contents.windows ≡ pages.now.limits.elements }
    requires size { length named.now ≡ area_pages layout_in_use (sizes_of pages.now.limits) }
    requires space { length copies.old ≡ area_pages layout_in_use (sizes_of pages.now.limits) }
    ensures space { length copies.new ≡ length copies.old }
    ensures copied { AreCopied (sizes_of pages.now.limits) pages.now.memory.now.records from named.now
        pages.now.left.now pages.now.recent.now copies.new }
    ensures stay { (page : ℕ) → page < area_pages layout_in_use (sizes_of pages.now.limits)
        → has pages.now.recent.now page ≡ true → copy_of copies.new page ≡ copy_of copies.old page }
{
    let mut at = from;
    while let Some(page) = named.next_from(at) {
        copy_page(pages, page, copies);
        at = page + 1;
    }
}
