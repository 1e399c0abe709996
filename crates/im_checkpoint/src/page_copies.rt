//! Copies of an area's pages. Their space is taken once and not filled.
ghost use Rattle.std.specs.Prelude.{◌≡◌, ◌<◌, length, IfOk, slice_set};
ghost use Rattle.im_checkpoint.specs.Copied.{blank_page, copy_of};

use im_types::layout::PAGE;
use std::alloc::{AllocError, Global};
use std::marker::Model;

// The place of a page's copy.
#[derive(Clone, Copy, Debug, PartialEq, Eq)]
enum CopyPlace {
    Nowhere,
    At(usize),
}

/// Copies of an area's pages, by page number. Contracts see zeros for a page that was never copied.
///
/// A copy stands behind the earlier ones, and stays in its place when the page is copied again. So this uses only as
/// much of the space as pages were ever copied. An opening takes the space and uses none of it.
#[derive(Drop)]
pub(crate) struct PageCopies {
    // The place of the copy of each page of an area.
    places: Vec<CopyPlace>,
    pages: Vec<[u8; PAGE]>,
}

impl Model for PageCopies {
    ghost use Rattle.std.specs.Prelude.{ℕ, List, map, vec_capacity};
    ghost use Rattle.im_checkpoint.specs.Copied.{AreCopies, copy_at};

    ghost Value = { List (List ℕ) };

    ghost view = { λ c. map (copy_at c.pages.items) c.places.items };

    ghost invariant = { λ c. AreCopies c.places.items c.pages.items (vec_capacity c.pages) };
}

// The bytes of a page without a copy.
fn blank_page() -> [u8; PAGE]
    ensures { result ≡ blank_page }
{
    [0; PAGE]
}

impl PageCopies {
    /// Makes space for one copy of each of `pages` pages, without a copy yet. Returns `AllocError` if the space is
    /// refused.
    pub(crate) fn new(alloc: Global, pages: usize) -> Result<PageCopies, AllocError>
        ensures { IfOk result (λ copies. length copies ≡ pages) }
    {
        let places = vec![in alloc; CopyPlace::Nowhere; pages]?;
        let pages = Vec::with_capacity(alloc, pages)?;
        Ok(PageCopies { places, pages })
    }

    /// Returns the copy of a page.
    pub(crate) fn copy(&self, i: usize) -> [u8; PAGE]
        requires { i < length self.now }
        ensures { result ≡ copy_of self.now i }
    {
        match self.places[i] {
            CopyPlace::At(place) => self.pages[place],
            CopyPlace::Nowhere => blank_page(),
        }
    }

    /// Copies a page. It takes no memory.
    pub(crate) fn put(&mut self, i: usize, page: &[u8; PAGE])
        requires { i < length self.old }
        ensures { self.new ≡ slice_set self.old i page.now }
    {
        match self.places[i] {
            CopyPlace::At(place) => self.pages[place] = *page,
            CopyPlace::Nowhere => {
                let place = self.pages.len();
                let Ok(()) = self.pages.push(*page) else {
                    unreachable!()
                };
                self.places[i] = CopyPlace::At(place);
            }
        }
    }
}
