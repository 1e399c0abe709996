//! Sets of pages.
ghost use Rattle.std.specs.Prelude.{◌≡◌, ℕ, ◌+◌, ◌-◌, ◌<◌, ◌≤◌, true, false, length, replicate, IfOk, IfErr};
ghost use Rattle.std.specs.Prelude.{MatchOption};
ghost use Rattle.im_types.specs.Types.{layout_in_use, sizes_of};
ghost use Rattle.im_pages.specs.PageSets.{has, HasNoneFrom, IsNext, IsWithin, size_of, union, with_page, with_pages};
ghost use Rattle.im_types.specs.Layout as layout;

use crate::words::{fill_words, first_set, is_set, set_bit, set_bits, set_range};
use im_types::layout::area_pages;
use im_types::{Limits, Refusal};
use std::alloc::Global;
use std::marker::Model;

/// A set of pages of an area. A page past the area's last one counts as being in the set.
#[derive(Drop)]
pub struct PageSet {
    words: Vec<u64>,
    pages: usize,
}

impl Model for PageSet {
    ghost use Rattle.std.specs.Prelude.{Bool, List};
    ghost use Rattle.im_pages.specs.Words.{bits_of, IsPacked};

    ghost Value = { List Bool };

    ghost view = { λ s. bits_of s.words.items s.pages };

    ghost invariant = { λ s. IsPacked s.words.items s.pages };
}

impl PageSet {
    /// Makes a set with no page of an area. Returns `NoMemory` if its memory is refused.
    pub fn new(alloc: Global, limits: Limits) -> Result<PageSet, Refusal>
        ensures none { IfOk result (λ set. set ≡ replicate (layout.area_pages layout_in_use (sizes_of limits)) false) }
        ensures only { IfErr result (λ e. e ≡ Refusal.NoMemory) }
    {
        let pages = area_pages(limits);
        let Ok(words) = vec![in alloc; 0; (pages + 63) / 64] else {
            return Err(Refusal::NoMemory);
        };
        Ok(PageSet { words, pages })
    }

    /// Returns whether a page is in the set. A page past the last one counts as being in it.
    pub fn has(&self, page: usize) -> bool
        ensures { result ≡ has self.now page }
    {
        if page >= self.pages {
            return true;
        }
        is_set(self.words.as_slice(), page)
    }

    /// Puts a page into the set. A page past the last one changes nothing.
    pub fn add(&mut self, page: usize)
        ensures state { self.new ≡ with_page self.old page }
        ensures length { length self.new ≡ length self.old }
        ensures found { has self.new page ≡ true }
        ensures kept { IsWithin self.old self.new }
        ensures few { size_of self.new ≤ size_of self.old + 1 }
    {
        if page < self.pages {
            set_bit(self.words.as_mut_slice(), page);
        }
    }

    /// Puts the pages `from` to `to - 1` into the set. Pages past the last one change nothing.
    pub fn add_range(&mut self, from: usize, to: usize)
        ensures state { self.new ≡ with_pages self.old from (to - from) }
        ensures length { length self.new ≡ length self.old }
        ensures found { (page : ℕ) → from ≤ page → page < to → has self.new page ≡ true }
        ensures kept { IsWithin self.old self.new }
        ensures few { size_of self.new ≤ size_of self.old + (to - from) }
    {
        let last = to.min(self.pages);
        if from < last {
            set_range(self.words.as_mut_slice(), from, last);
        }
    }

    /// Puts all pages of another set into this one. Both sets have the same number of pages.
    pub fn union_with(&mut self, other: &PageSet)
        requires { length self.old ≡ length other.now }
        ensures { self.new ≡ union self.old other.now }
    {
        set_bits(self.words.as_mut_slice(), other.words.as_slice());
    }

    /// Takes all pages out of the set.
    pub fn clear(&mut self)
        ensures { self.new ≡ replicate (length self.old) false }
    {
        fill_words(self.words.as_mut_slice(), 0);
    }

    /// Puts all pages into the set.
    pub fn fill(&mut self)
        ensures { self.new ≡ replicate (length self.old) true }
    {
        fill_words(self.words.as_mut_slice(), u64::MAX);
    }

    /// Returns the least page of the set from this one on, or `None` if there is none.
    pub fn next_from(&self, page: usize) -> Option<usize>
        ensures { MatchOption result (HasNoneFrom self.now page) (IsNext self.now page) }
    {
        if page >= self.pages {
            return None;
        }
        let Some(found) = first_set(self.words.as_slice(), page) else {
            return None;
        };
        if found < self.pages {
            Some(found)
        } else {
            None
        }
    }
}
