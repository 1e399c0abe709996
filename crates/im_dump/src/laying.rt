//! Lays the lines of a text down as the records of an area. Nothing is promised here: what is read of the records is
//! compared with the text.
ghost use Rattle.std.specs.Prelude.{IfOk};

use crate::faults::Wanted;
use crate::lines::TextLine;
use crate::words::Bad;
use im_image::new_image;
use im_records::{WindowRecord, spell_cell, spell_node, spell_session};
use im_types::layout::{
    CELL_RECORD, NODE_RECORD, PAGE, SESSION_RECORD, area_at, cell_pages, node_count, node_pages,
};
use im_types::{
    Block, CellRecord, Kept, Kind, Limits, NONE, NodeRecord, PresenceTag, WINDOW, Waiter,
};
use std::alloc::Global;

// The list of the cell that the last line of a waiting request names.
#[derive(Clone, Copy, Debug, PartialEq, Eq)]
struct List {
    a: u32,
    first: u32,
    last: u32,
    waiter: Waiter,
}

/// The records of an area, laid down line by line.
#[derive(Drop)]
pub(crate) struct Laying {
    limits: Limits,
    /// The bytes of an image. Its area 0 has the records.
    image: Vec<u8>,
    /// The last block that began.
    block: Block,
    list: Option<List>,
    /// The number of nodes in lists.
    nodes: u32,
    /// The element whose window is read, if there is one.
    element: Option<u16>,
    window: WindowRecord,
}

// A line is bad at one of its words.
fn bad_at(at: usize, wanted: Wanted) -> Result<(), Bad> {
    Err(Bad { at, wanted })
}

// Puts bytes at a place of others, if they are inside.
fn put(bytes: &mut [u8], at: usize, part: &[u8]) {
    if at <= bytes.len() && part.len() <= bytes.len() - at {
        bytes[at..at + part.len()].copy_from_slice(part);
    }
}

impl Laying {
    /// Begins with no block, no waiting request and new windows. Returns `None` if memory is refused.
    pub(crate) fn new(alloc: Global, limits: Limits) -> Option<Laying> {
        match new_image(alloc, limits) {
            Ok(image) => Some(Laying {
                limits,
                image,
                block: Block {
                    base: 0,
                    length: 0,
                    kind: Kind::I,
                },
                list: None,
                nodes: 0,
                element: None,
                window: WindowRecord::new(1),
            }),
            Err(_) => None,
        }
    }

    /// Returns the bytes of the image.
    pub(crate) fn into_image(self) -> Vec<u8> {
        let Laying { image, .. } = self;
        image
    }

    // Puts a record at a place of the area.
    fn put(&mut self, at: usize, record: &[u8]) {
        let from = area_at(self.limits, 0);
        put(&mut self.image, from.saturating_add(at), record);
    }

    // Puts the record of a cell of the last block.
    fn put_tag(&mut self, a: u32, tag: PresenceTag) {
        let block = self.block;
        let at = CELL_RECORD.saturating_mul(a as usize);
        self.put(at, &spell_cell(&CellRecord::Held { block, tag }));
    }

    // Puts a node of a list.
    fn put_node(&mut self, node: u32, next: u32, waiter: Waiter) {
        let pages = cell_pages(self.limits);
        let at = PAGE
            .saturating_mul(pages)
            .saturating_add(NODE_RECORD.saturating_mul(node as usize));
        self.put(at, &spell_node(&NodeRecord::Listed { next, waiter }));
    }

    /// Puts the window that was read, if there is one.
    pub(crate) fn put_window(&mut self) {
        let Some(element) = self.element else {
            return;
        };
        let pages = cell_pages(self.limits).saturating_add(node_pages(self.limits));
        let at = PAGE
            .saturating_mul(pages)
            .saturating_add(SESSION_RECORD.saturating_mul(element as usize));
        let session = spell_session(&self.window);
        self.put(at, &session);
    }

    // Begins a block behind the others.
    fn begin(&mut self, block: Block) -> Result<(), Bad> {
        let end = block.base.saturating_add(block.length);
        if block.base < self.block.base.saturating_add(self.block.length)
            || end > self.limits.cells
        {
            return bad_at(1, Wanted::Room);
        }
        if block.length == 0 {
            return bad_at(4, Wanted::Length);
        }
        self.block = block;
        for a in block.base..end {
            self.put_tag(a, PresenceTag::Empty);
        }
        Ok(())
    }

    // Whether a cell is in the last block.
    fn holds(&self, a: u32) -> bool {
        a >= self.block.base && a < self.block.base.saturating_add(self.block.length)
    }

    // Sets the tag of a cell of the last block.
    fn set(&mut self, a: u32, tag: PresenceTag) -> Result<(), Bad> {
        if !self.holds(a) {
            return bad_at(1, Wanted::Address);
        }
        self.put_tag(a, tag);
        Ok(())
    }

    // Puts a request at the end of a cell's list. The lines of one list come one after another.
    fn wait(&mut self, a: u32, waiter: Waiter) -> Result<(), Bad> {
        let node = self.nodes;
        if node as usize >= node_count(self.limits) {
            return bad_at(0, Wanted::FewWaiters);
        }
        let mut first = node;
        if let Some(list) = self.list {
            if list.a == a {
                self.put_node(list.last, node, list.waiter);
                first = list.first;
            }
        }
        self.put_node(node, NONE, waiter);
        self.nodes = node.saturating_add(1);
        self.list = Some(List {
            a,
            first,
            last: node,
            waiter,
        });
        self.set(a, PresenceTag::Waiting { first, last: node })
    }

    // Begins the window of an element.
    fn number(&mut self, element: u16, base: u64) -> Result<(), Bad> {
        if element >= self.limits.elements {
            return bad_at(1, Wanted::Element);
        }
        self.put_window();
        self.element = Some(element);
        self.window = WindowRecord::new(base);
        Ok(())
    }

    // The number of the next entry of the window that is read.
    fn next(&self) -> u64 {
        let kept = self.window.kept().len() as u64;
        self.window.base().saturating_add(kept)
    }

    // Keeps an entry in the window that is read.
    fn keep(&mut self, who: Waiter, kept: Kept) -> Result<(), Bad> {
        if self.element != Some(who.element) || who.number != self.next() {
            return bad_at(1, Wanted::Next);
        }
        if self.window.kept().len() as u64 >= WINDOW {
            return bad_at(0, Wanted::FewEntries);
        }
        self.window.push(kept);
        Ok(())
    }

    /// Lays a line down. The last line does nothing.
    pub(crate) fn lay(&mut self, line: TextLine) -> Result<(), Bad> {
        match line {
            TextLine::Begins(block) => self.begin(block),
            TextLine::Waits(a, waiter) => self.wait(a, waiter),
            TextLine::Full(a, value) => self.set(a, PresenceTag::Full(value)),
            TextLine::Clashed(a, value) => self.set(a, PresenceTag::Clashed(value)),
            TextLine::Base(element, base) => self.number(element, base),
            TextLine::Entry(who, kept) => self.keep(who, kept),
            TextLine::End => Ok(()),
        }
    }
}
