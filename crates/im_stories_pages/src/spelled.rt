//! Bytes that records spell.
//!
//! ```text
//! spell node free next 3 = 03 00*15        the bytes of a record; so of a `cell`, of an `entry`, and of `entry none`
//! spell session 0 = 4096                   how many bytes a window has; so `pages`, of a page of each kind of record
//! spell session 0 at 0 = 4096              the same on a page where old bytes stood, at place 0
//! bytes 4 3 = 00*3                         of those bytes, three from byte 4 on
//! ```

use crate::RUN;
use crate::pages::{Form, Pages};
use crate::records::{cell, kept, node};
use im_records::{
    CELLS_ON_A_PAGE, NODES_ON_A_PAGE, PAGE, SESSIONS_ON_A_PAGE, put_cell, put_node, put_session,
    spell_cell, spell_node, spell_place, spell_session,
};
use im_story::{Phrase, Saying};

// The byte that fills a page before its records are put.
const OLD: u8 = 0xEE;

impl Pages {
    // Takes these bytes.
    fn lay(&mut self, form: Form, bytes: &[u8], said: &mut Saying) {
        self.form = form;
        self.bytes.clear();
        said.check(self.bytes.extend_from_slice(bytes).is_ok())
    }

    /// Spells a record.
    pub fn spell(&mut self, call: &Phrase, said: &mut Saying) {
        let record = Phrase::of(call.alloc(), call.rest(2));
        let (cell, node) = (cell(&record), node(&record));
        match (call.word(1), cell, node, kept(call.rest(2))) {
            ("cell", Some(cell), _, _) => self.lay(Form::Cell, &spell_cell(&cell), said),
            ("node", _, Some(node), _) => self.lay(Form::Node, &spell_node(&node), said),
            ("entry", _, _, Some(kept)) => self.lay(Form::Entry, &spell_place(Some(kept)), said),
            _ if record.word(0) == "none" => self.lay(Form::Entry, &spell_place(None), said),
            _ => said.fail("no record"),
        }
        said.bytes(&self.bytes, RUN)
    }

    /// Spells a window. Tells how many bytes there are.
    pub fn spell_session(&mut self, call: &Phrase, said: &mut Saying) {
        let (place, mut page) = (call.place(1), [OLD; PAGE]);
        match (call.form(), self.windows.get(call.place(0))) {
            ("spell session _", Some(window)) => page = spell_session(window),
            (_, Some(window)) if place < SESSIONS_ON_A_PAGE => {
                put_session(&mut page, place, Some(window))
            }
            _ => said.fail("there is no such window, or no such place"),
        }
        self.lay(Form::Session, &page, said);
        said.number(self.bytes.len())
    }

    /// Spells the three pages of an area with few records, one by one. Tells how many bytes there are.
    pub fn spell_pages(&mut self, said: &mut Saying) {
        let (cells, nodes, windows) = (&self.cells, &self.nodes, &self.windows);
        said.check(
            cells.len() <= CELLS_ON_A_PAGE
                && nodes.len() <= NODES_ON_A_PAGE
                && windows.len() <= SESSIONS_ON_A_PAGE,
        );
        let mut pages = [[OLD; PAGE]; 3];
        for place in 0..CELLS_ON_A_PAGE {
            put_cell(&mut pages[0], place, cells.get(place).copied());
        }
        for place in 0..NODES_ON_A_PAGE {
            put_node(&mut pages[1], place, nodes.get(place).copied());
        }
        for place in 0..SESSIONS_ON_A_PAGE {
            put_session(&mut pages[2], place, windows.get(place));
        }
        self.lay(Form::Area, pages.as_flattened(), said);
        said.number(self.bytes.len())
    }
}
