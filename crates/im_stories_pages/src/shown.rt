//! The memory that records show.
//!
//! ```text
//! blocks = yes                             whether the cells lie in blocks
//! lists = 2                                the lists of waiters of the cells, or why there are none
//! waiting 0 = 1.1 2.1                      who waits in the list of a cell
//! agree = no                               whether nobody waits, given that there is no window
//! contents = 2                             the lists of the memory that cells, nodes and windows show under the limits
//! ```

use crate::pages::Pages;
use im_cell::CellRow;
use im_contents::{agree, are_blocks, read_contents, read_lists};
use im_story::{Phrase, Saying};
use im_types::NONE;

impl Pages {
    // Reads the lists of waiters of some cells, or of a memory. Tells how many they are, or why there are none.
    fn read_lists(&mut self, cells: &CellRow, call: &Phrase, said: &mut Saying) {
        let (alloc, nodes) = (call.alloc(), self.nodes.as_slice());
        self.lists = None;
        if nodes.len() > NONE as usize {
            return said.fail("there are too many nodes");
        }
        let read = match (call.form(), self.limits) {
            ("lists", _) => read_lists(alloc, nodes, cells),
            ("contents", Some(limits)) => {
                read_contents(alloc, limits, cells, nodes, &self.windows)
            }
            _ => return said.fail("no such call"),
        };
        said.result(read, |lists, said| {
            said.number(lists.len());
            self.lists = Some(lists);
        })
    }

    /// Tells what the records show. The lists are those that were last read.
    pub fn show(&mut self, call: &Phrase, said: &mut Saying) {
        let Ok(cells) = CellRow::of(call.alloc(), &self.cells) else {
            return said.fail("no memory is left");
        };
        let at = call.place(0);
        match (call.word(0), &self.lists) {
            ("blocks", _) => said.either(are_blocks(&cells), "yes", "no"),
            ("waiting", Some(lists)) if at < lists.len() => {
                for who in lists.at(at) {
                    said.who(*who);
                }
            }
            ("agree", Some(lists)) if lists.len() == cells.len() => {
                let agrees = agree(call.alloc(), &cells, lists, &[]);
                said.given(agrees.ok(), "no memory is left", |is_so, said| {
                    said.either(is_so, "yes", "no")
                })
            }
            _ => self.read_lists(&cells, call, said),
        }
    }
}
