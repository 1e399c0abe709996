//! The limits, and the records of an area, as a story sets them.
//!
//! ```text
//! limits 4096 16 256 = 4096 16 256
//! version 1 = 1                            bytes are read by this version from now on; by 2, if none is named
//! cells 3 = 3                              a row of free cells; so `nodes 4`; so `windows 2`, each empty, from 1 on
//! cell 1 empty in block 1 of 2 i = set
//! node 0 1.1 next none = set
//! window 0 15 = set                        a window with no entry, whose first number is 15
//! keep 0 fetch 1 -> waiting = 0.15         one more entry of the window, and which request's it is
//! keep 0 64 stores = 0.15 to 78            64 more, of stores of 0, 1, .. in cell 0 that clashed
//! ```

use crate::pages::Pages;
use crate::records::{cell, clashing, kept, node};
use im_records::WindowRecord;
use im_story::{Phrase, Saying};
use im_types::layout::Version;
use im_types::{CellRecord, Kept, NONE, NodeRecord, WINDOW};

// Adds an entry to a window. Returns whether there is one, and has room.
fn keep(window: &mut WindowRecord, entry: Option<Kept>) -> bool {
    match entry {
        Some(entry) if window.kept().len() < WINDOW as usize => {
            window.push(entry);
            true
        }
        _ => false,
    }
}

// Adds entries to a window, and tells their numbers: that of the first, and of the last if they are several stores.
fn keep_each(window: &mut WindowRecord, call: &Phrase, said: &mut Saying) {
    let next = window.base().saturating_add(window.kept().len() as u64);
    said.name(call.element(0), next);
    if call.form() != "keep _ _ stores" {
        return said.check(keep(window, kept(call.rest(2))));
    }
    for value in 0..call.number(1) {
        said.check(keep(window, Some(clashing(value))));
    }
    let last = next.saturating_add(call.number(1)).saturating_sub(1);
    write!(said, " to {last}")
}

// Puts a record in the place of another one. Returns whether there are both.
fn put<T: Drop>(records: &mut [T], at: usize, record: Option<T>) -> bool {
    match (records.get_mut(at), record) {
        (Some(place), Some(record)) => {
            *place = record;
            true
        }
        _ => false,
    }
}

impl Pages {
    /// Takes limits or a version.
    pub fn set_sizes(&mut self, call: &Phrase, said: &mut Saying) {
        match (call.form(), call.number(0)) {
            ("limits _ _ _", _) => {
                self.limits = call.limits(0);
                match self.limits {
                    Some(made) => write!(said, "{} {} {}", made.cells, made.elements, made.slots),
                    None => said.text("none"),
                }
            }
            ("version _", 1 | 2) => {
                self.version = Version::named(call.element(0));
                said.number(call.number(0))
            }
            _ => said.fail("no sizes"),
        }
    }

    /// Makes a row of free cells or nodes, or of windows with no entry.
    pub fn make_row(&mut self, call: &Phrase, said: &mut Saying) {
        let (count, hole, next) = (call.place(0), 0, NONE);
        let is_made = match call.word(0) {
            "cells" => {
                self.cells.clear();
                let free = CellRecord::Free { hole, next };
                self.cells.resize(count, free).is_ok()
            }
            "nodes" => {
                self.nodes.clear();
                let free = NodeRecord::Free { next };
                self.nodes.resize(count, free).is_ok()
            }
            _ => {
                self.windows.clear();
                (0..count).all(|_| self.windows.push(WindowRecord::new(1)).is_ok())
            }
        };
        said.so(is_made, call.word(1))
    }

    /// Sets a record, or adds entries to a window.
    pub fn set(&mut self, call: &Phrase, said: &mut Saying) {
        let (at, record) = (call.place(0), Phrase::of(call.alloc(), call.rest(2)));
        match (call.word(0), self.windows.get_mut(at)) {
            ("cell", _) => said.so(put(&mut self.cells, at, cell(&record)), "set"),
            ("node", _) => said.so(put(&mut self.nodes, at, node(&record)), "set"),
            ("window", Some(place)) => {
                *place = WindowRecord::new(call.number(1));
                said.text("set")
            }
            ("keep", Some(window)) => keep_each(window, call, said),
            _ => said.fail("no such window"),
        }
    }
}
