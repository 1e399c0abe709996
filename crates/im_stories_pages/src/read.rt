//! Bytes, read as records.
//!
//! ```text
//! read = free next 3                       what the bytes spell, or `refused`
//! read node 00*15 = refused                what others spell as such a record
//! short = refused                          what is read of them without the last one
//! byte 4..15 1 = refused 4..15             what is read where a byte of these, each in turn, is set to 1
//! byte 6 0..255 = read 0, refused 1..255   what is read where byte 6 is set to each of these values
//! kept 15 = fetch 5 -> waiting             the entry with this number, of the session that they spell
//! kept stores = 64                         how many of its first entries are of clashed stores of 0, 1, .. in cell 0
//! area cell 0 = free hole 1 next none      of the area that they spell; so `area node 3` and `area window 0`
//! ```

use crate::pages::{Form, Pages};
use crate::records::clashing;
use im_records::{
    AreaRecords, PAGE, WindowRecord, read_area, read_cell, read_node, read_place, read_session,
};
use im_story::{Phrase, Saying, bytes};
use im_types::Refusal;

// Reads the first and the last number of `4..15`, or of `4`, which is both.
fn range(word: &str) -> Option<(u64, u64)> {
    let (from, to) = word.split_once("..").unwrap_or((word, word));
    Some((from.parse::<u64>().ok()?, to.parse::<u64>().ok()?))
}

fn tell_window(window: &WindowRecord, said: &mut Saying) {
    write!(said, "base {} with {}", window.base(), window.kept().len())
}

impl Pages {
    // Reads bytes as an area of these limits and this version, if that is as long.
    fn area(&self, bytes: &[u8]) -> Result<AreaRecords, Refusal> {
        match self.limits {
            Some(limits) if bytes.len() == PAGE * self.version.area_pages(limits) => {
                read_area(self.alloc, self.version, bytes, limits)
            }
            _ => Err(Refusal::WrongLength),
        }
    }

    // Tells what bytes spell, or that they are refused.
    fn tell_read(&self, bytes: &[u8], said: &mut Saying) {
        let told = match self.form {
            Form::Cell => read_cell(bytes).map(|cell| said.cell_record(cell)),
            Form::Node => read_node(bytes).map(|node| said.node_record(node)),
            Form::Entry => read_place(bytes).map(|entry| said.kept(entry)),
            Form::Session => {
                read_session(self.version, bytes).map(|window| tell_window(&window, said))
            }
            Form::Area => Some(said.result(self.area(bytes), |area, said| {
                let (cells, nodes) = (area.cells().len(), area.nodes().len());
                let windows = area.windows().len();
                write!(said, "{cells} cells {nodes} nodes {windows} windows")
            })),
        };
        if told.is_none() {
            said.text("refused")
        }
    }

    // Tells whether bytes are read, or how they are refused.
    fn look(&self, bytes: &[u8], said: &mut Saying) {
        let mut read = Saying::new(said.alloc());
        self.tell_read(bytes, &mut read);
        if read.is_wrong() || read.said().starts_with("refused") {
            said.also(&read)
        } else {
            said.text("read")
        }
    }

    // Tells whether the bytes are read with one of them changed.
    fn look_with(&self, at: u64, byte: u64, said: &mut Saying) {
        let Ok(mut changed) = self.bytes.to_vec(said.alloc()) else {
            return said.fail("no memory is left");
        };
        match (changed.get_mut(at as usize), u8::try_from(byte)) {
            (Some(place), Ok(byte)) => *place = byte,
            _ => said.fail("there is no such byte"),
        }
        self.look(&changed, said)
    }

    /// Reads the bytes, or those that the words spell.
    pub fn read(&mut self, call: &Phrase, said: &mut Saying) {
        if call.words().len() > 1 {
            self.form = match call.word(1) {
                "cell" => Form::Cell,
                "node" => Form::Node,
                "entry" => Form::Entry,
                "session" => Form::Session,
                "area" => Form::Area,
                _ => return said.fail("no such record"),
            };
            match bytes(call.alloc(), call.rest(2)) {
                Some(bytes) => self.bytes = bytes,
                None => said.fail("these are no bytes"),
            }
        }
        self.tell_read(&self.bytes, said)
    }

    /// Tells what is read without the last byte; or with one value of a byte at each of some places, or several values
    /// of the byte at one place.
    pub fn read_changed(&self, call: &Phrase, said: &mut Saying) {
        let (places, values) = (range(call.word(1)), range(call.word(2)));
        match (places, values, self.bytes.split_last()) {
            (None, None, Some((_, rest))) => self.look(rest, said),
            (Some((from, to)), Some((least, most)), _) if least == most => {
                said.each(from..=to, |at, one| self.look_with(at, least, one))
            }
            (Some((at, to)), Some((least, most)), _) if at == to => {
                said.each(least..=most, |byte, one| self.look_with(at, byte, one))
            }
            _ => said.fail("there are no such bytes"),
        }
    }

    /// Tells of the session that the bytes spell.
    pub fn tell_kept(&self, call: &Phrase, said: &mut Saying) {
        let Some(window) = read_session(self.version, &self.bytes) else {
            return said.fail("no session");
        };
        let kept = window.kept().iter().enumerate();
        let stores = kept.take_while(|(at, kept)| **kept == clashing(*at as u64));
        match (call.form(), call.number(0).checked_sub(window.base())) {
            ("kept stores", _) => said.number(stores.count()),
            (_, Some(past)) => said.kept(window.kept().get(past as usize).copied()),
            _ => said.fail("the number lies below the window"),
        }
    }

    /// Tells of the area that the bytes spell.
    pub fn tell_area(&self, call: &Phrase, said: &mut Saying) {
        let (at, Ok(area)) = (call.place(0), self.area(&self.bytes)) else {
            return said.fail("no area");
        };
        let cells = area.cells();
        let told = match call.word(1) {
            "cell" if at < cells.len() => Some(said.cell_record(cells.at(at))),
            "node" => area.nodes().get(at).map(|node| said.node_record(*node)),
            "window" => area
                .windows()
                .get(at)
                .map(|window| tell_window(window, said)),
            _ => None,
        };
        if told.is_none() {
            said.text("none")
        }
    }
}
