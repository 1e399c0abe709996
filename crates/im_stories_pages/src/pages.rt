//! What a story is about.

use im_contents::Lists;
use im_records::WindowRecord;
use im_types::layout::Version;
use im_types::{CellRecord, Limits, NodeRecord};
use std::alloc::Global;

/// What bytes are read as.
#[derive(Clone, Copy)]
pub enum Form {
    Cell,
    Node,
    Entry,
    Session,
    Area,
}

/// The records of an area, bytes that may spell some, and the limits and the version by which bytes are read. With them
/// come the lists of waiters that were last read from the records.
#[derive(Drop)]
pub struct Pages {
    pub alloc: Global,
    pub version: Version,
    pub limits: Option<Limits>,
    pub cells: Vec<CellRecord>,
    pub nodes: Vec<NodeRecord>,
    pub windows: Vec<WindowRecord>,
    pub lists: Option<Lists>,
    pub form: Form,
    pub bytes: Vec<u8>,
}

impl Pages {
    /// Starts with no record and no byte, the version in use, and no limits.
    pub fn new(alloc: Global) -> Pages {
        Pages {
            alloc,
            version: Version::Two,
            limits: None,
            cells: Vec::new(alloc),
            nodes: Vec::new(alloc),
            windows: Vec::new(alloc),
            lists: None,
            form: Form::Cell,
            bytes: Vec::new(alloc),
        }
    }
}
