//! The records of an area of the image. This crate spells and reads a cell, a waiter node and a session, record by
//! record. It also reads an area's pages into a list of records of each kind.
//!
//! The bytes are defined in `im_types`, and their laws are in `im_formats`. The layer above says which memory the
//! records show.
#![tactic(auto)]

// An area, read at once or in pieces.
mod area;
// Whether a record is within its bounds.
mod bounds;
// Codes of entries, kinds and presence tags.
mod fields;
// Laws about what an area's bytes say.
mod laws;
// A page, record by record.
mod page;
// Bytes at a place among others.
mod put;
// One cell, node or place, read.
mod read;
// The rows of cells and of nodes, read.
mod rows;
// A session record, spelled and read, and the row of them.
mod session;
// One cell, node or place, spelled.
mod spell;
// A window of kept entries, as a session record has it.
mod window;

pub use area::{AreaRecords, read_area, read_more_cells, read_rest_of_area};
pub use im_types::layout::{
    CELLS_ON_A_PAGE, NODES_ON_A_PAGE, PAGE, SESSIONS_ON_A_PAGE, area_pages, cell_pages, node_count,
    node_pages, session_pages,
};
pub use laws::{areas_spell_one_list_of_records, joined_pages_are_an_area, pages_are_an_area};
pub use page::{put_cell, put_node, put_session};
pub use read::{read_cell, read_node, read_place};
pub use session::{has_room_for, read_session, spell_session};
pub use spell::{spell_cell, spell_node, spell_place};
pub use window::WindowRecord;
