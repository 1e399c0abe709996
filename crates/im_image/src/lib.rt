//! The image of a memory: its headers, how its pages are made and read, and what a whole image means.
//!
//! Stands on `im_records` and `im_contents`, which say which memory the bytes of an area show. Stands on `im_memory`,
//! and on `im_journal` for the run of commands. Of `im_disk` it calls only what reads. docs/FORMAT.md describes the
//! bytes, and `im_types` defines them.
#![tactic(auto)]

mod area;
mod fresh;
mod header;
mod in_force;
mod open_area;
mod pages;
mod reading;
mod versions;

pub use area::{areas_show_one_memory, decode};
pub use fresh::new_image;
pub use header::{Header, VERSION};
pub use im_types::layout::{
    OPEN, PAGE, area_at, area_pages, cell_pages, image_length, journal_at, node_count, node_pages,
    session_pages,
};
pub use in_force::read_header;
pub use open_area::read_memory;
pub use pages::{
    areas_show_the_memory, encode, encode_into, encode_page, pages_outside_stay,
    pages_show_the_memory,
};
pub use reading::{ImageParts, Report, inspect, read_image, replay};
pub use versions::Versions;
