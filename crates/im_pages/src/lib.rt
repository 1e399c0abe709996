//! Pages of an area: the page of a record, and sets of pages.
//!
//! A set has one bit for each page. It takes no memory once it is made. Contracts see a list of truth values, indexed
//! by the page's number.
#![tactic(auto)]

// The page of each record.
mod places;
// Sets of pages.
mod sets;
// Bits in words.
mod words;

pub use places::{page_of_cell, page_of_node, page_of_session};
pub use sets::PageSet;
