//! The free rows of cells, and the least place where enough cells are free.
//!
//! A hole is a row of free cells that no free cell can lengthen. Its first and its last cell have its length (boundary
//! tags, Knuth, The Art of Computer Programming 1, section 2.5). So holes that meet are joined without a search. A tree
//! of the lengths leads to the first hole that is long enough. Contracts see a list of cells: none for a free cell, and
//! the holder's number for a held one.
//!
//! Stands on `im_types`, and its proofs on `im_laws`.
#![tactic(auto)]

mod holes;
mod tags;
mod tree;

pub use holes::Holes;
