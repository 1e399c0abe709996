//! A plain memory: slow, without links and without bytes. Stories compare the memory with it.
//!
//! It says in code what the definitions say, a second time and by other means. Like `im_story` it promises nothing but
//! that it ends.
#![tactic(auto)]

mod acts;
mod cells;
mod effects;
mod memory;
mod queue;
mod windows;

pub use memory::PlainMemory;
