//! The dump of an image: a text of lines that says what the image means, and reads back.
//!
//! A dump has the sizes, the count of commands, the blocks, the cells, those who wait in their order, and the windows
//! with their entries. docs/FORMAT.md describes the lines, and `specs/Dump.antt` defines them. A text is loaded only if
//! it is the dump of the memory that was made of it, byte for byte.
#![tactic(auto)]

mod dumping;
mod faults;
mod head;
mod laws;
mod laying;
mod lines;
mod loading;
mod records;
mod salvaging;
mod windows;
mod words;
mod writing;

pub use dumping::dump;
pub use faults::{DumpFault, TextLineFault, Wanted};
pub use laws::{one_memory_has_a_dump, reload, what_was_dumped_is_loaded};
pub use loading::{Loaded, read_dump};
pub use salvaging::salvage;
pub use writing::add_dump;
