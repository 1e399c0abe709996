//! Reads scripts of requests: what each line says, and at which address each request acts once its names have bases.
#![tactic(auto)]

mod checking;
mod explaining;
mod faults;
mod grammar;
mod lines;
mod places;
mod reader;
mod reading;
mod script;

pub use checking::{read_script, read_script_with_glances, split_line};
pub use explaining::{behind_request, bytes_fault};
pub use faults::{Expected, LineFault, Quoted, ScriptFault};
pub use grammar::{is_line, is_plain, read_number, read_span, read_u32, split_words};
pub use lines::read_action;
pub use places::{Action, Place};
pub use reader::Reader;
pub use reading::{TextFault, read_text};
pub use script::{Allocation, Heard, Said, Script, ScriptLine};

/// The most bytes of a script: 256 MiB.
pub const MAX_SCRIPT: usize = 268_435_456;

/// The most bytes of a line in a script or a dialogue, without its line feed.
pub const MAX_LINE: usize = 4_096;

/// The most bytes of a name.
pub const MAX_NAME: usize = 16;

/// The most cells from a name's base to a place.
pub const MAX_OFFSET: u64 = 1_048_575;
