//! Stories: texts whose lines are calls and their answers, and the walk that makes the calls and compares the answers.
//!
//! ```text
//! # A fetch comes before its store
//! -- The reader is deferred, and the store answers it.
//! 1.1 fetch 0 = waiting
//! 2.1 store 0 42 = stored
//! collect 1.1 = value 42
//! ```
//!
//! A line `# ..` begins a story and says what happens in it. A line `-- ..` is a remark. Each other line that isn't
//! blank is a call and its answer, with ` = ` between them. The [`Subject`] says what calls there are. It gets a call
//! taken apart, as a [`Phrase`], and tells its answer to a [`Saying`], which keeps what goes wrong until the end. So no
//! arm of its interpreter has a way out, which is what its proof would cost.
//!
//! The crate stands on `im_types` and `im_disk`, and the crates that tell stories use it. It promises nothing but that
//! it ends: a story is a test.
#![tactic(auto)]

mod cases;
mod dice;
mod old;
mod phrases;
mod printout;
mod says;
mod texts;
mod walks;
mod words;

pub use cases::Cases;
pub use dice::Dice;
pub use old::old_image;
pub use phrases::Phrase;
pub use printout::Printout;
pub use says::Saying;
pub use walks::{Subject, tell_line, walk_file};
pub use words::{asked, bytes, change, changes, command, crash, entry, hex, mode, op, request};
