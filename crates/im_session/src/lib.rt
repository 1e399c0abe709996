//! A session: an engine, and what was put on its disk since the session began.
//!
//! Contracts see where the session begins, the commands that were acknowledged since (`put`), those in doubt (`doubt`),
//! and the engine. What a crash leaves is one record, `Kept`, that each session meets. So a contract above says what
//! becomes of `put` and `doubt`, and nothing of a disk.
#![tactic(auto)]

mod calls;
mod carrying;
mod events;
mod keeping;
mod opening;
mod room;
mod running;
mod session;

pub use carrying::{Property, groups_acknowledge_what_they_put, prefixes_carry};
pub use events::{Answer, Event};
pub use session::{Session, served_answer};
