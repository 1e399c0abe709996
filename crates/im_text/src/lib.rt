//! The texts of requests, refusals and damage, and the writing of lines.
#![tactic(auto)]

mod batches;
mod diagnosis;
mod ending;
mod erring;
mod faults;
mod lines;
mod news;
mod objects;
mod reasons;
mod replies;
mod said;
mod statuses;

pub use batches::{BATCH, Batch, put_through};
pub use diagnosis::diagnose;
pub use ending::{end, finish, put_refusal};
pub use faults::{CallFault, PathFault, Words};
pub use lines::Lines;
pub use news::{News, Progress, Warning};
pub use objects::{add_number, add_object_start, add_op_members, entry_parts, op_word};
pub use reasons::Reason;
pub use replies::{Waited, add_entry, add_op, kind_text};
pub use said::{OutputLine, Style, make_confirmed, make_words};
pub use statuses::{FAULTY, IN_USE, USELESS, strict_status};
