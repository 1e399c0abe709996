//! Finds where a refused image is damaged, for a person to read.
#![tactic(auto)]

mod areas;
mod damage;
mod finding;
mod headers;
mod records;
mod slots;
mod words;

pub use damage::{Damage, HeaderField, RecordOf, SlotFault};
pub use finding::{find_damage, find_older};
pub use slots::Older;
