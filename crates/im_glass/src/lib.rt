//! The full cells. One thread shows them; others read them and wait for nobody. What was shown is one list of changes.
//! Each reader has seen a prefix of it, which only grows.
#![tactic(auto)]

mod book;
mod cells;
mod copies;
mod glance;
mod pane;
mod rule;
mod sides;
mod unnamed;

pub use book::{NewBook, PaneName};
pub use glance::Glance;
pub use pane::{Pane, Told};
pub use unnamed::{Unnamed, open};
