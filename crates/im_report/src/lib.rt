//! Prints what an image means, line by line or as objects of JSON, and statistics of it.
#![tactic(auto)]

mod counting;
mod figures;
mod filtering;
mod inspecting;
mod look;
mod notation;
mod report;
mod report_json;
mod stat;
mod stat_json;
mod told;

pub use counting::{count_queues, count_windows};
pub use figures::{QueueFigures, WindowFigures};
pub use inspecting::{inspect_on, look_on};
pub use look::{Filter, Span, View};
