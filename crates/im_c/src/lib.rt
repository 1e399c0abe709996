//! The calls for C: a memory with no disk, and an image whose writes and syncs C carries out itself.
//! `include/luntrebis.h` declares them, and docs/EMBEDDING.md says how to use them.
#![tactic(auto)]

mod asked;
mod chain;
mod front;
mod group;
mod image;
mod inspecting;
mod looking;
mod memory;
mod naming;
mod parts;
mod plain;
#[cfg(test)]
mod programs;
mod seeing;
mod seen;
mod serving;
mod sizes;
mod stat;
mod stepping;
mod version;
mod waiting;

pub use asked::{LtAdvanced, LtAsked, LtTold};
pub use chain::lt_front_advance;
pub use front::{lt_front_next, lt_front_submit, lt_held_asked};
pub use group::{lt_first_unknown, lt_serve_group};
pub use image::{LtImage, lt_close, lt_format, lt_image_length, lt_open};
pub use inspecting::lt_inspect;
pub use looking::{lt_held_collect, lt_held_count, lt_held_entry, lt_held_room, lt_held_window};
pub use memory::{LtMemory, lt_held_memory_collect, lt_memory_free, lt_memory_new, lt_memory_step};
pub use naming::{lt_answer_name, lt_refusal_name};
pub use plain::{LtBounds, LtCommand, LtLimits, LtOutcome, LtStep, LtWaiter};
pub use seeing::{lt_held_cells, lt_held_memory_cell};
pub use seen::{LtFigures, LtPresence};
pub use serving::{lt_serve, lt_sweep, lt_turn};
pub use sizes::lt_limits;
pub use stat::lt_held_stat;
pub use stepping::{lt_failed, lt_held_step_at, lt_held_step_bytes, lt_held_steps};
pub use version::{lt_layout_version, lt_version};
pub use waiting::lt_held_waiters;
