//! The engine: a memory that a disk keeps. A command is answered after the disk has it. A crash at any moment leaves a
//! file that means the memory after a prefix of the accepted commands.
#![tactic(auto)]

mod ahead;
mod apart;
mod chain;
mod emptying;
mod engine;
mod format;
mod grouping;
mod groups;
mod laws;
mod looking;
mod open;
mod whole;

pub use ahead::copy_members;
pub use apart::Group;
pub use emptying::Empties;
pub use engine::Engine;
pub use groups::{are_apart, commands_of, refuse_all};
pub use laws::{files_mean_one_thing, new_images_mean_the_empty_memory, steps_tell_of_no_failure};
