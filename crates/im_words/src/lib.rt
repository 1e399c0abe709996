//! Reads the command line of the program: what each subcommand and its options ask for. `im_program` does it.
#![tactic(auto)]

mod commands;
mod faults;
mod given;
mod help;
mod orders;
mod reading;
mod table;
mod tips;
mod words;
mod works;

pub use reading::read_words;
pub use words::{
    CommandLine, DEFAULT_CELLS, DEFAULT_ELEMENTS, DEFAULT_SLOTS, Dumping, Formatting, Inspection,
    Making, Moving, ScriptRun, Serving, Talking, WordFault, Work,
};
