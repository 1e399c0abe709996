//! A dialogue over an image: each line that is asked gets one line as its answer.
#![tactic(auto)]

mod about;
mod alike;
mod answers;
mod asking;
mod backup_name;
mod backups;
mod counting;
mod dialogue;
mod drafts;
mod explaining;
mod firsts;
mod line_part;
mod line_serving;
mod lines;
mod listing;
mod look;
mod resting;
mod saying;
mod serving;
mod showing;
mod sort;
mod talk;
mod watching;

pub use about::About;
pub use alike::same_lines_are_answered_alike;
pub use answers::{LineAnswer, add_answer};
pub use asking::{Question, read_asked};
pub use backup_name::BackupName;
pub use backups::{BackupFault, Backups, NoBackups};
pub use dialogue::dialogue_on;
pub use look::Look;
