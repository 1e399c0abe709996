//! An observer that keeps what it is told.

use im_story::Saying;
use im_text::{News, Progress};
use im_types::Observer;
use std::alloc::Global;

/// What was told besides the output, a line each.
#[derive(Drop)]
pub struct ObserverNotes {
    /// The lines.
    pub told: Saying,
    /// How far the work came, as it was last told.
    pub progress: Option<Progress>,
}

impl ObserverNotes {
    /// Starts with nothing told.
    pub fn new(alloc: Global) -> ObserverNotes {
        ObserverNotes {
            told: Saying::new(alloc),
            progress: None,
        }
    }
}

impl Observer<News> for ObserverNotes {
    fn tell(&mut self, news: News) {
        match news {
            News::Answered(waited) => {
                write!(self.told, "{}.{} now ", waited.element, waited.number);
                self.told.entry(waited.entry);
                self.told.text("\n")
            }
            News::Confirmed(it) => {
                write!(self.told, "confirmed {}.{} ", it.element, it.number);
                self.told.entry(it.entry);
                self.told.text("\n")
            }
            News::Progressed(progress) => self.progress = Some(progress),
            News::Refused(reason) => writeln!(self.told, "{reason}"),
            News::Warned(warning) => writeln!(self.told, "{warning}"),
        }
    }
}
