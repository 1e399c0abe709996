//! Sessions over engines on such files.

use crate::story_file::StoryFile;
use im_disk::FuseDisk;
use im_engine::Engine;
use im_session::{Answer, Event, Session};
use im_types::Refusal;

/// Begins a session with an engine, or gives back one that has failed.
pub fn begin_session(engine: Engine<FuseDisk>) -> Result<Session<FuseDisk>, Engine<FuseDisk>> {
    if engine.failed() {
        return Err(engine);
    }
    Ok(Session::of(engine))
}

impl StoryFile {
    /// Runs events by a session over the engine. `Failed` if there is no engine, or if it has failed.
    pub fn run(&mut self, events: &[Event]) -> Result<Vec<Answer>, Refusal> {
        let Some(engine) = self.engine.take() else {
            return Err(Refusal::Failed);
        };
        match begin_session(engine) {
            Ok(mut session) => {
                let answers = session.run(self.alloc, events);
                self.engine = Some(session.into_engine());
                answers
            }
            Err(engine) => {
                self.engine = Some(engine);
                Err(Refusal::Failed)
            }
        }
    }
}
