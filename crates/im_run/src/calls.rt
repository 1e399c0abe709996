//! The calls of the elements' servers.
ghost use Rattle.std.specs.Prelude.{◌≡◌, true, [], if◌then◌else◌};

use im_controller::{Recording, Traced};
use std::marker::Model;

/// The calls of the elements' servers with their answers, in the order of the lock; there are none if no server
/// started. Contracts see them, recorded or not.
#[derive(Drop)]
pub(crate) struct Calls {
    recording: Option<Recording>,
}

impl Model for Calls {
    ghost use Rattle.im_trace.specs.Ends.{RecordingState};
    ghost use Rattle.im_run.specs.Tracing.{calls_in};

    ghost Value = { RecordingState };

    ghost view = { λ c. calls_in c.recording };
}

impl Calls {
    // No server started.
    pub(crate) fn new() -> Calls
        ensures items { result.items ≡ [] }
        ensures recorded { result.recorded ≡ true }
    {
        Calls { recording: None }
    }

    // Those of a controller at its end.
    pub(crate) fn of(recording: Recording) -> Calls
        ensures { result ≡ recording }
    {
        Calls {
            recording: Some(recording),
        }
    }

    // Returns the calls, and none if they weren't recorded.
    pub(crate) fn as_slice(&self) -> &[Traced]
        ensures { result.now ≡ (if self.now.recorded then self.now.items else []) }
    {
        match &self.recording {
            Some(recording) => recording.as_slice(),
            None => &[],
        }
    }
}
