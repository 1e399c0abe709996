//! The thread that sends what an element asks for.
ghost use Rattle.std.specs.Prelude.{◌≡◌, true, []};
ghost use mathlib.Core.List.{IsPrefix};

use crate::intent::Intent;
use im_pipes::{FinishedInlet, Inlet};
use std::sync::Wait;

/// What a sender did.
#[derive(Drop)]
pub struct Sent {
    /// The intents that it sent, and whether it sent the end mark.
    pub finished: FinishedInlet<Intent>,
    /// Whether no intent was handed back.
    pub all: bool,
}

// Sends intents in order, until one is handed back. Returns whether none was.
fn send_each<R: Wait>(rt: &R, inlet: &mut Inlet<Intent>, intents: &[Intent]) -> bool
    requires { inlet.old.items ≡ [] }
    ensures same { inlet.new.pipe ≡ inlet.old.pipe }
    ensures contents { IsPrefix inlet.new.items intents.now }
    ensures whole { result ≡ true → inlet.new.items ≡ intents.now }
{
    for intent in intents {
        match inlet.send(rt, *intent) {
            Ok(()) => {}
            Err(_) => return false,
        }
    }
    true
}

/// Sends what an element asks for, in order, and then the end mark. It waits while the pipe is full. If an intent is
/// handed back, it sends no more of them.
pub fn send_all<R: Wait>(rt: &R, inlet: Inlet<Intent>, intents: &[Intent]) -> Sent
    requires { inlet.items ≡ [] }
    ensures same { result.finished.pipe ≡ inlet.pipe }
    ensures contents { IsPrefix result.finished.items intents.now }
    ensures whole { result.all ≡ true → result.finished.items ≡ intents.now }
{
    let mut inlet = inlet;
    let all = send_each(rt, &mut inlet, intents);
    Sent {
        finished: inlet.finish(rt),
        all,
    }
}
