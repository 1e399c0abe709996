//! The end of an element's threads.
ghost use Rattle.std.specs.Prelude.{◌≡◌, ◌≤◌, true, false, ◌⊎◌, [], length, MatchResult, Err, vec_capacity};
ghost use Rattle.im_types.specs.Types.{NoMemory};
ghost use Rattle.im_serving.specs.Elements.{AreEnded, HasSent, IsEnded};
ghost use mathlib.Core.List.{IsPrefix};

use crate::parts::Done;
use crate::running::{Pair, Running, Sends, Stopped};
use crate::sender::Sent;
use im_controller::Name;
use im_types::Refusal;
use std::thread::{PromisedHandle, Threads};

// Ends an element with `NoMemory`, since memory or a thread is missing.
fn refuse<K: Name>(done: Done<K>) -> Done<K>
    ensures { result ≡ record done { result = Err NoMemory } }
{
    let Done {
        port,
        served,
        glances,
        done: _,
    } = done;
    Done {
        port,
        served,
        glances,
        done: Err(Refusal::NoMemory),
    }
}

/// Ends an element after its server has stopped and its sender has ended. It is refused if not all was sent.
pub(crate) fn settle<K: Name>(stopped: Stopped<K>, sent: Sent) -> Done<K>
    requires { stopped.outlet.pipe ≡ sent.finished.pipe }
    ensures begins { IsPrefix stopped.outlet.items sent.finished.items }
    ensures whole { stopped.outlet.ended ≡ true → stopped.outlet.items ≡ sent.finished.items }
    ensures done { ((sent.all ≡ true) × (result ≡ stopped.done))
        ⊎ ((sent.all ≡ false) × (result ≡ record stopped.done { result = Err NoMemory })) }
{
    let Stopped { done, outlet } = stopped;
    let Sent { finished, all } = sent;
    outlet.whole(finished);
    if all { done } else { refuse(done) }
}

// Waits for the thread that sends, and returns what was sent.
fn end_sending<R: Threads>(rt: &R, sender: Result<PromisedHandle<Sent, Sends>, Sent>) -> Sent
    ensures { MatchResult sender
        (λ s. HasSent s.promise.inlet.value.pipe s.promise.intents.value.items result.finished result.all)
        (λ s. result ≡ s) }
{
    match sender {
        Ok(sender) => sender.join(rt),
        Err(sent) => sent,
    }
}

// Waits for the end of an element.
fn end<K: Name, R: Threads>(rt: &R, running: Running<K>) -> Done<K>
    ensures { IsEnded K.origin.memory K.origin.marks running result }
{
    let Running { part: _, state } = running;
    match state {
        Ok(pair) => {
            let Pair { server, sender } = pair;
            let stopped = server.join(rt);
            settle(stopped, end_sending(rt, sender))
        }
        Err(done) => done,
    }
}

/// Waits for the end of all elements. The list has room for them.
pub(crate) fn end_all<K: Name, R: Threads>(
    rt: &R,
    all: Vec<Running<K>>,
    done: Vec<Done<K>>,
) -> Vec<Done<K>>
    requires room { length all.items ≤ vec_capacity done }
    requires empty { done.items ≡ [] }
    ensures { AreEnded K.origin.memory K.origin.marks all.items result.items }
{
    let mut done = done;
    for running in all {
        done.push_reserved(end(rt, running));
    }
    done
}
