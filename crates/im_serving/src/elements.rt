//! All elements at once. Each has one thread that sends and one that serves, beside the thread that keeps checkpoints.
ghost use Rattle.std.specs.Prelude.{◌≡◌, ◌≤◌, [], length, IfOk, vec_capacity};
ghost use Rattle.im_serving.specs.Elements.{AreEnded};

use crate::context::Context;
use crate::ending::end_all;
use crate::gate::Gate;
use crate::host::Host;
use crate::parts::{Done, Part};
use crate::running::Running;
use crate::starting::begin_all;
use crate::teller::Teller;
use im_controller::{Controller, Name, Standing};
use im_disk::Disk;
use im_types::{Observer, Refusal};
use std::alloc::{AllocError, Global};
use std::sync::Wait;
use std::thread;
use std::thread::{JoinHandle, Scope};

// Elements that are to be served, with room for those that run and for those that have ended.
#[derive(Drop)]
struct Crew<K: Name> {
    parts: Vec<Part<K>>,
    all: Vec<Running<K>>,
    done: Vec<Done<K>>,
}

// Keeps checkpoints until the controller ends, and tells an observer how things stand.
fn keep_and_tell<D: Disk, K: Name, V: Observer<Standing> + Drop, R: Wait>(
    rt: &R,
    controller: &Controller<D, K>,
    mut watcher: V,
) -> Result<(), Refusal> {
    controller.keep_checkpoints_and_tell(rt, &mut watcher)
}

// Starts the thread that keeps checkpoints, if it can be made.
fn keep<
    's,
    E,
    D: Disk + Drop + Send,
    K: Name + Send + Sync,
    V: Observer<Standing> + Copy + Send + 's,
    R: Host,
>(
    rt: &'s R,
    scope: &Scope<'s, E>,
    controller: &'s Controller<D, K>,
    watcher: V,
) -> Option<JoinHandle<Result<(), Refusal>>> {
    match scope.spawn(move || keep_and_tell(rt, controller, watcher)) {
        Ok(keeper) => Some(keeper),
        Err(_) => None,
    }
}

// Serves all elements with threads of a scope. The lists have room for them.
fn serve_within<
    's,
    E,
    D: Disk + Drop + Send,
    K: Name + Send + Sync,
    G: Gate + Sync,
    V: Observer<Standing> + Teller + Copy + Send + 's,
    R: Host,
>(
    context: &Context<'s, D, K, G, V, R>,
    alloc: Global,
    scope: &Scope<'s, E>,
    crew: Crew<K>,
) -> Vec<Done<K>>
    requires all { (length crew.parts.items ≤ vec_capacity crew.all) × (crew.all.items ≡ []) }
    requires done { (length crew.parts.items ≤ vec_capacity crew.done) × (crew.done.items ≡ []) }
    ensures { AreEnded K.origin.memory K.origin.marks crew.parts.items result.items }
{
    let Crew { parts, all, done } = crew;
    let keeper = keep(context.rt, scope, context.controller, context.teller);
    let all = begin_all(context, alloc, scope, parts, all);
    let done = end_all(context.rt, all, done);
    context.controller.end(context.rt);
    if let Some(keeper) = keeper {
        let _kept = keeper.join(context.rt);
    }
    done
}

/// Serves all elements at once. Each has a thread that sends what it asks for and one that serves it. Beside them runs
/// the thread that keeps checkpoints, which tells an observer how things stand. Without that thread, the servers make
/// the turns that they need. Each server tells a copy of that observer the answers of earlier scripts, before it
/// confirms them.
///
/// The ports come back in the order of the parts, each retired. If one of an element's threads can't be made, the
/// element is refused with `NoMemory`, and nothing of it is served.
///
/// Each port comes back with what was done of what its part asks for: a prefix of it, in order, with each request's own
/// answer as [`serve_element`] says, and each glance in its place. It is all of it if nothing was refused.
///
/// Returns `AllocError` if there is no room for a list of the elements. Then no thread has started, and the ports are
/// dropped with the parts, not retired.
pub fn serve_elements<
    D: Disk + Drop + Send,
    K: Name + Send + Sync,
    G: Gate + Sync,
    V: Observer<Standing> + Teller + Copy + Send,
    R: Host,
>(
    rt: &R,
    alloc: Global,
    controller: &Controller<D, K>,
    gate: &G,
    watcher: V,
    parts: Vec<Part<K>>,
) -> Result<Vec<Done<K>>, AllocError>
    ensures ends { IfOk result (λ all. AreEnded K.origin.memory K.origin.marks parts.items all.items) }
{
    let all = Vec::with_capacity(alloc, parts.len())?;
    let done = Vec::with_capacity(alloc, parts.len())?;
    let crew = Crew { parts, all, done };
    Ok(thread::scope(
        thread::scope_env(),
        rt,
        move |scope| -> Vec<Done<K>>
            requires all { (length crew.parts.items ≤ vec_capacity crew.all) × (crew.all.items ≡ []) }
            requires done { (length crew.parts.items ≤ vec_capacity crew.done) × (crew.done.items ≡ []) }
            ensures { AreEnded K.origin.memory K.origin.marks crew.parts.items result.items }
        {
            let context = Context {
                rt,
                controller,
                gate,
                teller: watcher,
            };
            serve_within(&context, alloc, scope, crew)
        },
    ))
}
