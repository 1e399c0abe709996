//! The start of an element's threads.
ghost use Rattle.std.specs.Prelude.{◌≡◌, ◌≤◌, false, [], length, IfOk, IfErr, MatchResult, vec_capacity};
ghost use Rattle.im_pipes.specs.Ends.{AreNewEnds};
ghost use Rattle.im_serving.specs.Elements.{HasSent, HasStopped, IsUnserved};

use crate::context::Context;
use crate::ending::settle;
use crate::gate::Gate;
use crate::host::Host;
use crate::intent::Intent;
use crate::parts::{Done, Part, ServerStart};
use crate::running::{Pair, Running, Sends, Serves, Stopped};
use crate::sender::{Sent, send_all};
use crate::server::serve_element;
use crate::teller::Teller;
use im_controller::{Controller, Name};
use im_disk::Disk;
use im_pipes::{Inlet, Outlet, pipe};
use im_types::Refusal;
use std::alloc::Global;
use std::snapshot::Snapshot;
use std::sync::atomic::{AtomicBool, Ordering};
use std::sync::{Arc, Wait};
use std::thread::{PromisedHandle, Scope};

/// How many messages a pipe holds.
pub const PIPE: usize = 8;

// Puts together what a server uses.
fn context_of<'a, D: Disk, K: Name, G, T, R>(
    rt: &'a R,
    controller: &'a Controller<D, K>,
    company: (&'a G, T),
) -> Context<'a, D, K, G, T, R> {
    let (gate, teller) = company;
    Context {
        rt,
        controller,
        gate,
        teller,
    }
}

// Serves an element from its end of the pipe. Its company is the gate and its teller.
fn serve_part<D: Disk, K: Name, G: Gate, T: Teller + Copy, R: Wait>(
    rt: &R,
    controller: &Controller<D, K>,
    company: (&G, T),
    server: ServerStart<K>,
    outlet: Outlet<Intent>,
) -> Stopped<K>
    requires open { outlet.ended ≡ false }
    requires empty { outlet.items ≡ [] }
    ensures same { result.outlet.pipe ≡ outlet.pipe }
    ensures stopped { HasStopped K.origin.memory K.origin.marks server result.done result.outlet }
{
    let ServerStart {
        mut port,
        mut served,
        mut glances,
    } = server;
    let mut outlet = outlet;
    let mut context = context_of(rt, controller, company);
    let done = serve_element(
        &mut context,
        &mut port,
        &mut served,
        &mut glances,
        &mut outlet,
    );
    Stopped {
        done: Done {
            port,
            served,
            glances,
            done,
        },
        outlet,
    }
}

// Sends nothing but the end mark.
fn send_none<R: Wait>(rt: &R, inlet: Inlet<Intent>) -> Sent
    ensures same { result.finished.pipe ≡ inlet.pipe }
    ensures none { result.finished.items ≡ inlet.items }
    ensures all { result.all ≡ false }
{
    Sent {
        finished: inlet.finish(rt),
        all: false,
    }
}

// Sends what an element asks for, if that is still wanted.
fn send_intents<R: Wait>(
    rt: &R,
    inlet: Inlet<Intent>,
    intents: Vec<Intent>,
    wanted: Arc<AtomicBool, Global>,
) -> Sent
    requires { inlet.items ≡ [] }
    ensures { HasSent inlet.pipe intents.items result.finished result.all }
{
    if wanted.load(Ordering::SeqCst) {
        send_all(rt, inlet, intents.as_slice())
    } else {
        send_none(rt, inlet)
    }
}

// Ends an element for which there is no pipe.
fn give_up<D: Disk, K: Name, R: Wait>(
    rt: &R,
    controller: &Controller<D, K>,
    server: ServerStart<K>,
) -> Done<K>
    ensures { IsUnserved K.origin.memory K.origin.marks server result }
{
    let ServerStart {
        mut port,
        served,
        glances,
    } = server;
    port.retire(rt, controller);
    Done {
        port,
        served,
        glances,
        done: Err(Refusal::NoMemory),
    }
}

// Starts the thread that sends what an element asks for. If it can't be made, only the end mark is sent.
fn begin_sending<'s, E, R: Host>(
    rt: &'s R,
    alloc: Global,
    scope: &Scope<'s, E>,
    inlet: Inlet<Intent>,
    intents: Vec<Intent>,
) -> Result<PromisedHandle<Sent, Sends>, Sent>
    requires { inlet.items ≡ [] }
    ensures { MatchResult result
        (λ s. (s.promise.inlet.value.pipe ≡ inlet.pipe) × (s.promise.intents.value.items ≡ intents.items))
        (λ s. HasSent inlet.pipe intents.items s.finished s.all) }
{
    let Ok(wanted) = Arc::new(alloc, AtomicBool::new(true)) else {
        return Err(send_none(rt, inlet));
    };
    let Ok(theirs) = Arc::try_clone(&wanted) else {
        return Err(send_none(rt, inlet));
    };
    let sends = Sends {
        inlet: Snapshot::of(&inlet),
        intents: Snapshot::of(&intents),
    };
    match scope.spawn_with(sends, move || send_intents(rt, inlet, intents, theirs)) {
        Ok(sender) => Ok(sender),
        Err(refused) => {
            wanted.store(false, Ordering::SeqCst);
            Err((refused.value)())
        }
    }
}

// Starts the thread that serves an element. If it can't be made, the pipe is ended; then the server runs here, finds
// nothing to serve and retires.
fn begin_serving<
    's,
    E,
    D: Disk + Drop + Send,
    K: Name + Send + Sync,
    G: Gate + Sync,
    T: Teller + Copy + Send + 's,
    R: Host,
>(
    context: &Context<'s, D, K, G, T, R>,
    scope: &Scope<'s, E>,
    server: ServerStart<K>,
    inlet: Inlet<Intent>,
    outlet: Outlet<Intent>,
) -> Result<(PromisedHandle<Stopped<K>, Serves<K>>, Inlet<Intent>), Done<K>>
    requires { AreNewEnds inlet outlet }
    ensures ok { IfOk result (λ r. (r.0.promise.server.value ≡ server)
        × (r.0.promise.outlet.value.pipe ≡ inlet.pipe) × (r.1 ≡ inlet)) }
    ensures err { IfErr result (λ done. IsUnserved K.origin.memory K.origin.marks server done) }
{
    let rt = context.rt;
    let controller = context.controller;
    let company = (context.gate, context.teller);
    let serves = Serves {
        server: Snapshot::of(&server),
        outlet: Snapshot::of(&outlet),
    };
    match scope.spawn_with(
        serves,
        move || serve_part(rt, controller, company, server, outlet),
    ) {
        Ok(thread) => Ok((thread, inlet)),
        Err(refused) => {
            let sent = send_none(rt, inlet);
            Err(settle((refused.value)(), sent))
        }
    }
}

// Starts to serve an element, with two threads.
fn begin<
    's,
    E,
    D: Disk + Drop + Send,
    K: Name + Send + Sync,
    G: Gate + Sync,
    T: Teller + Copy + Send + 's,
    R: Host,
>(
    context: &Context<'s, D, K, G, T, R>,
    alloc: Global,
    scope: &Scope<'s, E>,
    part: Part<K>,
) -> Running<K>
    ensures { result ≡ part }
{
    let asked = Snapshot::of(&part);
    let (server, intents) = part.split();
    let Ok((inlet, outlet)) = pipe(alloc, PIPE) else {
        return Running {
            part: asked,
            state: Err(give_up(context.rt, context.controller, server)),
        };
    };
    match begin_serving(context, scope, server, inlet, outlet) {
        Ok((server, inlet)) => Running {
            part: asked,
            state: Ok(Pair {
                server,
                sender: begin_sending(context.rt, alloc, scope, inlet, intents),
            }),
        },
        Err(done) => Running {
            part: asked,
            state: Err(done),
        },
    }
}

/// Starts to serve all elements. The list has room for them.
pub(crate) fn begin_all<
    's,
    E,
    D: Disk + Drop + Send,
    K: Name + Send + Sync,
    G: Gate + Sync,
    T: Teller + Copy + Send + 's,
    R: Host,
>(
    context: &Context<'s, D, K, G, T, R>,
    alloc: Global,
    scope: &Scope<'s, E>,
    parts: Vec<Part<K>>,
    all: Vec<Running<K>>,
) -> Vec<Running<K>>
    requires room { length parts.items ≤ vec_capacity all }
    requires empty { all.items ≡ [] }
    ensures { result.items ≡ parts.items }
{
    let mut all = all;
    for part in parts {
        let running = begin(context, alloc, scope, part);
        all.push_reserved(running);
    }
    all
}
