//! Items through a pipe, from one thread to another.
ghost use Rattle.std.specs.Prelude.{◌≡◌, false, []};

use im_pipes::{Inlet, Outlet, Received, pipe};
use im_serving::{Intent, PIPE};
use im_types::Refusal;
use std::alloc::Global;
use std::sync::Wait;
use std::thread;
use std::thread::{Scope, Threads};

// Sends `count` items, and the end mark.
fn send<R: Wait>(rt: &R, inlet: Inlet<Intent>, count: u32)
    requires { inlet.items ≡ [] }
{
    let mut inlet = inlet;
    for index in 0..count {
        if inlet.send(rt, Intent::Glance(index)).is_err() {
            return;
        }
    }
    let _finished = inlet.finish(rt);
}

// Receives up to the end. Returns how many items came.
fn receive<R: Wait>(rt: &R, outlet: Outlet<Intent>) -> u64
    requires { outlet.ended ≡ false }
{
    let mut outlet = outlet;
    let mut came = 0u64;
    for _ in rt.forever() {
        match outlet.receive(rt) {
            Received::Item(_) => came = came.saturating_add(1),
            Received::End | Received::Gone => return came,
        }
    }
    came
}

// Passes items to this thread from another.
fn pass_within<'s, E, R: Threads + Wait + Sync>(
    rt: &'s R,
    alloc: Global,
    scope: &Scope<'s, E>,
    count: u32,
) -> Result<u64, Refusal> {
    let (inlet, outlet) = pipe(alloc, PIPE)?;
    match scope.spawn(move || send(rt, inlet, count)) {
        Ok(_) => Ok(receive(rt, outlet)),
        Err(_) => Err(Refusal::NoMemory),
    }
}

/// Passes `count` items through a pipe. Returns how many came.
pub fn pass<R: Threads + Wait + Sync>(rt: &R, alloc: Global, count: u32) -> Result<u64, Refusal> {
    thread::scope(thread::scope_env(), rt, move |scope| {
        pass_within(rt, alloc, scope, count)
    })
}
