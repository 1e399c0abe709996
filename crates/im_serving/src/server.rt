//! The thread that serves what an element asks for.
ghost use Rattle.std.specs.Prelude.{◌≡◌, ◌+◌, ◌≤◌, false, List, [], ◌∷◌, ◌++◌, length, OnOk, OnErr};
ghost use Rattle.im_serving.specs.{Calls.MakesNext, Calls.MakesOwn, Told.TellsEarlier};
ghost use Rattle.im_serving.specs.Elements.{deeds_of, ServesOn, StayGlanced};
ghost use Rattle.im_serving.specs.Serving.{AreDone, HasAsked, Looked, ops_of};
ghost use mathlib.Core.List.{IsPrefix};

use crate::asking::ask;
use crate::awaiting::{await_rest, make_place};
use crate::context::Context;
use crate::gate::Gate;
use crate::glances::Glances;
use crate::intent::Intent;
use crate::numbers::ServedNumbers;
use crate::teller::Teller;
use im_controller::{Name, Port};
use im_disk::Disk;
use im_pipes::{Outlet, Received};
use im_types::{Op, Refusal};
use std::sync::Wait;

// Serves an operation under the next number. It makes room for the entry before it asks.
fn serve_one<D: Disk, K: Name, G: Gate, T: Teller, R: Wait>(
    context: &mut Context<'_, D, K, G, T, R>,
    port: &mut Port<K>,
    served: &mut ServedNumbers,
    glances: &mut Glances<K>,
    op: Op,
) -> Result<(), Refusal>
    ensures same { (port.new.element ≡ port.old.element) × (served.new.first ≡ served.old.first)
        × (glances.new.made.items ≡ glances.old.made.items) }
    ensures asked { OnOk result (HasAsked port.old.history port.new.history port.old.element served.old.first op
        served.old.entries.items served.new.entries.items) }
    ensures count { OnOk result (length served.new.entries.items ≡ length served.old.entries.items + 1) }
    ensures few { length served.new.entries.items ≤ length served.old.entries.items + 1 }
    ensures kept { OnErr result (Looked port.old.history port.new.history port.old.element served.old.first
        served.old.entries.items served.new.entries.items) }
    ensures seen { StayGlanced K.origin.memory port.old.element glances.old glances.new }
    ensures told { TellsEarlier port.old.history port.new.history port.old.element served.old served.new
        (T.told context.old.teller) (T.told context.new.teller) }
    ensures alone { MakesNext K.origin.marks served.old served.new op port.old port.new }
{
    match make_place(context, port, served, glances) {
        Ok(()) => {}
        Err(refusal) => return Err(refusal),
    }
    if served.entries.reserve(1).is_err() {
        return Err(Refusal::NoMemory);
    }
    let number = served.number()?;
    context.gate.before(context.rt, served.element, number);
    let answer = ask(context, port, glances, number, op);
    context.gate.after(context.rt, served.element, number);
    match answer {
        Ok(entry) => {
            served.entries.push_reserved(entry);
            Ok(())
        }
        Err(refusal) => Err(refusal),
    }
}

// Serves what a line of the element asks for.
fn serve_intent<D: Disk, K: Name, G: Gate, T: Teller, R: Wait>(
    context: &mut Context<'_, D, K, G, T, R>,
    port: &mut Port<K>,
    served: &mut ServedNumbers,
    glances: &mut Glances<K>,
    intent: Intent,
) -> Result<(), Refusal>
    ensures element { (port.new.element ≡ port.old.element) × (served.new.first ≡ served.old.first) }
    ensures done { OnOk result ((before : List Intent)
        → AreDone port.old served.old glances.old.made.items before
        → AreDone port.new served.new glances.new.made.items (before ++ intent ∷ [])) }
    ensures count { OnOk result (length served.new.entries.items + length glances.new.made.items
        ≡ length served.old.entries.items + length glances.old.made.items + 1) }
    ensures few { length served.new.entries.items + length glances.new.made.items
        ≤ length served.old.entries.items + length glances.old.made.items + 1 }
    ensures kept { OnErr result ((before : List Intent)
        → AreDone port.old served.old glances.old.made.items before
        → AreDone port.new served.new glances.new.made.items before) }
    ensures seen { StayGlanced K.origin.memory port.old.element glances.old glances.new }
    ensures told { TellsEarlier port.old.history port.new.history port.old.element served.old served.new
        (T.told context.old.teller) (T.told context.new.teller) }
    ensures alone { (before : List Intent) → AreDone port.old served.old glances.old.made.items before
        → MakesOwn K.origin.marks served.old served.new (ops_of (before ++ intent ∷ [])) port.old port.new }
{
    match intent {
        Intent::Request(op) => serve_one(context, port, served, glances, op),
        Intent::Glance(address) => glances.read(served.entries.len(), address),
    }
}

// Serves what comes out of the pipe, up to its end. It is refused if no end mark comes.
fn serve_all<D: Disk, K: Name, G: Gate, T: Teller, R: Wait>(
    context: &mut Context<'_, D, K, G, T, R>,
    port: &mut Port<K>,
    served: &mut ServedNumbers,
    glances: &mut Glances<K>,
    outlet: &mut Outlet<Intent>,
) -> Result<(), Refusal>
    requires { outlet.old.ended ≡ false }
    ensures done { ServesOn K.origin.memory K.origin.marks (deeds_of port.old served.old glances.old)
        (deeds_of port.new served.new glances.new) result outlet.old outlet.new }
    ensures open { OnErr result (outlet.new.ended ≡ false) }
    ensures told { TellsEarlier port.old.history port.new.history port.old.element served.old served.new
        (T.told context.old.teller) (T.told context.new.teller) }
{
    let rt = context.rt;
    for _ in rt.forever() {
        match outlet.receive(rt) {
            Received::Item(intent) => {
                match serve_intent(context, port, served, glances, intent) {
                    Ok(()) => {}
                    Err(refusal) => return Err(refusal),
                }
            }
            Received::End => return Ok(()),
            Received::Gone => return Err(Refusal::NoMemory),
        }
    }
    unreachable!()
}

// Receives up to the pipe's end and serves nothing, so that the sender returns.
fn drain<R: Wait>(rt: &R, outlet: &mut Outlet<Intent>)
    requires { outlet.old.ended ≡ false }
    ensures same { outlet.new.pipe ≡ outlet.old.pipe }
    ensures begins { IsPrefix outlet.old.items outlet.new.items }
    ensures more { length outlet.old.items ≤ length outlet.new.items }
{
    for _ in rt.forever() {
        match outlet.receive(rt) {
            Received::Item(_) => {}
            Received::End => return,
            Received::Gone => return,
        }
    }
    unreachable!()
}

// Serves what an element asks for, up to the pipe's end. It doesn't retire the port.
fn serve_to_end<D: Disk, K: Name, G: Gate, T: Teller, R: Wait>(
    context: &mut Context<'_, D, K, G, T, R>,
    port: &mut Port<K>,
    served: &mut ServedNumbers,
    glances: &mut Glances<K>,
    outlet: &mut Outlet<Intent>,
) -> Result<(), Refusal>
    requires { outlet.old.ended ≡ false }
    ensures done { ServesOn K.origin.memory K.origin.marks (deeds_of port.old served.old glances.old)
        (deeds_of port.new served.new glances.new) result outlet.old outlet.new }
    ensures told { TellsEarlier port.old.history port.new.history port.old.element served.old served.new
        (T.told context.old.teller) (T.told context.new.teller) }
{
    match serve_all(context, port, served, glances, outlet) {
        Ok(()) => await_rest(context.rt, context.controller, port, served),
        Err(refusal) => {
            drain(context.rt, outlet);
            Err(refusal)
        }
    }
}

/// Serves what an element asks for as it comes out of a pipe: its operations through its port, each under the next
/// number, and its glances in their place among them. The gate is called before and after each operation.
///
/// If a request finds its window full, the server first waits for the oldest entry that is kept, and confirms all
/// entries before the first that still waits. If the journal is full, it makes a turn of a checkpoint and asks again.
/// After the last request it waits, in order, for each of its requests that is still kept. At the end it retires its
/// port.
///
/// An entry that an earlier script left is told to the teller before it is confirmed: its answer, as it was found. What
/// is told is one number after another, so nothing is left out. No entry of an earlier script is confirmed untold, if
/// none was when the server began.
///
/// It leaves at most four lines in the trace for each request, and one for each entry that was kept before the first.
/// Whatever is marked, its port is told marked lines of its own calls alone: the operations that it received, under
/// their numbers, collects, and confirmations.
///
/// A glance waits for nobody. Its value comes after all that was shown when the element's last request was answered,
/// and maybe after more.
///
/// It is refused with what the port refuses. It returns `JournalFull` if no turn makes room, `PaneGone` if the pane has
/// ended, and `NoMemory` if there is no room for one more answer. After a refusal it serves nothing more, but it
/// receives until the pipe ends, so that its sender returns. It also returns `NoMemory` if the pipe ends without an end
/// mark, as it does if its sender is gone. What was done by then is a prefix of what was received.
///
/// The i-th entry is the answer to the i-th operation that was received, under the i-th number from the first on, or
/// what was found under that number later. The lines of the operations stand in the trace, as far as the port has seen
/// it, in their order.
pub fn serve_element<D: Disk, K: Name, G: Gate, T: Teller, R: Wait>(
    context: &mut Context<'_, D, K, G, T, R>,
    port: &mut Port<K>,
    served: &mut ServedNumbers,
    glances: &mut Glances<K>,
    outlet: &mut Outlet<Intent>,
) -> Result<(), Refusal>
    requires { outlet.old.ended ≡ false }
    ensures done { ServesOn K.origin.memory K.origin.marks (deeds_of port.old served.old glances.old)
        (deeds_of port.new served.new glances.new) result outlet.old outlet.new }
    ensures told { TellsEarlier port.old.history port.new.history port.old.element served.old served.new
        (T.told context.old.teller) (T.told context.new.teller) }
{
    let done = serve_to_end(context, port, served, glances, outlet);
    port.retire(context.rt, context.controller);
    done
}
