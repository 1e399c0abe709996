//! What a server waits for: an answer, a place in its window, and all that it still keeps.
ghost use Rattle.std.specs.Prelude.{◌≡◌, []};
ghost use Rattle.im_serving.specs.{Calls.MakesOwn, Elements.StayGlanced, Serving.Looked};
ghost use Rattle.im_serving.specs.Told.{AreSameNumbers, TellsEarlier};

use crate::asking::confirm;
use crate::context::Context;
use crate::glances::Glances;
use crate::numbers::ServedNumbers;
use crate::teller::Teller;
use crate::telling::learn;
use im_controller::{Controller, Name, Port};
use im_disk::Disk;
use im_types::{Entry, Refusal, WINDOW};
use std::sync::Wait;

// Waits for the answer under a number, and notes it. It asks nothing if the answer was told.
fn await_one<D: Disk, K: Name, R: Wait>(
    rt: &R,
    controller: &Controller<D, K>,
    port: &mut Port<K>,
    served: &mut ServedNumbers,
    number: u64,
) -> Result<(), Refusal>
    ensures element { port.new.element ≡ port.old.element }
    ensures first { served.new.first ≡ served.old.first }
    ensures same { AreSameNumbers served.old served.new }
    ensures looked { Looked port.old.history port.new.history port.old.element served.old.first
        served.old.entries.items served.new.entries.items }
    ensures alone { MakesOwn K.origin.marks served.old served.new [] port.old port.new }
{
    if served.is_told(number) {
        return Ok(());
    }
    match port.await_answer(rt, controller, number) {
        Ok(found) => {
            served.note(number, found.entry());
            Ok(())
        }
        Err(refusal) => Err(refusal),
    }
}

// Waits for the answer under the oldest number that is kept, and notes it. It asks nothing if the answer was told.
fn await_oldest<D: Disk, K: Name, G, T: Teller, R: Wait>(
    context: &mut Context<'_, D, K, G, T, R>,
    port: &mut Port<K>,
    served: &mut ServedNumbers,
) -> Result<(), Refusal>
    ensures element { port.new.element ≡ port.old.element }
    ensures first { served.new.first ≡ served.old.first }
    ensures looked { Looked port.old.history port.new.history port.old.element served.old.first
        served.old.entries.items served.new.entries.items }
    ensures alone { MakesOwn K.origin.marks served.old served.new [] port.old port.new }
    ensures told { TellsEarlier port.old.history port.new.history port.old.element served.old served.new
        (T.told context.old.teller) (T.told context.new.teller) }
{
    let number = served.base;
    if served.is_told(number) {
        return Ok(());
    }
    match port.await_answer(context.rt, context.controller, number) {
        Ok(found) => {
            learn(&mut context.teller, served, number, found.entry());
            Ok(())
        }
        Err(refusal) => Err(refusal),
    }
}

// Returns whether a number is answered, and notes the answer. It asks nothing if the answer was told.
fn is_answered<D: Disk, K: Name, G, T: Teller, R: Wait>(
    context: &mut Context<'_, D, K, G, T, R>,
    port: &mut Port<K>,
    served: &mut ServedNumbers,
    number: u64,
) -> Result<bool, Refusal>
    ensures element { port.new.element ≡ port.old.element }
    ensures first { served.new.first ≡ served.old.first }
    ensures looked { Looked port.old.history port.new.history port.old.element served.old.first
        served.old.entries.items served.new.entries.items }
    ensures alone { MakesOwn K.origin.marks served.old served.new [] port.old port.new }
    ensures told { TellsEarlier port.old.history port.new.history port.old.element served.old served.new
        (T.told context.old.teller) (T.told context.new.teller) }
{
    if served.is_told(number) {
        return Ok(true);
    }
    match port.collect(context.rt, context.controller, number) {
        Ok(found) => {
            let entry = found.entry();
            learn(&mut context.teller, served, number, entry);
            Ok(entry != Entry::Waiting)
        }
        Err(refusal) => Err(refusal),
    }
}

// Waits for the oldest entry that is kept, and goes through the entries after it. Returns the number of the first that
// still waits, or the next request's number if none does. The answers of earlier scripts are told.
fn first_waiting<D: Disk, K: Name, G, T: Teller, R: Wait>(
    context: &mut Context<'_, D, K, G, T, R>,
    port: &mut Port<K>,
    served: &mut ServedNumbers,
) -> Result<u64, Refusal>
    ensures element { port.new.element ≡ port.old.element }
    ensures first { served.new.first ≡ served.old.first }
    ensures looked { Looked port.old.history port.new.history port.old.element served.old.first
        served.old.entries.items served.new.entries.items }
    ensures alone { MakesOwn K.origin.marks served.old served.new [] port.old port.new }
    ensures told { TellsEarlier port.old.history port.new.history port.old.element served.old served.new
        (T.told context.old.teller) (T.told context.new.teller) }
{
    let base = served.base;
    match await_oldest(context, port, served) {
        Ok(()) => {}
        Err(refusal) => return Err(refusal),
    }
    for number in base.saturating_add(1)..served.next() {
        match is_answered(context, port, served, number) {
            Ok(true) => {}
            Ok(false) => return Ok(number),
            Err(refusal) => return Err(refusal),
        }
    }
    Ok(served.next())
}

/// Makes a place in the window for the next request. If the window is full, it waits for the oldest entry, and confirms
/// all entries before the first that still waits. Before that it tells those that are of earlier scripts.
pub(crate) fn make_place<D: Disk, K: Name, G, T: Teller, R: Wait>(
    context: &mut Context<'_, D, K, G, T, R>,
    port: &mut Port<K>,
    served: &mut ServedNumbers,
    glances: &mut Glances<K>,
) -> Result<(), Refusal>
    ensures element { port.new.element ≡ port.old.element }
    ensures first { served.new.first ≡ served.old.first }
    ensures looked { Looked port.old.history port.new.history port.old.element served.old.first
        served.old.entries.items served.new.entries.items }
    ensures alone { MakesOwn K.origin.marks served.old served.new [] port.old port.new }
    ensures told { TellsEarlier port.old.history port.new.history port.old.element served.old served.new
        (T.told context.old.teller) (T.told context.new.teller) }
    ensures seen { StayGlanced K.origin.memory port.old.element glances.old glances.new }
    ensures made { glances.new.made ≡ glances.old.made }
{
    if served.next().saturating_sub(served.base) < WINDOW {
        return Ok(());
    }
    let waiting = match first_waiting(context, port, served) {
        Ok(waiting) => waiting,
        Err(refusal) => return Err(refusal),
    };
    let upto = served.confirmable(waiting);
    match confirm(context.rt, context.controller, port, served, upto) {
        Ok(receipt) => {
            let _confirmed = glances.learn(&receipt);
            served.base = upto;
            Ok(())
        }
        Err(refusal) => Err(refusal),
    }
}

/// Waits, in order, for the answer to each of the server's own requests that is still kept.
pub(crate) fn await_rest<D: Disk, K: Name, R: Wait>(
    rt: &R,
    controller: &Controller<D, K>,
    port: &mut Port<K>,
    served: &mut ServedNumbers,
) -> Result<(), Refusal>
    ensures element { port.new.element ≡ port.old.element }
    ensures first { served.new.first ≡ served.old.first }
    ensures same { AreSameNumbers served.old served.new }
    ensures looked { Looked port.old.history port.new.history port.old.element served.old.first
        served.old.entries.items served.new.entries.items }
    ensures alone { MakesOwn K.origin.marks served.old served.new [] port.old port.new }
{
    for number in served.base.max(served.first)..served.next() {
        match await_one(rt, controller, port, served, number) {
            Ok(()) => {}
            Err(refusal) => return Err(refusal),
        }
    }
    Ok(())
}
