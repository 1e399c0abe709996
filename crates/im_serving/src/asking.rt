//! What a server asks of its port: an operation or a confirmation, again after each turn that the full journal needs.
ghost use Rattle.std.specs.Prelude.{◌≡◌, [], ◌∷◌, IfOk, Ok};
ghost use Rattle.im_types.specs.Types.{Asks, Confirm, Commands, IsLegal};
ghost use Rattle.im_controller.specs.Lines.{EndsIn, GoesOnTo, line_of};
ghost use Rattle.im_serving.specs.{Calls.MakesOnly, Elements.StayGlanced, Told.IsToldBelow};
ghost use Rattle.im_serving.specs.Serving.{asked_line, IsAskedIn};
ghost use mathlib.Core.List.{IsPrefix};

use crate::context::Context;
use crate::gate::Gate;
use crate::glances::Glances;
use crate::numbers::ServedNumbers;
use crate::teller::Teller;
use im_controller::{Controller, Name, Port, Receipt};
use im_disk::Disk;
use im_types::{Entry, Op, Outcome, Refusal};
use std::sync::Wait;

// Returns whether it is worth asking again after this refusal. It is if the journal was full and a turn of a checkpoint
// was made.
fn help<D: Disk, K: Name, R: Wait>(
    rt: &R,
    controller: &Controller<D, K>,
    port: &mut Port<K>,
    refusal: Refusal,
) -> Result<(), Refusal>
    ensures same { port.new ≡ port.old }
{
    match refusal {
        Refusal::JournalFull => match port.help(rt, controller) {
            Ok(_) => Ok(()),
            Err(refusal) => Err(refusal),
        },
        _ => Err(refusal),
    }
}

// Returns the entry of a request's outcome.
fn entry_of(outcome: Outcome) -> Result<Entry, Refusal>
    ensures { IfOk result (λ entry. outcome ≡ Outcome.Entry entry) }
{
    match outcome {
        Outcome::Entry(entry) => Ok(entry),
        Outcome::Confirmed => Err(Refusal::Failed), // No request is answered so.
    }
}

// Asks for an operation, and asks again after each turn that the full journal needs.
fn submit<D: Disk, K: Name, R: Wait>(
    rt: &R,
    controller: &Controller<D, K>,
    port: &mut Port<K>,
    number: u64,
    op: Op,
) -> Result<Receipt<K>, Refusal>
    ensures element { port.new.element ≡ port.old.element }
    ensures asked { IfOk result (λ r. r.command
        ≡ Asks (record { element = port.old.element; number = number; op = op })) }
    ensures legal { IfOk result (λ r. IsLegal K.origin.memory r.history) }
    ensures last { IfOk result (λ r. EndsIn r.history (line_of (Commands r.command) (Ok r.outcome))) }
    ensures order { IfOk result (λ r. GoesOnTo port.old.history
        (line_of (Commands r.command) (Ok r.outcome) ∷ []) port.new.history) }
    ensures longer { IsPrefix port.old.history port.new.history }
    ensures alone { MakesOnly K.origin.marks (λ call. call
        ≡ Commands (Asks (record { element = port.old.element; number = number; op = op }))) port.old port.new }
{
    for _ in rt.forever() {
        match port.submit(rt, controller, number, op) {
            Ok(receipt) => return Ok(receipt),
            Err(refusal) => match help(rt, controller, port, refusal) {
                Ok(()) => {}
                Err(refusal) => return Err(refusal),
            },
        }
    }
    unreachable!()
}

/// Asks for an operation, and learns what was shown when it was answered.
pub(crate) fn ask<D: Disk, K: Name, G: Gate, T: Teller, R: Wait>(
    context: &Context<'_, D, K, G, T, R>,
    port: &mut Port<K>,
    glances: &mut Glances<K>,
    number: u64,
    op: Op,
) -> Result<Entry, Refusal>
    ensures element { port.new.element ≡ port.old.element }
    ensures told { IfOk result (IsAskedIn K.origin.memory port.old.element number op) }
    ensures order { IfOk result (λ entry. GoesOnTo port.old.history
        (asked_line port.old.element number op entry ∷ []) port.new.history) }
    ensures longer { IsPrefix port.old.history port.new.history }
    ensures alone { MakesOnly K.origin.marks (λ call. call
        ≡ Commands (Asks (record { element = port.old.element; number = number; op = op }))) port.old port.new }
    ensures seen { StayGlanced K.origin.memory port.old.element glances.old glances.new }
    ensures made { glances.new.made ≡ glances.old.made }
{
    match submit(context.rt, context.controller, port, number, op) {
        Ok(receipt) => match entry_of(glances.learn(&receipt)) {
            Ok(entry) => {
                glances.last = Some(number);
                Ok(entry)
            }
            Err(refusal) => Err(refusal),
        },
        Err(refusal) => Err(refusal),
    }
}

/// Confirms all entries below a number, and asks again after each turn that the full journal needs. Those of earlier
/// scripts were told before.
pub(crate) fn confirm<D: Disk, K: Name, R: Wait>(
    rt: &R,
    controller: &Controller<D, K>,
    port: &mut Port<K>,
    served: &ServedNumbers,
    upto: u64,
) -> Result<Receipt<K>, Refusal>
    requires told { IsToldBelow upto served.now }
    ensures element { port.new.element ≡ port.old.element }
    ensures longer { IsPrefix port.old.history port.new.history }
    ensures alone { MakesOnly K.origin.marks (λ call. call ≡ Commands (Confirm port.old.element upto)) port.old
        port.new }
{
    for _ in rt.forever() {
        match port.confirm(rt, controller, upto) {
            Ok(receipt) => return Ok(receipt),
            Err(refusal) => match help(rt, controller, port, refusal) {
                Ok(()) => {}
                Err(refusal) => return Err(refusal),
            },
        }
    }
    unreachable!()
}
