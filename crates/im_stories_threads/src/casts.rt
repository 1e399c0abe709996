//! The ports that an act gives out, and what is told of it, line by line.

use im_controller::{Controller, Name, Port, Receipt};
use im_disk::FuseDisk;
use im_story::Saying;
use im_types::{Entry, Op, Outcome, Refusal, Waiter};
use std::alloc::Global;
use std::sync::Wait;

/// What an act works with, and what is told of it.
#[derive(Drop)]
pub struct Cast<'a, K: Name, R> {
    /// The runtime.
    pub rt: &'a R,
    /// The allocator of what the act makes.
    pub alloc: Global,
    /// The controller.
    pub controller: &'a Controller<FuseDisk, K>,
    /// The ports that came back.
    pub ports: Vec<Port<K>>,
    /// The requests of servers, and what each was last told. It is looked up at the end.
    pub told: Vec<(Waiter, Entry)>,
    /// The lines.
    pub said: Saying,
}

impl<K: Name, R: Wait> Cast<'_, K, R> {
    /// Makes the port of an element, or tells that there is none.
    pub fn port(&mut self, element: u16) -> Option<Port<K>> {
        let port = self.controller.port(self.rt, element).ok();
        self.said.either(port.is_some(), "", "  no port\n");
        port
    }

    /// Takes a port back.
    pub fn keep(&mut self, port: Port<K>) {
        keep(&mut self.ports, port, &mut self.said)
    }

    /// Notes what a request was told.
    pub fn note(&mut self, element: u16, number: u64, entry: Entry) {
        let who = Waiter { element, number };
        keep(&mut self.told, (who, entry), &mut self.said)
    }

    /// Adds a line for a call and its answer.
    pub fn tell(&mut self, call: &str, answer: Result<Outcome, Refusal>) {
        write!(self.said, "  {call}: ");
        self.said.outcome(answer);
        self.said.text("\n")
    }

    /// Submits a request, and tells its answer.
    pub fn submit(&mut self, port: &mut Port<K>, number: u64, op: Op) {
        let answer = outcome_of(&port.submit(self.rt, self.controller, number, op));
        self.tell("submit", answer)
    }
}

/// Adds an item to a list, or tells that there is no memory for it.
pub fn keep<T: Drop>(list: &mut Vec<T>, item: T, said: &mut Saying) {
    said.either(list.push(item).is_ok(), "", "  no memory\n")
}

/// Returns the outcome of a receipt's command.
pub fn outcome_of<K: Name>(answer: &Result<Receipt<K>, Refusal>) -> Result<Outcome, Refusal> {
    match answer {
        Ok(receipt) => Ok(receipt.outcome()),
        Err(refusal) => Err(*refusal),
    }
}
