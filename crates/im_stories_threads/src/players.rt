//! What a thread does with its port: its role.

use crate::casts::outcome_of;
use crate::glances::{CELLS, value_at};
use im_controller::{Controller, Found, Name, Port};
use im_disk::Disk;
use im_story::asked;
use im_types::{Command, Entry, Op, Outcome, Refusal, Reply};
use std::sync::Wait;

// How often at most a call that finds the journal full is made again.
const MOST_TRIES: u32 = 200_000_000;

// An address that is in no block of the scenes.
const NO_BLOCK: u32 = 63;

// How many of these fetches come before a store, so that whoever waits for it is asleep by then.
const BEFORE: u64 = 60;

/// The answer to a fetch where no block is.
pub const NO_CELL: Result<Outcome, Refusal> = Ok(Outcome::Entry(Entry::Answered(Reply::NoCell)));

/// What a thread does with its port: requests from number 1 on, or waiting for an answer, or both.
#[derive(Clone, Copy)]
pub enum Role {
    /// This many fetches of address 0, where no block is.
    Fetches(u64),
    /// 1,002 puts, takes, stores and fetches in turn. Each sixteen are confirmed.
    Mixed,
    /// A store at each address. Each sixteen are confirmed.
    Stores,
    /// Sixty fetches of an address in no block; then it stores 7 at address 0.
    StoresLate,
    /// Stores 7 at address 0, and then waits for a take of address 1, where nobody puts.
    StoresAndStalls,
    /// Waits for the answer to number 1.
    Waits,
    /// Retires, and then waits for the answer to number 1.
    RetiresAndWaits,
}

impl Role {
    // Returns how many requests it makes, and the number for whose answer it waits then, if it waits.
    fn extent(self) -> (u64, Option<u64>) {
        match self {
            Role::Fetches(many) => (many, None),
            Role::Mixed => (1_002, None),
            Role::Stores => (u64::from(CELLS), None),
            Role::StoresLate => (BEFORE + 1, None),
            Role::StoresAndStalls => (2, Some(2)),
            Role::Waits | Role::RetiresAndWaits => (0, Some(1)),
        }
    }

    // Returns the operation of an element's request. What is mixed is a put to the M cell of the element or a take of
    // it, a store to an I cell or a fetch of it. All elements come to each I cell, at different times.
    fn op(self, element: u16, i: u64) -> Op {
        let place = u32::from(element % 16);
        let own = place.saturating_add(256);
        let shared = (i / 4).saturating_add(u64::from(place) * 16) % 256;
        match (self, i % 4) {
            (Role::Mixed, 0) => Op::Put(own, i),
            (Role::Mixed, 1) => Op::Take(own),
            (Role::Mixed, 2) => Op::Store(shared as u32, i),
            (Role::Mixed, _) => Op::Fetch(shared as u32),
            (Role::Stores, _) => {
                let at = (i % u64::from(CELLS)) as u32;
                Op::Store(at, value_at(at))
            }
            (Role::StoresLate, _) if i < BEFORE => Op::Fetch(NO_BLOCK),
            (Role::StoresAndStalls, 1) => Op::Take(1),
            (Role::StoresLate | Role::StoresAndStalls, _) => Op::Store(0, 7),
            _ => Op::Fetch(0),
        }
    }
}

/// Returns the entry that was found, as an outcome.
pub fn entry_of<K: Name>(found: Result<Found<K>, Refusal>) -> Result<Outcome, Refusal> {
    match found {
        Ok(found) => Ok(Outcome::Entry(found.entry())),
        Err(refusal) => Err(refusal),
    }
}

/// A port that plays a role.
#[derive(Drop)]
pub struct Player<K: Name> {
    /// The element.
    pub element: u16,
    /// The port.
    pub port: Port<K>,
    /// The role.
    pub role: Role,
    /// How many requests were answered as they should be: fetches where no block is with `nocell`, others in any way.
    pub accepted: u64,
    /// The answer to the last request, or to the one that was waited for.
    pub last: Result<Outcome, Refusal>,
}

impl<K: Name> Player<K> {
    // Makes a call, and makes it again while the journal is full.
    fn call<D: Disk, R: Wait>(
        &mut self,
        rt: &R,
        controller: &Controller<D, K>,
        command: Command,
    ) -> Result<Outcome, Refusal> {
        let port = &mut self.port;
        for _ in 0..MOST_TRIES {
            let answer = match command {
                Command::Request(it) => port.submit(rt, controller, it.number, it.op),
                Command::Confirm { upto, .. } => port.confirm(rt, controller, upto),
            };
            match outcome_of(&answer) {
                Err(Refusal::JournalFull) => {}
                outcome => return outcome,
            }
        }
        Err(Refusal::JournalFull)
    }

    /// Plays the role to its end. Who has waited retires.
    pub fn play<D: Disk, R: Wait>(mut self, rt: &R, controller: &Controller<D, K>) -> Player<K> {
        let (element, role) = (self.element, self.role);
        let (many, awaited) = role.extent();
        let finds_no_block = matches!(role, Role::Fetches(_) | Role::StoresLate);
        if let Role::RetiresAndWaits = role {
            self.port.retire(rt, controller);
        }
        for i in 0..many {
            let number = i.saturating_add(1);
            let request = asked(element, number, role.op(element, i));
            self.last = self.call(rt, controller, Command::Request(request));
            let is_nocell = self.last == NO_CELL;
            let is_accepted = is_nocell || (!finds_no_block && self.last.is_ok());
            self.accepted = self.accepted.saturating_add(u64::from(is_accepted));
            if number % 16 == 0 && !finds_no_block {
                let upto = number.saturating_add(1);
                if self
                    .call(rt, controller, Command::Confirm { element, upto })
                    .is_err()
                {
                    break;
                }
            }
        }
        if let Some(number) = awaited {
            self.last = entry_of(self.port.await_answer(rt, controller, number));
            self.port.retire(rt, controller);
        }
        self
    }
}
