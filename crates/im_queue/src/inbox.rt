//! Commands that ask to be served. Each element has a place, under a lock of its own for all places.
ghost use Rattle.std.specs.Prelude.{◌≡◌, ◌+◌, ◌<◌, ◌≤◌, true, length, IfSome, IfOk, slice_set, Some, None};
ghost use Rattle.{im_types.specs.Types.MAX_GROUP, im_trace.specs.Log.sender_of};
ghost use Rattle.im_queue.specs.Members.{are_apart_at, are_joined, are_together, AreFreeFor, AreOneOfEach};
ghost use Rattle.im_queue.specs.Members.{AreSureBehind, Gathers, is_social, IsCut, IsSure, IsSureBehind, MayJoin};
ghost use Rattle.im_queue.specs.Members.{stored_at};
ghost use Rattle.im_queue.specs.Places.{AreTakenOut, AskNothing, IsAskedAt, placed_at, TakesAt};

use arrayvec::ArrayVec;
use im_groups::accepts;
use im_memory::Memory;
use im_trace::{Log, Name, element_of};
use im_types::{Command, MAX_GROUP, Op};
use std::alloc::{AllocError, Global};
use std::marker::Model;

/// What the elements ask. Contracts see a place for each element, and in it the command that it asks, if it asks one.
#[derive(Drop)]
pub struct Inbox {
    places: Vec<Option<Command>>,
}

impl Model for Inbox {
    ghost use Rattle.std.specs.Prelude.{List, Option};
    ghost use Rattle.im_types.specs.Types.{Command};
    ghost use Rattle.im_queue.specs.Places.{AreInPlace};

    ghost Value = { List (Option Command) };

    ghost view = { λ i. i.places.items };

    ghost invariant = { λ i. AreInPlace i.places.items };
}

/// A group out of the inbox.
#[derive(Drop)]
pub struct NextGroup {
    /// Its commands, in the order of their elements.
    pub members: ArrayVec<Command, MAX_GROUP>,
    /// The first element that wasn't looked at.
    pub next: u16,
}

// Returns whether an operation is served with others.
fn is_social(op: Op) -> bool
    ensures { result ≡ is_social op }
{
    match op {
        Op::Alloc(_, _) => false,
        Op::Release(_) => false,
        Op::Reset(_) => false,
        Op::Fetch(_) => true,
        Op::Store(_, _) => true,
        Op::Take(_) => true,
        Op::Put(_, _) => true,
    }
}

// Returns the address that an operation stores at.
fn stored_at(op: Op) -> Option<u32>
    ensures { result ≡ stored_at op }
{
    match op {
        Op::Alloc(_, _) => None,
        Op::Release(_) => None,
        Op::Reset(_) => None,
        Op::Fetch(_) => None,
        Op::Store(at, _) => Some(at),
        Op::Take(_) => None,
        Op::Put(_, _) => None,
    }
}

// Returns whether these addresses, if both are there, differ.
fn are_apart_at(earlier: Option<u32>, later: Option<u32>) -> bool
    ensures { result ≡ are_apart_at earlier later }
{
    match earlier {
        None => true,
        Some(a) => match later {
            None => true,
            Some(b) => a != b,
        },
    }
}

// Returns whether an operation may be served in one group with an earlier one.
fn are_together(earlier: Op, later: Op) -> bool
    ensures { result ≡ are_together earlier later }
{
    if is_social(earlier) && is_social(later) {
        return are_apart_at(stored_at(earlier), stored_at(later));
    }
    false
}

// Returns whether a command may be served in one group with an earlier one.
fn are_joined(earlier: &Command, later: &Command) -> bool
    ensures { result ≡ are_joined earlier.now later.now }
{
    match earlier {
        Command::Confirm { .. } => true,
        Command::Request(first) => match later {
            Command::Confirm { .. } => true,
            Command::Request(second) => are_together(first.op, second.op),
        },
    }
}

// Returns whether a command may stand in a group after these.
fn may_join(command: &Command, members: &[Command]) -> bool
    ensures { result ≡ true → MayJoin command.now members.now }
{
    for member in members {
        if !are_joined(member, command) {
            return false;
        }
    }
    true
}

// Returns whether it is known that a command is accepted or not, before the requests ahead of it act. Of a confirmation
// it is, if the memory accepts it already.
fn is_sure(memory: &Memory, command: &Command) -> bool
    ensures { result ≡ true → IsSure memory.now.contents command.now }
{
    match command {
        Command::Request(_) => true,
        Command::Confirm { .. } => accepts(memory, command),
    }
}

// Returns whether that is known of a command after these. Of the first one nothing has to be known.
fn is_sure_behind(memory: &Memory, command: &Command, members: &[Command]) -> bool
    ensures { result ≡ true → IsSureBehind memory.now.contents command.now members.now }
{
    members.is_empty() || is_sure(memory, command)
}

// Returns whether a command may be the next one of a group after these.
fn is_next(memory: &Memory, command: &Command, members: &[Command]) -> bool
    ensures joins { result ≡ true → MayJoin command.now members.now }
    ensures sure { result ≡ true → IsSureBehind memory.now.contents command.now members.now }
{
    if !may_join(command, members) {
        return false;
    }
    is_sure_behind(memory, command, members)
}

impl Inbox {
    /// Makes places for the given number of elements, none of which asks. Returns `AllocError` if `alloc` refuses the
    /// memory.
    #[tactic(auto, using(crate::proofs::Taking::in_place_none))]
    pub fn new(alloc: Global, elements: u16) -> Result<Inbox, AllocError>
        ensures count { IfOk result (λ i. length i ≡ elements) }
        ensures none { IfOk result AskNothing }
    {
        let mut places = Vec::with_capacity(alloc, elements as usize)?;
        for _ in 0..elements {
            places.push(None)?;
        }
        Ok(Inbox { places })
    }

    /// Asks for a command to be served. It takes the place of what its element asked before, if that is still there.
    #[tactic(auto, using(crate::proofs::Taking::in_place_ask, crate::proofs::Taking::ask_past))]
    pub fn ask(&mut self, command: &Command)
        ensures asks { self.new ≡ slice_set self.old (sender_of command.now) (Some command.now) }
    {
        let at = element_of(command) as usize;
        if at < self.places.len() {
            self.places[at] = Some(*command);
        }
    }

    /// Returns how many elements ask, at most 65,535.
    pub fn asked(&self) -> u32 {
        let mut asked: u16 = 0;
        for place in &self.places {
            if place.is_some() {
                asked = asked.saturating_add(1);
            }
        }
        u32::from(asked)
    }

    // Returns what an element asks.
    #[tactic(auto, using(crate::proofs::Taking::asked_placed))]
    fn placed_at(&self, element: u16) -> Option<Command>
        ensures asked { result ≡ placed_at self.now element }
        ensures place { IfSome result (λ c. IsAskedAt self.now element c) }
    {
        *self.places.get(element as usize)?
    }

    // Takes out what an element asks.
    #[tactic(auto, using(crate::proofs::Taking::in_place_free, crate::proofs::Taking::ask_past))]
    fn free(&mut self, element: u16)
        ensures { self.new ≡ slice_set self.old element None }
    {
        let at = element as usize;
        if at < self.places.len() {
            self.places[at] = None;
        }
    }

    // Takes out what an element asks and adds it to a group, if its answer has a free place. Returns false if the
    // command has to wait for the next group.
    #[tactic(auto, using(crate::proofs::Gathering::gathers_weaker, crate::proofs::Gathering::gathers_push))]
    fn gather<K: Name>(
        &mut self,
        log: &Log<K>,
        memory: &Memory,
        element: u16,
        members: &mut ArrayVec<Command, MAX_GROUP>,
    ) -> bool
        requires room { length members.old.items < MAX_GROUP }
        requires before { Gathers log.now.state.places memory.now.contents element members.old.items }
        ensures gathered { Gathers log.now.state.places memory.now.contents (element + 1) members.new.items }
        ensures few { length members.new.items ≤ length members.old.items + 1 }
        ensures taken { TakesAt self.old element members.old.items self.new members.new.items }
    {
        if !log.is_free(element) {
            return true;
        }
        let Some(command) = self.placed_at(element) else {
            return true;
        };
        if !is_next(memory, &command, members.as_slice()) {
            return false;
        }
        self.free(element);
        members.push(command);
        true
    }

    /// Takes out the next group, with at most `most` members. It looks at the elements in order, from `from` on, and
    /// leaves out those whose answers have no free place. Each member is what its element asked.
    #[tactic(auto, using(crate::proofs::Taking::taken_next))]
    pub fn next_group<K: Name>(
        &mut self,
        log: &Log<K>,
        memory: &Memory,
        from: u16,
        most: usize,
    ) -> NextGroup
        ensures found { AreTakenOut self.old result.members.items self.new }
        ensures apart { AreOneOfEach result.members.items }
        ensures free { AreFreeFor log.now.state.places result.members.items }
        ensures cut { IsCut result.members.items }
        ensures sure { AreSureBehind memory.now.contents result.members.items }
        ensures few { length result.members.items ≤ most }
    {
        let mut members = ArrayVec::new();
        let mut next = from;
        for element in from..log.elements() {
            if members.len() >= most || members.len() >= MAX_GROUP {
                break;
            }
            if !self.gather(log, memory, element, &mut members) {
                break;
            }
            next = element + 1;
        }
        NextGroup { members, next }
    }
}
