//! The two ends of a pipe.
ghost use Rattle.std.specs.Prelude.{◌≡◌, ◌<◌, true, false, [], ◌∷◌, ◌++◌, IfOk, IfErr, OnOk, OnErr, IsOkUnless};
ghost use Rattle.std.specs.Prelude.{MatchOption, MatchResult};
ghost use Rattle.crossbeam_channel.specs.{Claims.IsSeatAt, Claims.view, Ends.receives_on, Ends.sends_on};
ghost use Rattle.im_types.specs.Types.{NoMemory};
ghost use Rattle.im_pipes.specs.{Ends.AreNewEnds, Ends.Receives, Rule.with_received, Rule.with_sent};
ghost use mathlib.Core.List.{IsPrefix};

use crate::rule::{PassLog, SentInOrder, SentOne, Taken, TwoEnds, Whole};
use arrayvec::ArrayVec;
use crossbeam_channel::{Pass, RuledReceiver, RuledSender, bounded_with};
use im_types::Refusal;
use std::alloc::{AllocError, Global};
use std::marker::Model;
use std::sync::Wait;

// The number of messages that an outlet holds.
const AHEAD: usize = 8;

/// The end of a pipe that sends. Contracts see which pipe it is, and what was sent.
#[derive(Drop)]
pub struct Inlet<T: Drop> {
    sender: RuledSender<Option<T>, PassLog<T>, SentInOrder>,
    pass: Pass<Option<T>, PassLog<T>>,
}

impl<T: Drop> Model for Inlet<T> {
    ghost use Rattle.std.specs.Prelude.{◌≡◌, true, false, []};
    ghost use Rattle.crossbeam_channel.specs.{Claims.IsSeatAt, Claims.view as known, Ends.sends_on};
    ghost use Rattle.im_pipes.specs.{Ends.items_of, Ends.messages_of, Ends.pipe_of, Ends.PipeEnd, Rule.log};

    ghost Value = { PipeEnd T };

    ghost view = { λ s. record { pipe = pipe_of s.pass; items = items_of (known s.pass).sent; ended = false } };

    ghost invariant = { λ s. IsSeatAt (sends_on s.sender) s.pass
        × (known s.pass ≡ log true false (messages_of false (items_of (known s.pass).sent)) []) };
}

/// An inlet after its end. Contracts see what was sent through it, and whether the end mark was sent.
#[derive(Drop)]
pub struct FinishedInlet<T: Drop> {
    sender: RuledSender<Option<T>, PassLog<T>, SentInOrder>,
    pass: Pass<Option<T>, PassLog<T>>,
    marked: bool,
}

impl<T: Drop> Model for FinishedInlet<T> {
    ghost use Rattle.std.specs.Prelude.{◌≡◌, true, false, []};
    ghost use Rattle.crossbeam_channel.specs.{Claims.IsSeatAt, Claims.view as known, Ends.sends_on};
    ghost use Rattle.im_pipes.specs.{Ends.items_of, Ends.messages_of, Ends.pipe_of, Ends.PipeEnd, Rule.log};

    ghost Value = { PipeEnd T };

    ghost view = { λ s. record { pipe = pipe_of s.pass; items = items_of (known s.pass).sent; ended = s.marked } };

    ghost invariant = { λ s. IsSeatAt (sends_on s.sender) s.pass
        × (known s.pass ≡ log true false (messages_of s.marked (items_of (known s.pass).sent)) []) };
}

/// The end of a pipe that receives. Contracts see which pipe it is, what was received, and whether the end mark was
/// received. What the outlet holds, to hand out later in order, doesn't count as received yet.
#[derive(Drop)]
pub struct Outlet<T: Drop> {
    receiver: RuledReceiver<Option<T>, PassLog<T>, SentInOrder>,
    pass: Pass<Option<T>, PassLog<T>>,
    held: ArrayVec<Option<T>, AHEAD>,
    ended: bool,
}

impl<T: Drop> Model for Outlet<T> {
    ghost use Rattle.std.specs.Prelude.{◌≡◌, true, false, [], ◌++◌};
    ghost use Rattle.crossbeam_channel.specs.{Claims.IsSeatAt, Claims.view as known, Ends.receives_on};
    ghost use Rattle.im_pipes.specs.Ends.{handed_of, items_of, messages_of, pipe_of, PipeEnd};
    ghost use Rattle.im_pipes.specs.Rule.{log};

    ghost Value = { PipeEnd T };

    ghost view = { λ s. record {
      pipe = pipe_of s.pass;
      items = items_of (handed_of (known s.pass).received s.held.items);
      ended = s.ended;
    } };

    ghost invariant = { λ s. IsSeatAt (receives_on s.receiver) s.pass
        × (known s.pass ≡ log false true []
        (messages_of s.ended (items_of (handed_of (known s.pass).received s.held.items)) ++ s.held.items)) };
}

/// What came out of a pipe.
#[derive(Drop)]
pub enum Received<T> {
    /// The next item.
    Item(T),
    /// The end mark: nothing comes after it.
    End,
    /// Nothing: the pipe is empty, and no sender is left.
    Gone,
}

/// Makes a new pipe and returns its two ends. The pipe holds at most `capacity` messages, above 0, and its outlet takes
/// up to eight more ahead. Messages are items, and one end mark. Returns `NoMemory` if there is no room for it. (Own.)
pub fn pipe<T: Drop>(alloc: Global, capacity: usize) -> Result<(Inlet<T>, Outlet<T>), Refusal>
    requires { 0 < capacity }
    ensures found { IfOk result (λ ends. AreNewEnds ends.0 ends.1) }
    ensures only { IsOkUnless result NoMemory }
{
    new_ends(alloc, capacity).map_err(|_| Refusal::NoMemory)
}

fn new_ends<T: Drop>(alloc: Global, capacity: usize) -> Result<(Inlet<T>, Outlet<T>), AllocError>
    requires { 0 < capacity }
    ensures found { IfOk result (λ ends. AreNewEnds ends.0 ends.1) }
{
    let (sender, receiver, mut pass) = bounded_with::<Option<T>, PassLog<T>, SentInOrder, Global>(
        alloc, capacity,
    )?;
    let receives = sender.another::<TwoEnds>(&mut pass);
    Ok((
        Inlet { sender, pass },
        Outlet {
            receiver,
            pass: receives,
            held: ArrayVec::new(),
            ended: false,
        },
    ))
}

// Sends a message: an item or the end mark. Returns the message if the channel hands it back.
fn put<T: Drop, R: Wait>(
    rt: &R,
    sender: &RuledSender<Option<T>, PassLog<T>, SentInOrder>,
    pass: &mut Pass<Option<T>, PassLog<T>>,
    message: Option<T>,
) -> Result<(), Option<T>>
    requires seat { IsSeatAt (sends_on sender.now) pass.old }
    requires sends { (view pass.old).sends ≡ true }
    ensures seat { IsSeatAt (sends_on sender.now) pass.new }
    ensures sent { MatchResult result (λ _. view pass.new ≡ with_sent (view pass.old) message)
        (λ back. (back ≡ message) × (view pass.new ≡ view pass.old)) }
{
    match sender.send_as::<SentOne, R>(rt, pass, message) {
        Ok(()) => Ok(()),
        Err(error) => Err(error.into_inner()),
    }
}

// Receives a message that is there, or waits for one.
fn take<T: Drop, R: Wait>(
    rt: &R,
    receiver: &RuledReceiver<Option<T>, PassLog<T>, SentInOrder>,
    pass: &mut Pass<Option<T>, PassLog<T>>,
    waits: bool,
) -> Option<Option<T>>
    requires seat { IsSeatAt (receives_on receiver.now) pass.old }
    requires receives { (view pass.old).receives ≡ true }
    ensures seat { IsSeatAt (receives_on receiver.now) pass.new }
    ensures received { MatchOption result (view pass.new ≡ view pass.old)
        (λ message. view pass.new ≡ with_received (view pass.old) message) }
{
    if waits {
        return match receiver.recv_as::<Taken, R>(rt, pass) {
            Ok(message) => Some(message),
            Err(_) => None,
        };
    }
    match receiver.try_recv_as::<Taken, R>(rt, pass) {
        Ok(message) => Some(message),
        Err(_) => None,
    }
}

impl<T: Drop> Inlet<T> {
    /// Sends an item, and waits while the pipe is full. If the channel hands it back, as it does after the outlet's
    /// end, the item comes back and nothing was sent. (Own.)
    pub fn send<R: Wait>(&mut self, rt: &R, item: T) -> Result<(), T>
        ensures same { self.new.pipe ≡ self.old.pipe }
        ensures contents { MatchResult result (λ _. self.new.items ≡ self.old.items ++ item ∷ [])
            (λ _. self.new.items ≡ self.old.items) }
        ensures refused { IfErr result (λ back. back ≡ item) }
    {
        match put(rt, &self.sender, &mut self.pass, Some(item)) {
            Ok(()) => Ok(()),
            Err(message) => Err(message.unwrap()),
        }
    }

    /// Sends the end mark, if the channel takes it, and waits while the pipe is full. (Own.)
    pub fn finish<R: Wait>(self, rt: &R) -> FinishedInlet<T>
        ensures same { result.pipe ≡ self.pipe }
        ensures contents { result.items ≡ self.items }
    {
        let Inlet { sender, mut pass } = self;
        match put(rt, &sender, &mut pass, None) {
            Ok(()) => FinishedInlet {
                sender,
                pass,
                marked: true,
            },
            Err(_) => FinishedInlet {
                sender,
                pass,
                marked: false,
            },
        }
    }
}

impl<T: Drop> Outlet<T> {
    // Takes one more message, if one is there and there is room for it. Returns whether it did.
    fn gather_one<R: Wait>(&mut self, rt: &R) -> bool
        ensures { self.new ≡ self.old }
    {
        if self.held.is_full() {
            return false;
        }
        match take(rt, &self.receiver, &mut self.pass, false) {
            Some(message) => {
                self.held.push(message);
                true
            }
            None => false,
        }
    }

    // If nothing is held, waits for a message, and also takes the others that are there then. So a waiting sender is
    // woken once for all of them.
    fn gather<R: Wait>(&mut self, rt: &R)
        ensures { self.new ≡ self.old }
    {
        if !self.held.is_empty() {
            return;
        }
        match take(rt, &self.receiver, &mut self.pass, true) {
            Some(message) => self.held.push(message),
            None => return,
        }
        for _ in 0..AHEAD {
            if !self.gather_one(rt) {
                return;
            }
        }
    }

    /// Receives the next item or the end mark, and waits while the pipe is empty. Returns `Gone`, with nothing
    /// received, if the channel fails, as it does after the end of an inlet that didn't finish. (Own.)
    pub fn receive<R: Wait>(&mut self, rt: &R) -> Received<T>
        requires { self.old.ended ≡ false }
        ensures same { self.new.pipe ≡ self.old.pipe }
        ensures contents { Receives self.old result self.new }
    {
        self.gather(rt);
        match self.held.pop_at(0) {
            Some(Some(item)) => Received::Item(item),
            Some(None) => {
                self.ended = true;
                Received::End
            }
            None => Received::Gone,
        }
    }

    /// Shows what both ends know together. What was received is a prefix of what was sent, in order, each item once;
    /// after the end mark it is all of it. It takes both ends of one pipe, and does nothing. (Own.)
    pub fn whole(self, finished: FinishedInlet<T>)
        requires { self.pipe ≡ finished.pipe }
        ensures begins { IsPrefix self.items finished.items }
        ensures whole { self.ended ≡ true → self.items ≡ finished.items }
    {
        let Outlet {
            receiver: _receiver,
            pass: receives,
            held: _,
            ended: _,
        } = self;
        let FinishedInlet {
            sender,
            mut pass,
            marked: _,
        } = finished;
        sender.absorb::<TwoEnds>(&mut pass, receives);
        sender.learn_as::<Whole>(&mut pass);
    }
}
