//! Whether a request is the first that reaches its cell, before the commands ahead of it act.
ghost use Rattle.std.specs.{Prelude.◌≡◌, Prelude.is_none, List.list_any};
ghost use Rattle.im_types.specs.Types.{kept_for};
ghost use Rattle.im_dialogue.specs.Firsts.{asks_for, is_first, may_reach, reaches};

use im_memory::Memory;
use im_types::codes::address_of;
use im_types::{Command, Op, Request, Waiter};

// Returns whether a command is this request.
fn asks_for(who: Waiter, command: &Command) -> bool
    ensures { result ≡ asks_for who command.now }
{
    match command {
        Command::Request(request) => {
            who.element == request.element && who.number == request.number
        }
        Command::Confirm { .. } => false,
    }
}

// Returns whether one of these commands is this request.
fn is_asked(who: Waiter, ahead: &[Command]) -> bool
    ensures { result ≡ list_any (asks_for who) ahead.now }
{
    for command in ahead {
        if asks_for(who, command) {
            return true;
        }
    }
    false
}

// Returns whether an operation may change the cell at this address.
fn reaches(a: u32, op: Op) -> bool
    ensures { result ≡ reaches a op }
{
    match op {
        Op::Alloc(_, _) | Op::Release(_) | Op::Reset(_) => true,
        Op::Fetch(b) | Op::Store(b, _) | Op::Take(b) | Op::Put(b, _) => b == a,
    }
}

// Returns whether a command may change the cell at this address.
fn may_reach(a: u32, command: &Command) -> bool
    ensures { result ≡ may_reach a command.now }
{
    match command {
        Command::Request(request) => reaches(a, request.op),
        Command::Confirm { .. } => false,
    }
}

// Returns whether one of these commands may change the cell at this address.
fn is_reached(a: u32, ahead: &[Command]) -> bool
    ensures { result ≡ list_any (may_reach a) ahead.now }
{
    for command in ahead {
        if may_reach(a, command) {
            return true;
        }
    }
    false
}

// Returns whether nothing is kept for a request.
fn is_unkept(memory: &Memory, who: Waiter) -> bool
    ensures { result ≡ is_none (kept_for memory.now.contents.windows who) }
{
    match memory.kept(who.element, who.number) {
        Some(_) => false,
        None => true,
    }
}

/// Returns whether a request is neither kept nor among these commands, and none of them may change the cell at its
/// address.
pub(crate) fn is_first(memory: &Memory, ahead: &[Command], request: &Request) -> bool
    ensures { result ≡ is_first memory.now.contents ahead.now request.now }
{
    let who = Waiter {
        element: request.element,
        number: request.number,
    };
    is_unkept(memory, who) && !is_asked(who, ahead) && !is_reached(address_of(request.op), ahead)
}
