//! A command that is judged after the commands ahead of it, before any of them acts.
ghost use Rattle.std.specs.Prelude.{◌≡◌, ℕ, ◌+◌, ◌<◌, ◌≤◌, true, false, length, IfSome, IfOk, IsNone, slice_set};
ghost use Rattle.std.specs.List.{list_any};
ghost use Rattle.im_types.specs.Types.{Confirm, MAX_GROUP, LAST, IsMemory, bounds, is_accepted, after};
ghost use Rattle.im_groups.specs.Ahead.{AreAccepted, asks_at_once, bounds_behind, bounds_behind_all, is_at_once};
ghost use Rattle.im_groups.specs.Ahead.{is_next, is_sure, IsUnsure, moved_by};
ghost use Rattle.im_groups.specs.Marks.{element_behind, HaveMarks};

use crate::line::CommandsAhead;
use crate::marks::{has_mark, mark};
use im_memory::Memory;
use im_types::{Command, Entry, LAST, Op, Refusal, Request, WINDOW};

// ---- bounds

// Returns the bounds of an element's window after an accepted command.
fn bounds_behind(bounds: (u64, u64), element: u16, command: &Command) -> (u64, u64)
    requires low { bounds.1 ≤ LAST + 33 }
    ensures { result ≡ bounds_behind element command.now bounds }
{
    match command {
        Command::Request(request) => {
            if request.element == element {
                (bounds.0, bounds.1 + 1)
            } else {
                bounds
            }
        }
        Command::Confirm {
            element: other,
            upto,
        } => {
            if *other == element {
                (*upto, bounds.1)
            } else {
                bounds
            }
        }
    }
}

// Returns the bounds of an element's window in the memory. The next number is at most one past the last number of all.
#[inline(always)]
fn bounds_now(memory: &Memory, element: u16) -> Result<(u64, u64), Refusal>
    ensures bounds { result ≡ bounds memory.now.contents.windows element }
    ensures low { IfOk result (λ b. b.1 ≤ LAST + 1) }
    ensures memory { let m = memory.now.contents in IsMemory (length m.cells) (length m.windows) m }
{
    let _cells = memory.cells(); // So that it is known that each window is within its bounds.
    memory.window(element)
}

/// Returns the bounds of an element's window after these accepted commands.
pub(crate) fn moved_behind(bounds: (u64, u64), element: u16, commands: &[Command]) -> (u64, u64)
    requires few { length commands.now ≤ MAX_GROUP }
    requires low { bounds.1 ≤ LAST + 17 }
    ensures moved { result ≡ bounds_behind_all element commands.now bounds }
    ensures low { result.1 ≤ bounds.1 + length commands.now }
{
    let mut moved = bounds;
    for command in commands {
        moved = bounds_behind(moved, element, command);
    }
    moved
}

// Returns the bounds of an element's window in the memory after these commands.
fn bounds_after(memory: &Memory, ahead: &CommandsAhead, element: u16) -> Result<(u64, u64), Refusal>
    ensures bounds { result ≡ moved_by element ahead.now (bounds memory.now.contents.windows element) }
    ensures memory { let m = memory.now.contents in IsMemory (length m.cells) (length m.windows) m }
{
    match bounds_now(memory, element) {
        Ok(bounds) => Ok(ahead.move_bounds(bounds, element)),
        Err(refusal) => Err(refusal),
    }
}

// Returns whether a request is the next one within these bounds, its number isn't past the last one of all, and the
// window has room.
#[inline(always)]
fn is_next(bounds: (u64, u64), request: &Request) -> bool
    requires low { bounds.0 ≤ LAST + 1 }
    ensures { result ≡ is_next bounds request.now }
{
    request.number == bounds.1 && request.number < bounds.0 + WINDOW && request.number < LAST + 1
}

// ---- what is known to be answered

// Returns whether an operation is answered at once, whatever the cells are.
fn is_at_once(op: Op) -> bool
    ensures { result ≡ is_at_once op }
{
    !matches!(op, Op::Fetch(_) | Op::Take(_))
}

// Returns whether a command is the request under an element's number, and is answered at once.
fn asks_at_once(element: u16, number: u64, command: &Command) -> bool
    ensures { result ≡ asks_at_once (record { element = element; number = number }) command.now }
{
    match command {
        Command::Request(request) => {
            request.element == element && request.number == number && is_at_once(request.op)
        }
        Command::Confirm { .. } => false,
    }
}

/// Returns whether one of these commands is the request under an element's number, and is answered at once.
pub(crate) fn is_asked_at_once(ahead: &[Command], element: u16, number: u64) -> bool
    ensures { result ≡ list_any (asks_at_once (record { element = element; number = number })) ahead.now }
{
    for command in ahead {
        if asks_at_once(element, number, command) {
            return true;
        }
    }
    false
}

// Returns whether the entry under an element's number is answered already, or will be answered at once by one of these
// commands.
fn is_sure(memory: &Memory, ahead: &CommandsAhead, element: u16, number: u64) -> bool
    ensures { result ≡ is_sure memory.now.contents ahead.now (record { element = element; number = number }) }
{
    match memory.kept(element, number) {
        Some(kept) => !matches!(kept.entry, Entry::Waiting),
        None => ahead.ask_at_once(element, number),
    }
}

// Returns whether that holds for all numbers from `from` to `upto - 1`.
fn are_sure(memory: &Memory, ahead: &CommandsAhead, element: u16, from: u64, upto: u64) -> bool
    ensures all { result ≡ true → (number : ℕ) → from ≤ number → number < upto
        → is_sure memory.now.contents ahead.now (record { element = element; number = number }) ≡ true }
    ensures some { result ≡ false → (number : ℕ) × (from ≤ number) × (number < upto)
        × (is_sure memory.now.contents ahead.now (record { element = element; number = number }) ≡ false) }
{
    for number in from..upto {
        if !is_sure(memory, ahead, element, number) {
            return false;
        }
    }
    true
}

// ---- the judgement

/// Returns whether the memory accepts a command as it is. (Own.)
pub fn accepts(memory: &Memory, command: &Command) -> bool
    ensures { result ≡ is_accepted memory.now.contents command.now }
{
    match memory.judge(command) {
        Ok(accepted) => accepted,
        Err(_) => false,
    }
}

// Returns whether a request is accepted after these commands.
#[inline(never)]
fn judge_request(memory: &Memory, ahead: &CommandsAhead, request: &Request) -> bool
    requires accepted { AreAccepted memory.now.contents ahead.now }
    ensures { result ≡ is_accepted (after memory.now.contents ahead.now) (Command.Request request.now) }
{
    match bounds_after(memory, ahead, request.element) {
        Ok(bounds) => is_next(bounds, request),
        Err(_) => false,
    }
}

// Returns whether a confirmation is accepted after these commands. Returns `None` if it would drop an entry that isn't
// surely answered.
fn judge_confirm(memory: &Memory, ahead: &CommandsAhead, element: u16, upto: u64) -> Option<bool>
    requires some { 0 < length ahead.now }
    requires accepted { AreAccepted memory.now.contents ahead.now }
    ensures found { IfSome result
        (λ b. b ≡ is_accepted (after memory.now.contents ahead.now) (Confirm element upto)) }
    ensures unsure { IsNone result → IsUnsure memory.now.contents ahead.now (Confirm element upto) }
{
    let (base, next) = match bounds_after(memory, ahead, element) {
        Ok(bounds) => bounds,
        Err(_) => return Some(false),
    };
    if upto <= base || upto > next {
        return Some(false);
    }
    if are_sure(memory, ahead, element, base, upto) {
        Some(true)
    } else {
        None
    }
}

// Returns whether the memory accepts a request as it is.
#[inline(always)]
fn judge_alone(memory: &Memory, request: &Request) -> bool
    ensures { result ≡ is_accepted memory.now.contents (Command.Request request.now) }
{
    match bounds_now(memory, request.element) {
        Ok(bounds) => is_next(bounds, request),
        Err(_) => false,
    }
}

// Returns whether a request is accepted after these commands. Their elements are marked: behind commands of others the
// request is judged by the memory as it is.
#[inline(always)]
fn judge_marked(memory: &Memory, ahead: &CommandsAhead, marks: &[bool], request: &Request) -> bool
    requires accepted { AreAccepted memory.now.contents ahead.now }
    requires marked { HaveMarks marks.now ahead.now }
    ensures { result ≡ is_accepted (after memory.now.contents ahead.now) (Command.Request request.now) }
{
    if has_mark(marks, request.element) {
        judge_request(memory, ahead, request)
    } else {
        judge_alone(memory, request)
    }
}

/// Returns what [`judge_behind`] does. The elements of the commands ahead are marked.
#[inline(always)]
pub(crate) fn judge_member(
    memory: &Memory,
    ahead: &CommandsAhead,
    marks: &[bool],
    command: &Command,
) -> Option<bool>
    requires accepted { AreAccepted memory.now.contents ahead.now }
    requires marked { HaveMarks marks.now ahead.now }
    ensures found { IfSome result (λ b. b ≡ is_accepted (after memory.now.contents ahead.now) command.now) }
    ensures unsure { IsNone result → IsUnsure memory.now.contents ahead.now command.now }
{
    match command {
        Command::Request(request) => Some(judge_marked(memory, ahead, marks, request)),
        Command::Confirm { .. } => judge_behind(memory, ahead, command),
    }
}

/// Returns what [`judge_behind`] does, and marks the member's element if it is accepted. The elements of the commands
/// ahead are marked.
#[inline(always)]
pub(crate) fn take_member(
    memory: &Memory,
    ahead: &CommandsAhead,
    marks: &mut [bool],
    member: &Command,
) -> Option<bool>
    requires accepted { AreAccepted memory.now.contents ahead.now }
    requires marked { HaveMarks marks.old ahead.now }
    ensures found { IfSome result (λ b. b ≡ is_accepted (after memory.now.contents ahead.now) member.now) }
    ensures unsure { IsNone result → IsUnsure memory.now.contents ahead.now member.now }
    ensures marks { IfSome result (λ b. b ≡ true
        → marks.new ≡ slice_set marks.old (element_behind member.now) true) }
{
    match member {
        Command::Request(request) => {
            // Constants, so that the caller tests neither of them again.
            if !judge_marked(memory, ahead, marks, request) {
                return Some(false);
            }
            mark(marks, member);
            Some(true)
        }
        Command::Confirm { .. } => {
            mark(marks, member);
            judge_behind(memory, ahead, member)
        }
    }
}

/// Returns whether a command is accepted after the commands ahead of it. They haven't acted yet, and each of them is
/// accepted in its turn.
///
/// It returns `None` if that isn't known before they act. Then the command is a confirmation, and would drop an entry
/// that waits now, or the entry of a fetch or a take among them. With no command ahead, it never returns `None`. (Own.)
#[inline(never)]
pub fn judge_behind(memory: &Memory, ahead: &CommandsAhead, command: &Command) -> Option<bool>
    requires accepted { AreAccepted memory.now.contents ahead.now }
    ensures found { IfSome result (λ b. b ≡ is_accepted (after memory.now.contents ahead.now) command.now) }
    ensures unsure { IsNone result → IsUnsure memory.now.contents ahead.now command.now }
{
    if ahead.is_empty() {
        return Some(accepts(memory, command));
    }
    match command {
        Command::Request(request) => Some(judge_request(memory, ahead, request)),
        Command::Confirm { element, upto } => judge_confirm(memory, ahead, *element, *upto),
    }
}
