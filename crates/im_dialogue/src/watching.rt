//! The lines for those that watch. They follow an answer, and tell which waiting requests the line answered.
ghost use Rattle.std.specs.Prelude.{◌≡◌, ◌<◌, true, [], ◌∷◌, ◌++◌, map, length, take, IfOk, OnOk, string_bytes};
ghost use Rattle.im_types.specs.Types.{Answered, I, M, Value, MAX_GROUP, held_at, store, put, at_cell, act, asker};
ghost use Rattle.im_types.specs.Types.{is_accepted};
ghost use Rattle.im_front.specs.Lists.{commands_asked};
ghost use Rattle.im_text.specs.{declared.OutputLine.TheVariants.Now, declared.Style.TheVariants.Text, Said.said_in};
ghost use Rattle.im_dialogue.specs.Together.{GroupStart, TellsWatchers, TellWatchers};
ghost use Rattle.im_dialogue.specs.Watching.{answers_nobody, is_of_kind, is_quiet, nows_text, resumed_by, told_with};

use crate::answers::LineAnswer;
use crate::firsts::is_first;
use arrayvec::ArrayVec;
use im_front::AskedCommand;
use im_memory::Memory;
use im_text::add_entry;
use im_types::{Command, Entry, Kind, MAX_GROUP, Op, Reply, Request, Waiter};
use std::alloc::{AllocError, Global};

// Returns whether such an operation never answers a request that waits.
fn is_quiet(op: Op) -> bool
    ensures { result ≡ is_quiet op }
{
    !matches!(op, Op::Store(_, _) | Op::Put(_, _))
}

// Returns whether such a command never answers a request that waits.
fn answers_nobody(command: Command) -> bool
    ensures { result ≡ answers_nobody command }
{
    match command {
        Command::Request(request) => is_quiet(request.op),
        Command::Confirm { .. } => true,
    }
}

// Adds `E.N now value VALUE`.
fn add_now(out: &mut String, who: Waiter, value: u64) -> Result<(), AllocError>
    ensures { OnOk result (string_bytes out.new ≡ string_bytes out.old ++ said_in Text (Now (record {
      element = who.element;
      number = who.number;
      entry = Answered (Value value);
    }))) }
{
    let element = who.element;
    let number = who.number;
    write!(out, "{element}.{number} now ")?;
    add_entry(out, Entry::Answered(Reply::Value(value)))?;
    out.push_str("\n")
}

// Returns whether a cell is in a block of this kind.
fn is_of_kind(memory: &Memory, a: u32, kind: Kind) -> bool
    ensures { result ≡ is_of_kind kind (held_at memory.now.contents.cells a) }
{
    match memory.block(a) {
        Some(block) => block.kind == kind,
        None => false,
    }
}

// Adds the lines of the readers that wait at a cell. A store of this value resumes all of them.
fn add_readers(out: &mut String, memory: &Memory, a: u32, value: u64) -> Result<(), AllocError>
    ensures { let cells = memory.now.contents.cells in OnOk result (string_bytes out.new
        ≡ string_bytes out.old ++ nows_text (at_cell I (store value) cells a (held_at cells a)).resumed) }
{
    if !is_of_kind(memory, a, Kind::I) {
        return Ok(());
    }
    for reader in memory.waiters(a) {
        add_now(out, reader, value)?;
    }
    Ok(())
}

// Adds the line of the first taker that waits at a cell. A put of this value resumes only that one.
fn add_taker(out: &mut String, memory: &Memory, a: u32, value: u64) -> Result<(), AllocError>
    ensures { let cells = memory.now.contents.cells in OnOk result (string_bytes out.new
        ≡ string_bytes out.old ++ nows_text (at_cell M (put value) cells a (held_at cells a)).resumed) }
{
    if !is_of_kind(memory, a, Kind::M) {
        return Ok(());
    }
    match memory.waiter(a, 0) {
        Some(taker) => add_now(out, taker, value),
        None => Ok(()),
    }
}

// Adds the lines of the requests that a new request resumes.
fn add_resumed(out: &mut String, memory: &Memory, request: &Request) -> Result<(), AllocError>
    ensures { OnOk result (string_bytes out.new ≡ string_bytes out.old
        ++ nows_text (act memory.now.contents.cells (asker request.now) request.now.op).resumed) }
{
    match request.op {
        Op::Store(a, value) => add_readers(out, memory, a, value),
        Op::Put(a, value) => add_taker(out, memory, a, value),
        Op::Alloc(_, _) | Op::Release(_) | Op::Reset(_) | Op::Fetch(_) | Op::Take(_) => Ok(()),
    }
}

// Returns whether a memory would accept a command.
fn accepts(memory: &Memory, command: &Command) -> bool
    ensures { result ≡ is_accepted memory.now.contents command.now }
{
    match memory.judge(command) {
        Ok(accepted) => accepted,
        Err(_) => false,
    }
}

// Adds the lines of the requests that a command resumes.
fn add_by_command(out: &mut String, memory: &Memory, command: &Command) -> Result<(), AllocError>
    ensures { OnOk result (string_bytes out.new
        ≡ string_bytes out.old ++ nows_text (resumed_by memory.now.contents command.now)) }
{
    match command {
        Command::Request(request) => {
            if accepts(memory, command) {
                add_resumed(out, memory, request)
            } else {
                Ok(())
            }
        }
        Command::Confirm { .. } => Ok(()),
    }
}

// Adds what those that watch are told of a request behind these members. Returns false if it isn't known before they
// act whom the request answers.
fn add_answered(
    memory: &Memory,
    ahead: &[Command],
    request: &Request,
    now: &mut String,
) -> Result<bool, AllocError>
    requires empty { string_bytes now.old ≡ [] }
    ensures { IfOk result (λ known. known ≡ true → (b : GroupStart) → b.memory ≡ memory.now.contents
        → TellsWatchers true b ahead.now (Command.Request request.now) (string_bytes now.new)) }
{
    let _cells = memory.cells(); // So that it is known to be a memory.
    if is_first(memory, ahead, request) {
        add_resumed(now, memory, request)?;
        Ok(true)
    } else {
        Ok(false)
    }
}

// Adds what those that watch are told of a command behind these members, if there are any. Returns false if that isn't
// known before they act.
fn add_behind(
    memory: &Memory,
    ahead: &[Command],
    command: &Command,
    now: &mut String,
) -> Result<bool, AllocError>
    requires empty { string_bytes now.old ≡ [] }
    ensures { IfOk result (λ known. known ≡ true → (b : GroupStart) → b.memory ≡ memory.now.contents
        → TellsWatchers true b ahead.now command.now (string_bytes now.new)) }
{
    if answers_nobody(*command) {
        return Ok(true);
    }
    match command {
        Command::Request(request) => add_answered(memory, ahead, request, now),
        Command::Confirm { .. } => Ok(false),
    }
}

// Adds what those that watch are told of a command behind these members. Returns false if that isn't known before they
// act. It is, if there are none.
fn add_told(
    memory: &Memory,
    ahead: &[Command],
    command: &Command,
    now: &mut String,
) -> Result<bool, AllocError>
    requires empty { string_bytes now.old ≡ [] }
    ensures known { IfOk result (λ known. known ≡ true → (b : GroupStart) → b.memory ≡ memory.now.contents
        → TellsWatchers true b ahead.now command.now (string_bytes now.new)) }
    ensures first { IfOk result (λ known. length ahead.now ≡ 0 → known ≡ true) }
{
    if ahead.is_empty() {
        add_by_command(now, memory, command)?;
        Ok(true)
    } else {
        add_behind(memory, ahead, command, now)
    }
}

// Makes what those that watch are told behind each of the first commands that are asked, as far as it is known before
// they act, at most of a group. Returns of how many it is.
fn add_nows(
    alloc: Global,
    memory: &Memory,
    asked: &[AskedCommand],
    nows: &mut Vec<String>,
) -> Result<usize, AllocError>
    requires empty { nows.old.items ≡ [] }
    ensures some { IfOk result (λ many. 0 < length asked.now → 0 < many) }
    ensures known { IfOk result (λ many. (b : GroupStart) → b.memory ≡ memory.now.contents
        → TellWatchers true b [] (take many (commands_asked asked.now)) (map string_bytes nows.new.items)) }
{
    let mut ahead = ArrayVec::new();
    for one in asked {
        if ahead.len() >= MAX_GROUP {
            return Ok(ahead.len());
        }
        let mut now = String::new(alloc);
        let known = add_told(memory, ahead.as_slice(), &one.command, &mut now)?;
        if !known {
            return Ok(ahead.len());
        }
        add_now_of(&mut ahead, nows, one.command, now)?;
    }
    Ok(ahead.len())
}

// Adds a command, and what those that watch are told behind it.
fn add_now_of(
    ahead: &mut ArrayVec<Command, MAX_GROUP>,
    nows: &mut Vec<String>,
    command: Command,
    now: String,
) -> Result<(), AllocError>
    requires room { length ahead.old.items < MAX_GROUP }
    ensures ahead { ahead.new.items ≡ ahead.old.items ++ command ∷ [] }
    ensures nows { OnOk result (map string_bytes nows.new.items
        ≡ map string_bytes nows.old.items ++ string_bytes now ∷ []) }
{
    ahead.push(command);
    nows.push(now)?;
    Ok(())
}

/// Makes what those that watch are told behind each of the first commands that are asked: of as many as are one group
/// at most, and if the dialogue is watched, as far as it is known before they act. Returns of how many it is, and of
/// one at least.
pub(crate) fn make_nows(
    alloc: Global,
    memory: &Memory,
    watch: bool,
    asked: &[AskedCommand],
    nows: &mut Vec<String>,
) -> Result<usize, AllocError>
    ensures some { IfOk result (λ many. 0 < length asked.now → 0 < many) }
    ensures known { IfOk result (λ many. (b : GroupStart) → b.memory ≡ memory.now.contents
        → TellWatchers watch b [] (take many (commands_asked asked.now)) (map string_bytes nows.new.items)) }
{
    nows.clear();
    if watch {
        add_nows(alloc, memory, asked, nows)
    } else {
        Ok(MAX_GROUP)
    }
}

/// Returns how much of these lines is told, given the line's answer: all of them if a command was done, and else
/// nothing.
pub(crate) fn told_with<'a>(answer: LineAnswer, nows: &'a str) -> &'a str
    ensures { result.now ≡ told_with answer nows.entry.now }
{
    match answer {
        LineAnswer::Served(_, Ok(_)) => nows,
        _ => "",
    }
}
