//! What a line asks for.
ghost use Rattle.std.specs.Prelude.{◌≡◌, [], ◌∷◌, IfOk, ◌==◌, option_map, option_and_then};
ghost use Rattle.std.specs.{List.slice_split, Option.option_or};
ghost use Rattle.im_types.specs.Types.{Asks};
ghost use Rattle.im_script.specs.{Grammar.span_in, Grammar.texts, Grammar.words_of, Lines.action_of, Places.action_op};
ghost use Rattle.im_dialogue.specs.Asking.{asked_by_one, asked_by_request, asked_by_three, asked_by_two, asked_in};
ghost use Rattle.im_dialogue.specs.Asking.{asked_of, element_of, request_number_of, waiter_by, waiter_named};
ghost use Rattle.im_dialogue.specs.Backups.{backup_name_of};
ghost use Rattle.im_dialogue.specs.declared.asking.Question.TheVariants.{Backup, Look as Looks, Serve, Window};
ghost use Rattle.im_dialogue.specs.declared.look.Look.TheVariants.{Block, Cell, Cells, Collect, Entry};

use crate::backup_name::BackupName;
use crate::look::Look;
use im_script::{is_line, read_action, read_number, read_span, read_u32, split_words};
use im_types::{Command, Op, Request, Waiter};
use indexmap::IndexSet;
use std::alloc::{AllocError, Global};

/// What a line of a dialogue asks for.
#[derive(Clone, Copy, Debug, PartialEq, Eq)]
pub enum Question {
    /// `E.N` and a request, or `confirm E UPTO`: a command is served.
    Serve(Command),
    /// A line that only looks: what the memory shows.
    Look(Look),
    /// `window E`: the first number that an element keeps, and its next one.
    Window(u16),
    /// `room`: for how many more commands the journal has room.
    Room,
    /// `turn`: one turn of a checkpoint.
    Turn,
    /// `count`: how many commands were accepted.
    Count,
    /// `about`: the layout and sizes of the image, how many commands were accepted, and the room.
    About,
    /// `backup NAME`: a copy of the image, kept under the name.
    Backup(BackupName),
    /// `quit`: the end of the dialogue.
    Quit,
}

// Reads an element's number.
pub(crate) fn read_element(word: &[u8]) -> Option<u16>
    ensures { result ≡ element_of word.now }
{
    match read_number(word, u16::MAX as u64) {
        Some(number) => Some(number as u16),
        None => None,
    }
}

// Reads an element and a number, given their words.
fn read_pair(element: &[u8], number: &[u8]) -> Option<Waiter>
    ensures { result ≡ waiter_by (element.now ∷ number.now ∷ []) }
{
    Some(Waiter {
        element: read_element(element)?,
        number: read_number(number, u64::MAX)?,
    })
}

// Splits a word at its dots.
fn split_dots<'a>(alloc: Global, word: &'a [u8]) -> Result<Vec<&'a [u8]>, AllocError>
    ensures { IfOk result (λ parts. texts parts.items ≡ slice_split (λ byte. byte == 46) word.entry.now) }
{
    word.split(|byte| *byte == b'.').collect(alloc)
}

// Reads an element and a number, given the parts of a word.
fn read_parts(parts: &[&[u8]]) -> Option<Waiter>
    ensures { result ≡ waiter_by (texts parts.now) }
{
    match parts {
        [element, number] => read_pair(element, number),
        _ => None,
    }
}

// Reads E.N.
pub(crate) fn read_waiter(alloc: Global, word: &[u8]) -> Result<Option<Waiter>, AllocError>
    ensures { IfOk result (λ who. who ≡ waiter_named word.now) }
{
    let parts = split_dots(alloc, word)?;
    Ok(read_parts(parts.as_slice()))
}

// Reads a request as it stands after E.N.
fn read_op(alloc: Global, words: &[&[u8]]) -> Option<Op>
    ensures { result ≡ option_and_then (action_op []) (action_of [] (texts words.now)) }
{
    let names = IndexSet::new(alloc);
    read_action(&names, words)?.op(&[])
}

// Reads a line of one word.
pub(crate) fn read_one(word: &[u8]) -> Option<Question>
    ensures { result ≡ asked_by_one word.now }
{
    if word == b"room".as_slice() {
        Some(Question::Room)
    } else if word == b"turn".as_slice() {
        Some(Question::Turn)
    } else if word == b"count".as_slice() {
        Some(Question::Count)
    } else if word == b"about".as_slice() {
        Some(Question::About)
    } else if word == b"stat".as_slice() {
        Some(Question::Look(Look::Stat))
    } else if word == b"blocks".as_slice() {
        Some(Question::Look(Look::Blocks))
    } else if word == b"elements".as_slice() {
        Some(Question::Look(Look::Elements))
    } else if word == b"waiting".as_slice() {
        Some(Question::Look(Look::Waiting))
    } else if word == b"help".as_slice() {
        Some(Question::Look(Look::Help))
    } else if word == b"quit".as_slice() {
        Some(Question::Quit)
    } else {
        None
    }
}

// Asks for the window of an element.
fn read_window(element: &[u8]) -> Option<Question>
    ensures { result ≡ option_map Window (element_of element.now) }
{
    match read_element(element) {
        Some(element) => Some(Question::Window(element)),
        None => None,
    }
}

// Asks for a backup under a name.
fn read_backup(name: &[u8]) -> Option<Question>
    ensures { result ≡ option_map Backup (backup_name_of name.now) }
{
    match BackupName::read(name) {
        Some(name) => Some(Question::Backup(name)),
        None => None,
    }
}

// Asks what is kept for a request.
fn ask_collect(who: Option<Waiter>) -> Option<Question>
    ensures { result ≡ option_map (λ w. Looks (Collect w)) who }
{
    match who {
        Some(who) => Some(Question::Look(Look::Collect(who))),
        None => None,
    }
}

// Asks for a request, and what is kept for it.
fn ask_entry(who: Option<Waiter>) -> Option<Question>
    ensures { result ≡ option_map (λ w. Looks (Entry w)) who }
{
    match who {
        Some(who) => Some(Question::Look(Look::Entry(who))),
        None => None,
    }
}

// Asks for the cells at the addresses FROM-TO.
fn read_cells(span: &[u8]) -> Option<Question>
    ensures { result ≡ option_map (λ s. Looks (Cells s.0 s.1)) (span_in span.now) }
{
    match read_span(span) {
        Some((from, to)) => Some(Question::Look(Look::Cells(from, to))),
        None => None,
    }
}

// Asks for the cell at an address.
fn ask_cell(a: Option<u32>) -> Option<Question>
    ensures { result ≡ option_map (λ a. Looks (Cell a)) a }
{
    match a {
        Some(a) => Some(Question::Look(Look::Cell(a))),
        None => None,
    }
}

// Asks for the block that an address lies in.
fn ask_block(a: Option<u32>) -> Option<Question>
    ensures { result ≡ option_map (λ a. Looks (Block a)) a }
{
    match a {
        Some(a) => Some(Question::Look(Look::Block(a))),
        None => None,
    }
}

// Reads a line of two words.
fn read_two(alloc: Global, word: &[u8], what: &[u8]) -> Result<Option<Question>, AllocError>
    ensures { IfOk result (λ asked. asked ≡ asked_by_two word.now what.now) }
{
    if word == b"collect".as_slice() {
        let who = read_waiter(alloc, what)?;
        Ok(ask_collect(who))
    } else if word == b"entry".as_slice() {
        let who = read_waiter(alloc, what)?;
        Ok(ask_entry(who))
    } else if word == b"window".as_slice() {
        Ok(read_window(what))
    } else if word == b"backup".as_slice() {
        Ok(read_backup(what))
    } else if word == b"cells".as_slice() {
        Ok(read_cells(what))
    } else if word == b"cell".as_slice() {
        Ok(ask_cell(read_u32(what)))
    } else if word == b"block".as_slice() {
        Ok(ask_block(read_u32(what)))
    } else {
        Ok(None)
    }
}

// Reads a confirmation.
fn read_confirm(word: &[u8], element: &[u8], upto: &[u8]) -> Option<Question>
    ensures { result ≡ asked_by_three word.now element.now upto.now }
{
    if word != b"confirm".as_slice() {
        return None;
    }
    let element = read_element(element)?;
    let upto = read_number(upto, u64::MAX)?;
    Some(Question::Serve(Command::Confirm { element, upto }))
}

// Asks for a request, given who asks and the operation.
fn ask_request(who: Option<Waiter>, op: Option<Op>) -> Option<Question>
    ensures { result ≡ option_and_then (λ w. option_map (λ o. Serve (Asks (record {
      element = w.element;
      number = w.number;
      op = o;
    }))) op) who }
{
    let who = who?;
    let op = op?;
    Some(Question::Serve(Command::Request(Request {
        element: who.element,
        number: who.number,
        op,
    })))
}

// Reads a request.
fn read_request(alloc: Global, first: &[u8], rest: &[&[u8]]) -> Result<Option<Question>, AllocError>
    ensures { IfOk result (λ asked. asked ≡ asked_by_request first.now (texts rest.now)) }
{
    let who = read_waiter(alloc, first)?;
    Ok(ask_request(who, read_op(alloc, rest)))
}

// Reads a line of three words.
fn read_three(
    alloc: Global,
    word: &[u8],
    first: &[u8],
    second: &[u8],
) -> Result<Option<Question>, AllocError>
    ensures { IfOk result (λ asked. asked ≡ option_or (asked_by_three word.now first.now second.now)
        (asked_by_request word.now (first.now ∷ second.now ∷ []))) }
{
    match read_confirm(word, first, second) {
        Some(asked) => Ok(Some(asked)),
        None => read_request(alloc, word, [first, second].as_slice()),
    }
}

// Reads a line, given its words.
fn read_words(alloc: Global, words: &[&[u8]]) -> Result<Option<Question>, AllocError>
    ensures { IfOk result (λ asked. asked ≡ asked_in (texts words.now)) }
{
    match words {
        [word] => Ok(read_one(word)),
        [word, what] => read_two(alloc, word, what),
        [word, first, second] => read_three(alloc, word, first, second),
        [word, first, second, third] => {
            read_request(alloc, word, [*first, *second, *third].as_slice())
        }
        _ => Ok(None),
    }
}

/// Reads what a line, given without its line feed, asks for. Returns `None` if the line isn't in the grammar or has
/// more than 4,096 bytes. The only error is a growth that `alloc` refused; nothing is left of it.
pub fn read_asked(alloc: Global, line: &[u8]) -> Result<Option<Question>, AllocError>
    ensures { IfOk result (λ asked. asked ≡ asked_of line.now) }
{
    if !is_line(line) {
        return Ok(None);
    }
    let words = split_words(alloc, line)?;
    read_words(alloc, words.as_slice())
}
