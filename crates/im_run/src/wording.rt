//! The text of a call and its answer in a trace: a line, or an object of JSON with its marks.
ghost use Rattle.std.specs.Prelude.{◌≡◌, [], ◌++◌, if◌then◌else◌, OnOk, Some, string_bytes};
ghost use Rattle.im_run.specs.Traced.{answer_members, call_members, call_object, call_start, mark_members};
ghost use Rattle.im_run.specs.Traced.{outcome_number, outcome_word, reply_member, request_members};
ghost use Rattle.im_run.specs.Tracing.{call_text, outcome_text, refusal_text, request_text, trace_line, traced_text};

use im_controller::Since;
use im_text::{
    add_entry, add_number, add_object_start, add_op, add_op_members, entry_parts, op_word,
};
use im_types::{Call, Command, Line, Outcome, Refusal, Request};
use std::alloc::AllocError;

// Adds a request, as a dialogue has it.
fn add_request(text: &mut String, request: Request) -> Result<(), AllocError>
    ensures { OnOk result (string_bytes text.new ≡ string_bytes text.old ++ request_text request) }
{
    let element = request.element;
    let number = request.number;
    write!(text, "{element}.{number} ")?;
    add_op(text, request.op)
}

// Adds a call, as a dialogue has it.
fn add_call(text: &mut String, call: Call) -> Result<(), AllocError>
    ensures { OnOk result (string_bytes text.new ≡ string_bytes text.old ++ call_text call) }
{
    match call {
        Call::Command(Command::Request(request)) => add_request(text, request),
        Call::Command(Command::Confirm { element, upto }) => {
            write!(text, "confirm {element} {upto}")
        }
        Call::Collect { element, number } => write!(text, "collect {element}.{number}"),
    }
}

// Adds a refusal.
fn add_refusal(text: &mut String, refusal: Refusal) -> Result<(), AllocError>
    ensures { OnOk result (string_bytes text.new ≡ string_bytes text.old ++ refusal_text refusal) }
{
    let number = refusal.number();
    write!(text, "refused {number}")
}

// Adds the answer to a call.
fn add_answer(text: &mut String, answer: Result<Outcome, Refusal>) -> Result<(), AllocError>
    ensures { OnOk result (string_bytes text.new ≡ string_bytes text.old ++ outcome_text answer) }
{
    match answer {
        Ok(Outcome::Entry(entry)) => add_entry(text, entry),
        Ok(Outcome::Confirmed) => text.push_str("confirmed"),
        Err(refusal) => add_refusal(text, refusal),
    }
}

// Adds the line of a call and its answer.
fn add_line(text: &mut String, line: Line) -> Result<(), AllocError>
    ensures { OnOk result (string_bytes text.new ≡ string_bytes text.old ++ trace_line (Some line)) }
{
    add_call(text, line.call)?;
    text.push_str(" -> ")?;
    add_answer(text, line.answer)?;
    text.push_str("\n")
}

// Adds the start of a call's object: the element, the number and the word of the call.
fn add_start(text: &mut String, element: u16, number: u64, word: &str) -> Result<(), AllocError>
    ensures { OnOk result (string_bytes text.new ≡ string_bytes text.old ++ call_start element number word.now) }
{
    add_object_start(text, element, number)?;
    write!(text, ",\"call\":\"{word}\"")
}

// Adds the members of a request.
fn add_request_members(text: &mut String, request: Request) -> Result<(), AllocError>
    ensures { OnOk result (string_bytes text.new ≡ string_bytes text.old ++ request_members request) }
{
    add_start(text, request.element, request.number, op_word(request.op))?;
    add_op_members(text, request.op)
}

// Adds the members of a call.
fn add_call_members(text: &mut String, call: Call) -> Result<(), AllocError>
    ensures { OnOk result (string_bytes text.new ≡ string_bytes text.old ++ call_members call) }
{
    match call {
        Call::Command(Command::Request(request)) => add_request_members(text, request),
        Call::Command(Command::Confirm { element, upto }) => {
            add_start(text, element, upto, "confirm")
        }
        Call::Collect { element, number } => add_start(text, element, number, "collect"),
    }
}

// Adds a text, if it is so.
fn add_if(text: &mut String, is_so: bool, part: &str) -> Result<(), AllocError>
    ensures { OnOk result (string_bytes text.new ≡ string_bytes text.old ++ (if is_so then part.now else [])) }
{
    if is_so { text.push_str(part) } else { Ok(()) }
}

// Adds the members of marks.
fn add_marks(text: &mut String, since: Since) -> Result<(), AllocError>
    ensures { OnOk result (string_bytes text.new ≡ string_bytes text.old ++ mark_members since) }
{
    add_if(text, since.group, ",\"group\":true")?;
    add_if(text, since.checkpoint, ",\"checkpoint\":true")
}

// The word of an answer, and its number if it has one.
fn answer_parts(answer: Result<Outcome, Refusal>) -> (&'static str, Option<u64>)
    ensures word { result.0.now ≡ outcome_word answer }
    ensures number { result.1 ≡ outcome_number answer }
{
    match answer {
        Ok(Outcome::Entry(entry)) => entry_parts(entry),
        Ok(Outcome::Confirmed) => ("confirmed", None),
        Err(refusal) => ("refused", Some(u64::from(refusal.number()))),
    }
}

// Adds the word of an answer.
fn add_reply(text: &mut String, word: &str) -> Result<(), AllocError>
    ensures { OnOk result (string_bytes text.new ≡ string_bytes text.old ++ reply_member word.now) }
{
    write!(text, ",\"reply\":\"{word}\"")
}

// Adds the members of an answer, and ends the object.
fn add_answer_members(text: &mut String, answer: Result<Outcome, Refusal>) -> Result<(), AllocError>
    ensures { OnOk result (string_bytes text.new ≡ string_bytes text.old ++ answer_members answer) }
{
    let (word, number) = answer_parts(answer);
    add_reply(text, word)?;
    add_number(text, word, number)?;
    text.push_str("}\n")
}

// Adds the object of a call with its marks and its answer.
fn add_object(text: &mut String, since: Since, line: Line) -> Result<(), AllocError>
    ensures { OnOk result (string_bytes text.new ≡ string_bytes text.old ++ call_object since (Some line)) }
{
    add_call_members(text, line.call)?;
    add_marks(text, since)?;
    add_answer_members(text, line.answer)
}

/// Makes the line of a call and its answer, or their object with the marks, if there is a call.
pub(crate) fn make_call(
    text: &mut String,
    objects: bool,
    since: Since,
    line: Option<Line>,
) -> Result<(), AllocError>
    ensures { OnOk result (string_bytes text.new ≡ traced_text objects since line) }
{
    text.clear();
    let Some(line) = line else {
        return Ok(());
    };
    if objects {
        add_object(text, since, line)
    } else {
        add_line(text, line)
    }
}
