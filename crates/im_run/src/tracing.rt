//! The trace of a run: its calls in the order that was kept, each with its answer and its marks.
ghost use Rattle.std.specs.Prelude.{◌≡◌, true, [], ◌++◌, length, OnOk, slice_get};
ghost use Rattle.im_text.specs.Printing.{TakesText};
ghost use Rattle.im_run.specs.Tracing.{BeginsTrace, MayStand, PrintsAll, PrintsSome, traced_text, unmarked};
ghost use Rattle.im_run.specs.Tracing.{WritesTrace};

use crate::calls::Calls;
use crate::wording::make_call;
use im_controller::{Since, Traced};
use im_text::{Batch, Reason};
use im_types::Line;
use std::alloc::Global;
use std::io::Write;
use std::marker::Model;

/// The calls of a run with their answers, in the order in which they were served: those of the setup, then those of the
/// elements' servers, as the lock kept them. Contracts see these two lists, and whether the second was recorded.
#[derive(Drop)]
pub struct Trace {
    pub(crate) setup: Vec<Line>,
    pub(crate) served: Calls,
}

impl Model for Trace {
    ghost use Rattle.im_run.specs.Tracing.{TraceState};

    ghost Value = { TraceState };

    ghost view = { λ t. record {
      setup = t.setup.items;
      served = t.served.items;
      recorded = t.served.recorded;
    } };
}

impl Trace {
    // Makes the trace of a run that served nothing.
    pub(crate) fn new(alloc: Global) -> Trace
        ensures { result ≡ record { setup = []; served = []; recorded = true } }
    {
        Trace {
            setup: Vec::new(alloc),
            served: Calls::new(),
        }
    }
}

// Prints the line of a call and its answer, or their object with its marks.
fn print_call<W: Write>(
    objects: bool,
    call: (Since, Option<Line>),
    text: &mut String,
    batch: &mut Batch,
    out: &mut W,
) -> Result<(), Reason>
    ensures more { TakesText result (W.contents out.old) batch.old (W.contents out.new) batch.new
        (traced_text objects call.0 call.1) }
{
    let Ok(()) = make_call(text, objects, call.0, call.1) else {
        return Err(Reason::Memory);
    };
    batch.push(out, text.as_str())
}

// The calls of a trace: those of the setup, and those of the servers. Whether they are written as objects.
#[derive(Clone, Copy)]
struct TraceLines<'a> {
    setup: &'a [Line],
    served: &'a [Traced],
    objects: bool,
}

// Returns the line of the setup at an index.
fn setup_at(setup: &[Line], at: usize) -> Option<Line>
    ensures { result ≡ slice_get setup.now at }
{
    setup.get(at).copied()
}

// Returns the line of the servers at an index.
fn served_at(served: &[Traced], at: usize) -> Option<Line>
    ensures { result ≡ slice_get served.now at }
{
    match served.get(at) {
        Some(traced) => Some(traced.line()),
        None => None,
    }
}

// Returns the line at an index of both.
fn line_at(setup: &[Line], served: &[Traced], at: usize) -> Option<Line>
    ensures { result ≡ slice_get (setup.now ++ served.now) at }
{
    if at < setup.len() {
        return setup_at(setup, at);
    }
    served_at(served, at - setup.len())
}

// No mark.
fn no_marks() -> Since
    ensures { result ≡ unmarked }
{
    Since {
        group: false,
        checkpoint: false,
    }
}

// Returns the marks of the servers' line at an index.
fn since_at(served: &[Traced], at: usize) -> Since
    ensures { MayStand [] served.now at result }
{
    let Some(traced) = served.get(at) else {
        return no_marks();
    };
    traced.since()
}

// Returns the marks of the line at an index of both.
fn marks_at(both: TraceLines<'_>, at: usize) -> Since
    ensures { MayStand both.entry.setup.now (both.entry.setup.now ++ both.entry.served.now) at result }
{
    if at < both.setup.len() {
        return no_marks();
    }
    since_at(both.served, at - both.setup.len())
}

// Returns how many lines both have.
fn count_of(setup: &[Line], served: &[Traced]) -> usize
    ensures { result ≡ length (setup.now ++ served.now) }
{
    setup.len() + served.len()
}

// Prints all lines of both.
fn print_lines<W: Write>(
    both: TraceLines<'_>,
    text: &mut String,
    batch: &mut Batch,
    out: &mut W,
) -> Result<(), Reason>
    ensures all { OnOk result (PrintsAll both.entry.objects both.entry.setup.now
        (both.entry.setup.now ++ both.entry.served.now) (W.contents out.old) batch.old (W.contents out.new)
        batch.new) }
    ensures some { PrintsSome both.entry.objects both.entry.setup.now
        (both.entry.setup.now ++ both.entry.served.now) (W.contents out.old) batch.old (W.contents out.new)
        batch.new }
{
    let setup = both.setup;
    let served = both.served;
    for at in 0..count_of(setup, served) {
        let since = marks_at(both, at);
        let line = line_at(setup, served, at);
        match print_call(both.objects, (since, line), text, batch, out) {
            Ok(()) => {}
            Err(reason) => return Err(reason),
        }
    }
    Ok(())
}

/// Writes a trace, a line for each call: what a line of a dialogue asks, ` -> `, and the reply. A dialogue that is
/// asked the same on the image as it was before the run gives the same replies. If the servers' calls weren't recorded,
/// those of the setup are written alone.
///
/// If `objects` is set, writes an object of JSON for each call in place of the line. It has the element, the number and
/// the word of the call, what it asks for, its marks, and its reply. The mark `group` says that a group of commands
/// began with the call, and `checkpoint` that one came in force since the call before. A call of the setup has no
/// marks, and a collect or a refused call begins no group.
///
/// Returns `Output` if a write fails, and `Memory` if there is not enough memory. What was written is then a prefix of
/// the lines or the objects.
pub fn write_trace<W: Write>(
    alloc: Global,
    trace: &Trace,
    objects: bool,
    out: &mut W,
) -> Result<(), Reason>
    ensures whole { OnOk result (WritesTrace objects trace.now (W.contents out.old) (W.contents out.new)) }
    ensures begins { BeginsTrace objects trace.now (W.contents out.old) (W.contents out.new) }
{
    let Ok(mut batch) = Batch::new(alloc) else {
        return Err(Reason::Memory);
    };
    let mut text = String::new(alloc);
    let both = TraceLines {
        setup: trace.setup.as_slice(),
        served: trace.served.as_slice(),
        objects,
    };
    match print_lines(both, &mut text, &mut batch, out) {
        Ok(()) => batch.flush(out),
        Err(reason) => {
            let _written = batch.flush(out);
            Err(reason)
        }
    }
}
