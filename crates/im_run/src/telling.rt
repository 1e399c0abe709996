//! Prints what was done.
ghost use Rattle.std.specs.Prelude.{◌≡◌, length, OnOk, slice_get};
ghost use Rattle.im_text.specs.Said.{PrintsMore, Pushes};
ghost use Rattle.im_run.specs.Running.{final, final_line, finals, PrintsFinals};

use crate::served::Did;
use im_memory::Memory;
use im_text::{Lines, OutputLine, Reason, Waited};
use im_types::Entry;
use std::io::Write;

// Returns the final entry of a request: what the memory keeps for it, or what its server was told before it was
// forgotten.
fn final_entry(memory: &Memory, sent: Waited) -> Entry
    ensures { result ≡ final memory.now.contents sent }
{
    match memory.collect(sent.element, sent.number) {
        Ok(entry) => entry,
        Err(_) => sent.entry,
    }
}

// Returns what was done at an index.
fn did_at(did: &[Did], at: usize) -> Option<Did>
    ensures { result ≡ slice_get did.now at }
{
    did.get(at).copied()
}

// Prints the line of what was done. A request's line has its final entry.
fn print_final<W: Write>(
    memory: &Memory,
    did: Option<Did>,
    lines: &mut Lines,
    out: &mut W,
) -> Result<(), Reason>
    ensures more { Pushes result (W.contents out.old) lines.old (W.contents out.new) lines.new
        (final_line memory.now.contents did) }
{
    match did {
        Some(Did::Sent(sent)) => {
            let reply = Waited {
                element: sent.element,
                number: sent.number,
                entry: final_entry(memory, sent),
            };
            lines.push(out, OutputLine::Reply(reply))
        }
        Some(Did::Glanced(element, address, value)) => {
            lines.push(out, OutputLine::Glance(element, address, value))
        }
        None => Ok(()),
    }
}

/// Prints the line of each request that was sent, with its final entry, and of each glance.
pub fn print_finals<W: Write>(
    memory: &Memory,
    did: &[Did],
    lines: &mut Lines,
    out: &mut W,
) -> Result<(), Reason>
    ensures all { OnOk result (PrintsMore (W.contents out.old) lines.old (W.contents out.new) lines.new
        (finals memory.now.contents did.now (length did.now))) }
    ensures some { PrintsFinals (W.contents out.old) lines.old (W.contents out.new) lines.new
        memory.now.contents did.now }
{
    for at in 0..did.len() {
        match print_final(memory, did_at(did, at), lines, out) {
            Ok(()) => {}
            Err(reason) => return Err(reason),
        }
    }
    Ok(())
}
