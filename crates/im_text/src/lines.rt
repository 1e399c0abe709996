//! The lines of a script on their way to a writer.
ghost use Rattle.std.specs.Prelude.{◌≡◌, false, [], ◌∷◌, IfOk, OnOk};
ghost use Rattle.im_text.specs.Said.{PrintsOn, Pushes};

use crate::batches::Batch;
use crate::erring::is_fault_line;
use crate::reasons::Reason;
use crate::said::{OutputLine, Style, add_said};
use std::alloc::{AllocError, Global};
use std::io::Write;

// Room for the text of a line.
const LINE: usize = 128;

/// Lines, which are said in one style and written in batches.
#[derive(Drop)]
pub struct Lines {
    /// What is said of them, as far as it isn't written yet.
    batch: Batch,
    /// How they are said.
    style: Style,
    /// Whether one of them tells an error of the program that asked.
    faulted: bool,
    /// Room for what is said of a line.
    made: String,
}

impl Lines {
    /// Makes a batch of no lines.
    pub fn new(alloc: Global, style: Style) -> Result<Lines, AllocError>
        ensures pending { IfOk result (λ lines. lines.batch.pending.items ≡ []) }
        ensures works { IfOk result (λ lines. lines.batch.broken ≡ false) }
        ensures style { IfOk result (λ lines. lines.style ≡ style) }
        ensures faulted { IfOk result (λ lines. lines.faulted ≡ false) }
    {
        Ok(Lines {
            batch: Batch::new(alloc)?,
            style,
            faulted: false,
            made: String::with_capacity(alloc, LINE)?,
        })
    }

    /// Takes a line. If it doesn't fit into the batch with the lines before it, those are written first.
    pub fn push<W: Write>(&mut self, out: &mut W, line: OutputLine) -> Result<(), Reason>
        ensures more { Pushes result (W.contents out.old) self.old (W.contents out.new) self.new (line ∷ []) }
    {
        self.made.clear();
        match add_said(&mut self.made, self.style, line) {
            Ok(()) => match self.batch.push(out, self.made.as_str()) {
                Ok(()) => {
                    self.faulted |= is_fault_line(line);
                    Ok(())
                }
                Err(reason) => Err(reason),
            },
            Err(_) => Err(Reason::Memory),
        }
    }

    /// Returns whether one of the lines tells an error of the program that asked: `nospace`, `badlength`, `clash`,
    /// `nocell`, `wrongkind`, `noblock` or `stillwaiting`.
    pub fn faulted(&self) -> bool
        ensures { result ≡ self.now.faulted }
    {
        self.faulted
    }

    /// Writes what is kept back, and flushes the writer. After a fault of the writer, nothing more is written.
    pub fn flush<W: Write>(&mut self, out: &mut W) -> Result<(), Reason>
        ensures on { PrintsOn (W.contents out.old) self.old (W.contents out.new) self.new }
        ensures pending { OnOk result (self.new.batch.pending.items ≡ []) }
        ensures works { OnOk result (self.new.batch.broken ≡ false) }
    {
        self.batch.flush(out)
    }
}
