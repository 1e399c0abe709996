//! Writes texts in batches.
ghost use Rattle.std.specs.Prelude.{◌≡◌, ◌≤◌, false, [], length, take, IfOk, OnOk};
ghost use Rattle.std.specs.Io.KnownBytes.{Appends, WriteAppends};
ghost use Rattle.im_text.specs.Printing.{BatchesOn, Begins, TakesText};

use crate::reasons::Reason;
use std::alloc::{AllocError, Global};
use std::io::{ErrorKind, Write};

/// The most bytes that are kept back while there is more work at hand. It is the size of a pipe's buffer.
pub const BATCH: usize = 4_096;

// Writes some of the bytes. Returns how many: 0 if the write was interrupted.
fn write_some<W: Write>(out: &mut W, bytes: &[u8]) -> Result<usize, ErrorKind>
    ensures bound { IfOk result (λ count. count ≤ length bytes.now) }
    ensures bytes { WriteAppends (W.contents out.old) (W.contents out.new) result bytes.now }
{
    match out.write(bytes) {
        Ok(0) => Err(ErrorKind::WriteZero),
        Ok(count) => Ok(count),
        Err(error) => {
            if error.kind() == ErrorKind::Interrupted {
                Ok(0)
            } else {
                Err(error.kind())
            }
        }
    }
}

// Writes the bytes until a write fails. Returns how many were written.
fn write_out<W: Write>(out: &mut W, bytes: &[u8]) -> (usize, Result<(), ErrorKind>)
    ensures bound { result.0 ≤ length bytes.now }
    ensures bytes { Appends (W.contents out.old) (W.contents out.new) (take result.0 bytes.now) }
    ensures whole { OnOk result.1 (result.0 ≡ length bytes.now) }
{
    let mut written = 0;
    for _turn in 0..u64::MAX {
        if written >= bytes.len() {
            return (written, Ok(()));
        }
        match write_some(out, &bytes[written..]) {
            Ok(count) => written += count,
            Err(kind) => return (written, Err(kind)),
        }
    }
    (written, Err(ErrorKind::Interrupted))
}

/// Writes a whole text, and flushes the writer.
pub fn put_through<W: Write>(out: &mut W, text: &str) -> Result<(), Reason>
    ensures whole { OnOk result (Appends (W.contents out.old) (W.contents out.new) text.now) }
    ensures begins { Begins (W.contents out.old) (W.contents out.new) text.now }
{
    match write_out(out, text.as_bytes()).1 {
        Ok(()) => match out.flush() {
            Ok(()) => Ok(()),
            Err(error) => Err(Reason::Output(error.kind())),
        },
        Err(kind) => Err(Reason::Output(kind)),
    }
}

/// Texts of whole lines, which are written in batches.
#[derive(Drop)]
pub struct Batch {
    /// The texts that aren't written yet.
    pending: Vec<u8>,
    /// Whether a write has failed. Then nothing more is written.
    broken: bool,
}

impl Batch {
    /// Makes an empty batch, with room for [`BATCH`] bytes.
    pub fn new(alloc: Global) -> Result<Batch, AllocError>
        ensures pending { IfOk result (λ batch. batch.pending.items ≡ []) }
        ensures works { IfOk result (λ batch. batch.broken ≡ false) }
    {
        Ok(Batch {
            pending: Vec::with_capacity(alloc, BATCH)?,
            broken: false,
        })
    }

    // Writes the texts that are kept back.
    fn write<W: Write>(&mut self, out: &mut W) -> Result<(), Reason>
        requires works { self.old.broken ≡ false }
        ensures on { BatchesOn (W.contents out.old) self.old (W.contents out.new) self.new }
        ensures pending { OnOk result (self.new.pending.items ≡ []) }
        ensures works { OnOk result (self.new.broken ≡ false) }
    {
        match write_out(out, self.pending.as_slice()).1 {
            Ok(()) => {
                self.pending.clear();
                Ok(())
            }
            Err(kind) => {
                self.broken = true; // A part of it may be there.
                Err(Reason::Output(kind))
            }
        }
    }

    /// Writes the texts that are kept back, and flushes the writer. After a fault of the writer, nothing more is
    /// written.
    pub fn flush<W: Write>(&mut self, out: &mut W) -> Result<(), Reason>
        ensures on { BatchesOn (W.contents out.old) self.old (W.contents out.new) self.new }
        ensures pending { OnOk result (self.new.pending.items ≡ []) }
        ensures works { OnOk result (self.new.broken ≡ false) }
    {
        if self.broken {
            return Err(Reason::Output(ErrorKind::BrokenPipe));
        }
        self.write(out)?;
        match out.flush() {
            Ok(()) => Ok(()),
            Err(error) => {
                self.broken = true;
                Err(Reason::Output(error.kind()))
            }
        }
    }

    // Makes room in the batch for `len` more bytes.
    fn make_space<W: Write>(&mut self, out: &mut W, len: usize) -> Result<(), Reason>
        requires works { self.old.broken ≡ false }
        ensures on { BatchesOn (W.contents out.old) self.old (W.contents out.new) self.new }
        ensures works { OnOk result (self.new.broken ≡ false) }
    {
        if self.pending.len().saturating_add(len) <= BATCH {
            return Ok(());
        }
        self.write(out)
    }

    /// Takes a text. If it doesn't fit into the batch with those before it, they are written first.
    pub fn push<W: Write>(&mut self, out: &mut W, text: &str) -> Result<(), Reason>
        ensures more { TakesText result (W.contents out.old) self.old (W.contents out.new) self.new text.now }
    {
        if self.broken {
            return Err(Reason::Output(ErrorKind::BrokenPipe));
        }
        self.make_space(out, text.len())?;
        match self.pending.extend_from_slice(text.as_bytes()) {
            Ok(()) => Ok(()),
            Err(_) => Err(Reason::Memory),
        }
    }
}
