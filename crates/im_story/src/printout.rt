//! A writer in memory.

use std::alloc::Global;
use std::io;
use std::io::{ErrorKind, Write};

/// A writer that takes a number of bytes, and then fails.
#[derive(Drop)]
pub struct Printout {
    text: Vec<u8>,
    room: usize,
}

impl Printout {
    /// Starts with nothing written, and room for so many bytes.
    pub fn with_room(alloc: Global, room: usize) -> Printout {
        Printout {
            text: Vec::new(alloc),
            room,
        }
    }

    /// Starts with nothing written, and never fails but for want of memory.
    pub fn new(alloc: Global) -> Printout {
        Printout::with_room(alloc, usize::MAX)
    }

    /// Returns what was written.
    pub fn text(&self) -> &str {
        str::from_utf8(self.text.as_slice()).unwrap_or("what was written is no text")
    }
}

impl Write for Printout {
    fn write(&mut self, buf: &[u8]) -> io::Result<usize> {
        let count = buf.len().min(self.room);
        if count == 0 && !buf.is_empty() {
            return Err(ErrorKind::BrokenPipe.into());
        }
        self.text.extend_from_slice(&buf[..count])?;
        self.room -= count;
        Ok(count)
    }

    fn flush(&mut self) -> io::Result<()> {
        Ok(())
    }
}
