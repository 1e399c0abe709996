//! Why a text isn't loaded.
ghost use Rattle.std.specs.Prelude.{◌≡◌};
ghost use Rattle.im_dump.specs.Faults.{fault_refusal};

use im_script::Quoted;
use im_types::Refusal;
use std::fmt;
use thiserror::Error;

/// What a dump has in the place of a wrong or missing word. Its text says it in words.
#[derive(Clone, Copy, Debug, PartialEq, Eq)]
pub enum Wanted {
    /// The words of the first line.
    First,
    /// The line of the number of cells.
    Cells,
    /// The line of the number of elements.
    Elements,
    /// The line of the number of journal slots.
    Slots,
    /// The line of the count of commands.
    Count,
    /// The first word of a line behind the head.
    Start,
    /// The address of a cell in the last block that began.
    Address,
    /// The address of a block that begins behind the others and ends within the cells.
    Room,
    /// What a line says of a cell.
    State,
    /// A kind of cells.
    Kind,
    /// The number of cells in a block.
    Length,
    /// The value of a cell.
    Value,
    /// A request that waits.
    Waiter,
    /// No further request that waits: there are as many as windows can keep.
    FewWaiters,
    /// The number of an element.
    Element,
    /// The word before a window's base.
    BaseWord,
    /// The number of a window's first entry.
    Base,
    /// The element whose line was the last, and the next number of its window.
    Next,
    /// No further entry: the window is full.
    FewEntries,
    /// The operation of a request.
    Operation,
    /// The sign between an operation and its answer.
    Arrow,
    /// The answer to a request.
    Answer,
    /// The end of the line.
    End,
    /// The rest of those who wait, or of their entries.
    Agreement,
}

impl Wanted {
    fn text(self) -> &'static str {
        match self {
            Wanted::First => "the line 'imem dump 1'",
            Wanted::Cells => "the line 'cells N', with a number from 1 to 1048576,",
            Wanted::Elements => "the line 'elements N', with a number from 1 to 64,",
            Wanted::Slots => "the line 'slots N', with a number from 16 to 4096,",
            Wanted::Count => "the line 'count N', with a number from 0 to 4611686018427387904,",
            Wanted::Start => "cell, element, entry or end",
            Wanted::Address => "the address of a cell in the block of the last line 'cell A block'",
            Wanted::Room => "the address of a block behind those before it and within the cells",
            Wanted::State => "block, waits, full or clashed",
            Wanted::Kind => "i or m",
            Wanted::Length => "the number of a block's cells, from 1 on,",
            Wanted::Value => "a number from 0 to 18446744073709551615",
            Wanted::Waiter => "E.N, with an element's number E and a request's number N,",
            Wanted::FewWaiters => "no further request that waits: windows can't keep so many,",
            Wanted::Element => "an element's number below the number of elements",
            Wanted::BaseWord => "base",
            Wanted::Base => "a request's number",
            Wanted::Next =>
                "E.N, with the element of the lines before and the next number of its window,",
            Wanted::FewEntries => "no further entry: a window keeps 64,",
            Wanted::Operation => "an operation, with its numbers,",
            Wanted::Arrow => "->",
            Wanted::Answer => "waiting or an answer",
            Wanted::End => "the end of the line",
            Wanted::Agreement => "a cell for each waiting entry, or an entry for each that waits,",
        }
    }
}

impl fmt::Display for Wanted {
    fn fmt<W: fmt::Write>(&self, f: &mut fmt::Formatter<W>) -> fmt::Result {
        f.write_str(self.text())
    }
}

/// What in a line is no line of a dump.
#[derive(Clone, Copy, Debug, PartialEq, Eq, Error)]
pub enum TextLineFault {
    /// The line ends, but a word is missing.
    #[error("the line ends, where {0} is expected")]
    Ends(Wanted),
    /// The first word that no dump has there.
    #[error("{0}, where {1} is expected")]
    Word(Quoted, Wanted),
    /// The first word that isn't what the dump of this memory has there.
    #[error("{0}, where the dump of this memory has {1}")]
    Unlike(Quoted, Quoted),
    /// The text ends before the dump of this memory does.
    #[error("the text ends before or within the line of {0}")]
    Short(Quoted),
}

/// Why a text isn't loaded.
#[derive(Clone, Copy, Debug, PartialEq, Eq, Error)]
pub enum DumpFault {
    /// There was not enough memory.
    #[error("not enough memory for the dump")]
    NoMemory,
    /// A line isn't one that a dump has there.
    #[error("line {line}: {fault}")]
    BadLine {
        /// The line's number, from 1.
        line: usize,
        /// What is wrong in the line.
        fault: TextLineFault,
    },
}

impl DumpFault {
    /// Returns the refusal for this fault: `NoMemory` or `BadScript`.
    pub fn refusal(self) -> Refusal
        ensures { result ≡ fault_refusal self }
    {
        match self {
            DumpFault::NoMemory => Refusal::NoMemory,
            DumpFault::BadLine { .. } => Refusal::BadScript,
        }
    }
}
