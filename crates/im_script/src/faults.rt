//! Why a text is no script.
ghost use Rattle.std.specs.Prelude.{◌≡◌};
ghost use Rattle.im_script.specs.Faults.{refusal_of};

use im_types::Refusal;
use std::fmt;
use thiserror::Error;

/// The most bytes of a word that a fault quotes.
const MOST_QUOTED: usize = 32;

/// What the grammar expects in the place of a wrong or missing word. Its text says it in words.
#[derive(Clone, Copy, Debug, PartialEq, Eq)]
pub enum Expected {
    /// The first word of the first line that counts.
    Start,
    /// The first word of a line in the setup.
    Setup,
    /// The first word of a line in a part.
    Request,
    /// The first word of a line in a part that may have glances.
    RequestOrGlance,
    /// The number of an element.
    Element,
    /// A name.
    Name,
    /// A name that no earlier line gave.
    NewName,
    /// A kind of cells.
    Kind,
    /// The number of cells in a block.
    Length,
    /// Where a request acts.
    Place,
    /// The number of cells from a name's base to the place.
    Offset,
    /// The value that a store or a put writes.
    Value,
    /// The end of the line.
    End,
    /// A word of ASCII.
    Ascii,
    /// A word of ASCII in a remark.
    AsciiRemark,
    /// The first word of a line of a dialogue.
    Asked,
    /// An element and a request's number, with a dot between them.
    Waiter,
    /// The number of an element in a dialogue.
    Asker,
    /// The number of a request.
    Number,
    /// What a request of a dialogue asks for.
    Operation,
    /// Where a request of a dialogue acts.
    Address,
    /// The first and the last of the addresses that a dialogue shows.
    Span,
    /// The name of a backup.
    BackupName,
}

impl Expected {
    fn text(self) -> &'static str {
        match self {
            Expected::Start => "setup or element",
            Expected::Setup => "alloc or element",
            Expected::Request => "element, alloc, fetch, store, take, put, release or reset",
            Expected::RequestOrGlance => {
                "element, alloc, fetch, store, take, put, release, reset or glance"
            }
            Expected::Element => "an element's number from 0 to 63",
            Expected::Name => "a name of 1 to 16 characters a to z and 0 to 9, the first a letter",
            Expected::NewName => "a name that is not given yet",
            Expected::Kind => "i or m",
            Expected::Length => "a number from 0 to 4294967295",
            Expected::Place => "an address from 0 to 4294967295 or a name of the setup",
            Expected::Offset => "an offset from 0 to 1048575 behind the name's plus",
            Expected::Value => "a number from 0 to 18446744073709551615",
            Expected::End => "the end of the line",
            Expected::Ascii => "ASCII",
            Expected::AsciiRemark => "ASCII, in a remark as elsewhere,",
            Expected::Asked => {
                "E.N, collect, entry, confirm, window, elements, cell, cells, waiting, block, blocks, stat, \
                 room, turn, count, about, backup, help or quit"
            }
            Expected::Waiter => {
                "E.N, with an element's number E from 0 to 65535 and a request's number N,"
            }
            Expected::Asker => "an element's number from 0 to 65535",
            Expected::Number => "a request's number",
            Expected::Operation => "alloc, fetch, store, take, put, release or reset",
            Expected::Address => "an address from 0 to 4294967295",
            Expected::Span => "a span of addresses in order, as 0-99,",
            Expected::BackupName => {
                "a name of 1 to 64 characters a to z, 0 to 9, - and ., the first a letter"
            }
        }
    }
}

impl fmt::Display for Expected {
    fn fmt<W: fmt::Write>(&self, f: &mut fmt::Formatter<W>) -> fmt::Result {
        f.write_str(self.text())
    }
}

/// The first 32 bytes of a word, as a fault quotes it. Its text writes other bytes than printable ASCII as escapes, and
/// ends in two dots if the word is longer.
#[derive(Clone, Copy, Debug, PartialEq, Eq)]
pub struct Quoted {
    bytes: [u8; MOST_QUOTED],
    /// The length of the whole word.
    length: usize,
}

impl Quoted {
    /// Quotes a word.
    pub fn of(word: &[u8]) -> Quoted {
        let mut bytes = [0; MOST_QUOTED];
        let length = word.len();
        let quoted = length.min(MOST_QUOTED);
        bytes[..quoted].copy_from_slice(&word[..quoted]);
        Quoted { bytes, length }
    }
}

impl fmt::Display for Quoted {
    fn fmt<W: fmt::Write>(&self, f: &mut fmt::Formatter<W>) -> fmt::Result {
        let quoted = self.length.min(MOST_QUOTED);
        let text = self.bytes[..quoted].escape_ascii();
        let rest = if self.length > MOST_QUOTED { ".." } else { "" };
        write!(f, "'{text}{rest}'")
    }
}

/// What in a line isn't in the grammar.
#[derive(Clone, Copy, Debug, PartialEq, Eq, Error)]
pub enum LineFault {
    /// The line ends, but a word is missing.
    #[error("the line ends, where {0} is expected")]
    Ends(Expected),
    /// The first word that isn't what the grammar expects.
    #[error("{0}, where {1} is expected")]
    Word(Quoted, Expected),
    /// The first wrong word begins a remark, but the line has words before it.
    #[error("{0}, where {1} is expected: a remark needs a line of its own")]
    Remark(Quoted, Expected),
    /// The line ends in a carriage return, which isn't a space.
    #[error("the line ends in a carriage return: is it a Windows file?")]
    Return,
    /// The line begins with the three bytes of a byte-order mark.
    #[error("the line begins with a byte-order mark, which is no ASCII: save the file without one")]
    Mark,
    /// The line has more than 4,096 bytes.
    #[error("the line is too long")]
    TooLong,
}

/// Why a text is no script.
#[derive(Clone, Copy, Debug, PartialEq, Eq, Error)]
pub enum ScriptFault {
    /// There was not enough memory.
    #[error("not enough memory for the script")]
    NoMemory,
    /// The text has more than 256 MiB.
    #[error("the script is too large: it may have 268435456 bytes, which are 256 MiB")]
    TooLarge,
    /// A line isn't in the grammar at its place in the script.
    #[error("line {line}: {fault}")]
    BadLine {
        /// The line's number, from 1.
        line: usize,
        /// What is wrong in the line.
        fault: LineFault,
    },
}

impl ScriptFault {
    /// Returns the refusal for this fault: `NoMemory` or `BadScript`.
    pub fn refusal(self) -> Refusal
        ensures { result ≡ refusal_of self }
    {
        match self {
            ScriptFault::NoMemory => Refusal::NoMemory,
            ScriptFault::TooLarge | ScriptFault::BadLine { .. } => Refusal::BadScript,
        }
    }
}

impl From<ScriptFault> for Refusal {
    ghost from_gives = { λ fault refusal. refusal ≡ refusal_of fault };

    fn from(fault: ScriptFault) -> Self {
        fault.refusal()
    }
}
