//! Why a call is refused.
ghost use Rattle.std.specs.Prelude.{◌≡◌};

use thiserror::Error;

/// Why a call is refused. The text of a refusal is its name. Programs print its number, [`Refusal::number`].
#[derive(Clone, Copy, Debug, PartialEq, Eq, Error)]
pub enum Refusal {
    /// The number is past the next one, or past the last number of all.
    #[error("Gap")]
    Gap,
    /// The number is below the window: its entry was confirmed.
    #[error("Forgotten")]
    Forgotten,
    /// The request is new and the window is full.
    #[error("WindowFull")]
    WindowFull,
    /// The number is kept for another operation.
    #[error("Mismatch")]
    Mismatch,
    /// There is no such element.
    #[error("NoElement")]
    NoElement,
    /// A confirmation reaches an entry that still waits.
    #[error("NotAnswered")]
    NotAnswered,
    /// The journal has no room for the command.
    #[error("JournalFull")]
    JournalFull,
    /// A call to the disk failed. The image has to be opened again.
    #[error("Device")]
    Device,
    /// An earlier call to the disk failed.
    #[error("Failed")]
    Failed,
    /// There was too little memory.
    #[error("NoMemory")]
    NoMemory,
    /// The trace has no room for another line.
    #[error("TraceFull")]
    TraceFull,
    /// The file's length is not the length of an image.
    #[error("WrongLength")]
    WrongLength,
    /// The image has no header in force.
    #[error("NoHeader")]
    NoHeader,
    /// The header in force is not spelled as a header.
    #[error("BadHeader")]
    BadHeader,
    /// The pages in force show no memory.
    #[error("BadPage")]
    BadPage,
    /// The journal holds a command that cannot stand there.
    #[error("BadRecord")]
    BadRecord,
    /// The number of cells, elements or slots is out of its range.
    #[error("BadLimits")]
    BadLimits,
    /// The script cannot be read.
    #[error("BadScript")]
    BadScript,
    /// Every active server waits, and none is left to answer.
    #[error("Stalled")]
    Stalled,
    /// The plan of this run has no such request.
    #[error("OffPlan")]
    OffPlan,
    /// The image has an older layout. It must be migrated before it is served.
    #[error("OldVersion")]
    OldVersion,
    /// The file that would be written holds an image.
    #[error("NotBlank")]
    NotBlank,
    /// The requests make no plan, or the plan doesn't fit the memory.
    #[error("BadPlan")]
    BadPlan,
    /// The published cells can no longer be read.
    #[error("PaneGone")]
    PaneGone,
}

impl Refusal {
    ghost use Rattle.im_types.specs.Refusals.{is_of_numbers, number_of};

    /// Returns the refusal's number, 1 to 24.
    pub fn number(self) -> u8
        ensures { result ≡ number_of self }
    {
        match self {
            Refusal::Gap => 1,
            Refusal::Forgotten => 2,
            Refusal::WindowFull => 3,
            Refusal::Mismatch => 4,
            Refusal::NoElement => 5,
            Refusal::NotAnswered => 6,
            Refusal::JournalFull => 7,
            Refusal::Device => 8,
            Refusal::Failed => 9,
            Refusal::NoMemory => 10,
            Refusal::TraceFull => 11,
            Refusal::WrongLength => 12,
            Refusal::NoHeader => 13,
            Refusal::BadHeader => 14,
            Refusal::BadPage => 15,
            Refusal::BadRecord => 16,
            Refusal::BadLimits => 17,
            Refusal::BadScript => 18,
            Refusal::Stalled => 19,
            Refusal::OffPlan => 20,
            Refusal::OldVersion => 21,
            Refusal::NotBlank => 22,
            Refusal::BadPlan => 23,
            Refusal::PaneGone => 24,
        }
    }

    /// Returns whether it is a refusal of numbers, 1 to 6: a command's element or number isn't one that the memory
    /// takes.
    pub fn is_of_numbers(self) -> bool
        ensures { result ≡ is_of_numbers self }
    {
        self.number() < Refusal::JournalFull.number()
    }
}
