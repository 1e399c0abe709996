//! What the note beside a file says, and where it is kept.
ghost use Rattle.std.specs.Prelude.{◌≡◌, OnOk};

use std::fs::File;
use std::io::ErrorKind;
use std::rt::Files;

/// What the note beside an image's file says.
#[derive(Clone, Copy, Debug, PartialEq, Eq)]
pub enum Sight {
    /// There is no note.
    Absent,
    /// The note is from before the machine started: what the file shows is what the disk has.
    Earlier,
    /// The note is from after the machine started, or its time is unknown.
    Standing,
}

/// Looks at the note of one file, leaves it and removes it.
pub trait Notes {
    ghost use Rattle.im_files.specs.declared.notes.Sight.{Sight, TheVariants.Standing};

    /// What the note says.
    ghost sight: { Self → Sight };

    /// Returns what the note says.
    fn look(&self) -> Sight
        ensures sight { result ≡ sight self.now };

    /// Leaves a note of this run in place of any earlier one. Returns the kind of the failure if that fails.
    fn leave<R: Files<File = File>>(&mut self, rt: &R) -> Result<(), ErrorKind>
        ensures standing { OnOk result (sight self.new ≡ Standing) };

    /// Removes the note, if the system allows it.
    fn take_away<R: Files<File = File>>(&mut self, rt: &R);
}

/// Says whether a note was left.
#[derive(Clone, Copy, Debug, PartialEq, Eq)]
pub enum Noting {
    /// No sync has failed, so no note is needed.
    Unneeded,
    /// The note was left.
    Left,
    /// A note is needed, and leaving it failed with this kind.
    Failed(ErrorKind),
}
