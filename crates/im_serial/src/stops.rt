//! Runs of a script that are stopped, and gone on with. This is a client's view of [`serial_once_on`].
ghost use Rattle.std.specs.Prelude.{◌≡◌, ℕ, ◌≤◌, List};
ghost use Rattle.im_types.specs.Types.{Limits, Means};
ghost use Rattle.{im_disk.specs.Since.LeavesNow, im_session.specs.Carrying.LedBy};
ghost use Rattle.im_serial.specs.{Asked.Wanted, Asked.wanted_of, Begun.HasComeTo, Begun.HasDone, Begun.new_memory};

use crate::serial::{StyledScript, serial_once_on};
use im_disk::{Crash, FuseDisk, MemDisk, Mode};
use im_script::Script;
use im_text::{News, Style};
use im_types::Observer;
use std::alloc::Global;
use std::io::Write;

/// A stop of a run: its disk fails, and then crashes.
#[derive(Clone, Copy, Debug, PartialEq, Eq)]
pub struct Stop {
    /// How many calls of the disk pass.
    pub passes: u64,
    /// How the later ones fail.
    pub mode: Mode,
    /// What the crash leaves.
    pub crash: Crash,
}

/// A disk with an image, and the stops that the runs on it meet.
#[derive(Drop)]
pub struct Interrupted {
    /// The disk.
    pub disk: MemDisk,
    /// The stops, one for each run.
    pub stops: Vec<Stop>,
}

/// A new image means what a run of any script comes to: nothing was put yet.
pub fn new_images_have_begun()
    ensures { (limits : Limits) (script : List Wanted) (file : List ℕ)
        → Means (new_memory limits) 0 0 file → LedBy (HasComeTo limits script) file }
{}

/// Serves a script once, whatever stops it: a run for each stop, each behind the crash of the one before it, and then
/// one more. Returns the status of the last run, and the disk.
///
/// If each file that a crash may leave at first means what a run of the script comes to, as a new image does, so does
/// each that is left in the end. If the status is 0, it means the memory after all requests of the script, each once,
/// in their order, each with its element's next number.
pub fn serial_over_stops<W: Write, N: Observer<News>>(
    alloc: Global,
    image: Interrupted,
    script: &Script<'_>,
    out: &mut W,
    observer: &mut N,
) -> (u8, MemDisk)
    ensures status { result.0 ≤ 1 }
    ensures keeps { (limits : Limits) → LeavesNow image.disk.moment (LedBy (HasComeTo limits (wanted_of script.now)))
        → LeavesNow result.1.moment (LedBy (HasComeTo limits (wanted_of script.now))) }
    ensures now { (limits : Limits) → LeavesNow image.disk.moment (LedBy (HasComeTo limits (wanted_of script.now)))
        → result.0 ≡ 0 → LeavesNow result.1.moment (LedBy (HasDone limits (wanted_of script.now))) }
{
    let Interrupted { mut disk, stops } = image;
    let styled = StyledScript {
        script,
        style: Style::Text,
    };
    for at in 0..stops.len() {
        let stop = stops[at];
        let fused = FuseDisk::new(disk, stop.passes, stop.mode);
        let (_status, left, _faulted) = serial_once_on(alloc, fused, &styled, out, observer);
        disk = left.into_inner().crash(stop.crash);
    }
    let (status, disk, _faulted) = serial_once_on(alloc, disk, &styled, out, observer);
    (status, disk)
}
