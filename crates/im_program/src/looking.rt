//! Prints what an image means.
ghost use Rattle.std.specs.Prelude.{◌≡◌, ◌≤◌, [], IfOk, IfErr, OnErr};
ghost use Rattle.std.specs.Io.KnownBytes.{Keeps};
ghost use Rattle.{im_types.specs.Types.Device, im_disk.specs.Since.ReadsOnly, im_report.specs.Look.ShowsView};
ghost use Rattle.im_program.specs.Places.{IsOpenAt};

use crate::hand::AtHand;
use crate::opening::image_to_read;
use im_disk::{Disk, FileDisk, Start};
use im_report::{View, look_on};
use im_text::News;
use im_types::{Observer, Refusal};
use std::fs::File;
use std::io::Write;
use std::rt::Files;

/// Prints what is wanted of the image of a file. Returns the status of [`look_on`] and the image's disk; [`look_on`]
/// also says which lines are printed.
///
/// The clauses hold for whatever the image held when it was opened (`S`), as long as the file was honest. With status 0
/// what is wanted of those bytes is written to `out`. A crash leaves nothing that the file couldn't leave when it was
/// opened.
///
/// Returns `Device`, with nothing printed and the image as it was, if the image can't be opened: it isn't a regular
/// file, an opening that writes has its lock, or a call of the system fails. The observer is told why. If
/// [`look_on`] refuses, its status and its last line say so.
///
/// No clause says that an image is ever opened, because nothing is known about the contents of a folder.
pub fn inspect_file<R: Files<File = File> + AllocGlobal, S: Start, I, W: Write, N: Observer<News>>(
    hand: AtHand<'_, R, I, N>,
    image: &str,
    look: &View,
    out: &mut W,
    start: S,
) -> Result<(u8, FileDisk<S>), Refusal>
    ensures status { IfOk result (λ r. r.0 ≤ 1) }
    ensures told { IfOk result (λ r. ⟦<FileDisk<S> as Disk>⟧.honest r.1 → r.0 ≡ 0 →
        ShowsView look.now S.first.bytes (W.contents out.old) (W.contents out.new)) }
    ensures reads { IfOk result (λ r. ⟦<FileDisk<S> as Disk>⟧.honest r.1 →
        ReadsOnly S.first (⟦<FileDisk<S> as Disk>⟧.now r.1) [] (⟦<FileDisk<S> as Disk>⟧.past r.1)) }
    ensures named { IfOk result (λ r. IsOpenAt ⟦<FileDisk<S> as Disk>⟧ S.path image.now r.1) }
    ensures refused { IfErr result (λ refusal. refusal ≡ Device) }
    ensures same { OnErr result (Keeps (W.contents out.old) (W.contents out.new)) }
{
    let (rt, _held, _input, observer) = hand.parts();
    let disk = image_to_read(rt, image, observer, start)?;
    Ok(look_on(rt.alloc(), disk, look, out, observer))
}
