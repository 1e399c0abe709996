//! Serves a dialogue.
ghost use Rattle.std.specs.{Prelude.◌≡◌, Prelude.◌≤◌, Prelude.IfOk, Prelude.IfErr, Prelude.OnErr, Io.KnownBytes.Keeps};
ghost use Rattle.im_types.specs.Types.{Device};
ghost use Rattle.im_dialogue.specs.{Dialogue.Talked, Dialogue.TalkedFrom, Dialogue.TalkUnopened, Talk.outputs};
ghost use Rattle.im_program.specs.{Places.IsOpenAt, Working.WasTalked};

use crate::hand::AtHand;
use crate::opening::image_at;
use im_dialogue::{Backups, dialogue_on};
use im_disk::{Disk, FileDisk, Start};
use im_listening::Ear;
use im_text::News;
use im_types::{Observer, Refusal};
use im_words::Talking;
use std::fs::File;
use std::io::{BufRead, Write};
use std::rt::Files;

/// Serves a dialogue on the image of a file. Returns the status of [`dialogue_on`] and the image's disk;
/// [`dialogue_on`] also says which lines are printed.
///
/// The clauses hold for whatever the image held when it was opened (`S`), as long as the file was honest. A crash at
/// any moment since then leaves what [`dialogue_on`] says, of the bytes that the input gives.
///
/// Returns `Device`, with nothing printed, no line read and the image as it was, if the image can't be opened: it isn't
/// a regular file, another opening has its lock, or a call of the system fails. The observer is told why. If
/// [`dialogue_on`] refuses, its status and its last line say so. Then no backup is kept.
///
/// No clause says that an image is ever opened, because nothing is known about the contents of a folder.
pub fn talk_file<
    R: Files<File = File> + AllocGlobal,
    S: Start,
    B: Backups,
    I: BufRead + Ear,
    W: Write,
    N: Observer<News>,
>(
    hand: AtHand<'_, R, I, N>,
    talking: &Talking<&str>,
    backups: &mut B,
    out: &mut W,
    start: S,
) -> Result<(u8, FileDisk<S>), Refusal>
    ensures status { IfOk result (λ r. r.0 ≤ 1) }
    ensures talked { WasTalked ⟦<FileDisk<S> as Disk>⟧ S.first talking.now
        (I.remaining hand.entry.input.now) (outputs (W.contents out.old) (B.kept backups.old))
        (outputs (W.contents out.new) (B.kept backups.new)) result }
    ensures named { IfOk result (λ r. IsOpenAt ⟦<FileDisk<S> as Disk>⟧ S.path talking.now.image.now r.1) }
    ensures refused { IfErr result (λ refusal. refusal ≡ Device) }
    ensures same { OnErr result (Keeps (W.contents out.old) (W.contents out.new)) }
    ensures kept { OnErr result (B.kept backups.new ≡ B.kept backups.old) }
{
    let (rt, _held, input, observer) = hand.parts();
    let watch = talking.watch;
    let disk = image_at(rt, talking.image, observer, start)?;
    Ok(dialogue_on(rt.alloc(), disk, backups, input, watch, out, observer))
}
