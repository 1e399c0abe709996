//! A dialogue on the image of a disk.
ghost use Rattle.std.specs.Prelude.{◌≡◌, ◌≤◌, false, [], string_bytes};
ghost use Rattle.im_dialogue.specs.{Dialogue.BeginsNow, Dialogue.TalkedOn, Serving.ClosesDialogue, Talk.outputs};

use crate::backups::Backups;
use crate::resting::open_with_slots;
use crate::serving::{Dialogue, Setting};
use im_disk::Disk;
use im_listening::Ear;
use im_text::{News, Style, diagnose, end};
use im_types::Observer;
use std::alloc::Global;
use std::io::{BufRead, Write};

/// Opens the image of a disk, answers the lines of an input until it ends or asks for `quit`, and gives the disk back.
/// [`Dialogue::serve_lines`] has the lines and their answers.
///
/// While nothing is there to be read, it takes turns of a checkpoint if there is room for less than half of what the
/// journal holds.
///
/// The status is 0, or 1 if something ended the dialogue: the image was refused at opening; a call of the disk failed;
/// the input can't be read; the output can't be written; or there was not enough memory. The observer is told why.
/// `refused N NAME` is printed as the last line, unless the output can't be written.
///
/// Ensures, in words:
///
/// - `status`: it is 0 or 1.
/// - `talked`, an image that isn't opened: a crash leaves nothing that it couldn't leave before. The status is 1, at
///   most a refusal is printed, and no backup is kept.
/// - `talked`, answers: each line is answered on the memory after the lines before it.
/// - `talked`, the input: what was said is what its lines ask for, where its bytes are known. With status 0 it is all
///   of them, or up to `quit`, else the first of them.
/// - `talked`, a crash: the opening leaves nothing that couldn't be left before. From then on a session's record says
///   it of the commands that were put, which are those that were answered, and of those in doubt, which are of the line
///   or group for which a call of the disk failed. A crash leaves the memory after a prefix of them. At the end it
///   leaves the memory after all that were put, with all of those in doubt or none.
/// - `talked`, what was printed: a prefix of the answers, then at most the refusal. With status 0 it is all answers and
///   nothing else.
/// - `talked`, backups: each that was answered is kept, with the memory and the count of commands after the lines
///   before it, and no other is.
/// - `honest`: the disk was honest at the start, if it is at the end. What `talked` says holds of such a disk.
pub fn dialogue_on<D: Disk, B: Backups, R: BufRead + Ear, W: Write, N: Observer<News>>(
    alloc: Global,
    disk: D,
    backups: &mut B,
    input: &mut R,
    watch: bool,
    out: &mut W,
    observer: &mut N,
) -> (u8, D)
    ensures status { result.0 ≤ 1 }
    ensures talked { TalkedOn D.Disk watch (R.remaining input.old) disk result.1
        (outputs (W.contents out.old) (B.kept backups.old)) (outputs (W.contents out.new) (B.kept backups.new))
        result.0 }
    ensures honest { D.honest result.1 → D.honest disk }
{
    match open_with_slots(alloc, disk) {
        Ok((session, slots)) => {
            let setting = Setting { watch, slots };
            let dialogue = Dialogue::new(alloc, session, setting);
            talk_on(dialogue, backups, input, out, observer)
        }
        Err((refusal, mut disk)) => {
            let reason = diagnose(alloc, &mut disk, refusal);
            (end(alloc, Style::Text, Err(reason), out, observer), disk)
        }
    }
}

// Serves a dialogue to its end, by a session that has put nothing. Returns the status and the session's disk.
fn talk_on<D: Disk, B: Backups, R: BufRead + Ear, W: Write, N: Observer<News>>(
    mut dialogue: Dialogue<D>,
    backups: &mut B,
    input: &mut R,
    out: &mut W,
    observer: &mut N,
) -> (u8, D)
    requires begins { BeginsNow dialogue.front.session }
    requires works { dialogue.front.session.engine.failed ≡ false }
    requires asked { dialogue.front.asked ≡ [] }
    requires told { string_bytes dialogue.drafts.draft.text ≡ [] }
    ensures status { result.0 ≤ 1 }
    ensures closed { ClosesDialogue D.Disk dialogue (R.remaining input.old) result.1
        (outputs (W.contents out.old) (B.kept backups.old)) (outputs (W.contents out.new) (B.kept backups.new))
        result.0 }
{
    let alloc = dialogue.alloc;
    match dialogue.serve_lines(backups, input, out) {
        Ok(()) => (0, dialogue.close()),
        Err(reason) => (
            end(alloc, Style::Text, Err(reason), out, observer),
            dialogue.close(),
        ),
    }
}
