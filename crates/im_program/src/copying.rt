//! Copies an image to a new file, in other sizes if they are asked for.
ghost use Rattle.std.specs.Prelude.{◌≡◌, ◌≤◌, IfOk, IfErr, OnOk, OnErr, codes};
ghost use Rattle.std.specs.Io.KnownBytes.{Keeps};
ghost use Rattle.im_disk.specs.Runs.{ReadsAlone};
ghost use Rattle.im_migration.specs.Copying.{MayRefuseCopy, MayRefuseSource};
ghost use Rattle.im_program.specs.{Moving.CopiedFrom, Places.IsOpenAt};

use crate::hand::AtHand;
use crate::moving::{place_at, print_counted, source_at};
use crate::opening::{call_of, give_up};
use im_disk::{Disk, Failure, FileDisk, Start};
use im_migration::{Asked, MoveNews, copy, length_for_copy};
use im_text::{News, Reason, Style, diagnose, end};
use im_types::{Observer, Refusal};
use im_words::Making;
use std::alloc::Global;
use std::fs::File;
use std::io::Write;
use std::rt::Files;

// The length that the new file needs. If the image or the sizes are refused, the observer is told why.
fn length_of<O: Disk, V: Observer<News> + Observer<MoveNews>>(
    alloc: Global,
    old: &mut O,
    asked: Asked,
    observer: &mut V,
) -> Result<usize, Refusal>
    ensures reads { OnOk result (ReadsAlone O.Disk old.old old.new) }
    ensures refused { IfErr result (λ e. MayRefuseSource e) }
{
    match length_for_copy(alloc, old, asked, observer) {
        Ok(length) => Ok(length),
        Err(Refusal::BadLimits) => Err(Refusal::BadLimits), // The observer was told what doesn't fit.
        Err(refusal) => {
            observer.tell(News::Refused(diagnose(alloc, old, refusal)));
            Err(refusal)
        }
    }
}

// Why an image wasn't copied, by the calls that failed on the new file and on the old one.
fn reason_for(refusal: Refusal, new: Option<Failure>, old: Option<Failure>) -> Reason {
    match (new, old) {
        (Some(failure), _) => Reason::NewCall(call_of(failure)),
        (None, Some(failure)) => Reason::Call(call_of(failure)),
        (None, None) => Reason::New(refusal),
    }
}

/// Copies the image of a file to a new one, in the sizes that are asked for. Returns the status, the disk of the new
/// file, and the disk of the old one. Prints the line `copied COUNT`. The status is 0, or 1 if that can't be written.
/// A new file that exists is used as it is. Else it is made, with the length that the copy needs. The old file is
/// opened only for reading.
///
/// The clauses hold for whatever the new file (`S`) and the old one (`T`) held when they were opened, as long as both
/// files were honest. A crash since then leaves a new file that is no image, or that is the copy; or a file that it
/// could leave before. With status 0, each new file left is the copy. The old file leaves nothing that it couldn't
/// leave when it was opened.
///
/// Errors, with nothing printed; the observer is told why. A new file that was made is removed again, and the old file
/// is as it was:
///
/// - `Device` if the old file can't be opened.
/// - The first fault of the old file, as an opening of it finds it, or `OldVersion`.
/// - `BadLimits` if the memory of the old file doesn't have the sizes that are asked for.
/// - `NoMemory` if there is no room for two memories.
/// - `Device` if the new file can't be opened or made: it isn't a regular file, another opening has its lock, a call of
///   the system fails, or both paths name one file.
/// - `WrongLength` or `NotBlank` if the new file can't become the copy. It is as it was.
/// - `Device` if a call of either file failed. A new file that was there before may be partly written, and is no image.
///
/// No clause says that a file is ever opened, because nothing is known about the contents of a folder.
pub fn copy_file<
    R: Files<File = File> + AllocGlobal,
    S: Start,
    T: Start,
    I,
    W: Write,
    V: Observer<News> + Observer<MoveNews>,
>(
    hand: AtHand<'_, R, I, V>,
    making: &Making<&str>,
    out: &mut W,
    starts: (S, T),
) -> Result<(u8, FileDisk<S>, FileDisk<T>), Refusal>
    ensures status { IfOk result (λ r. r.0 ≤ 1) }
    ensures copied { IfOk result (λ r.
        CopiedFrom S.Start T.Start making.now.asked (W.contents out.old) (W.contents out.new) r.0 r.2 r.1) }
    ensures named { IfOk result (λ r. IsOpenAt ⟦<FileDisk<S> as Disk>⟧ S.path making.now.new.now r.1) }
    ensures old { IfOk result (λ r. IsOpenAt ⟦<FileDisk<T> as Disk>⟧ T.path making.now.from.now r.2) }
    ensures refused { IfErr result (λ refusal. MayRefuseCopy refusal) }
    ensures same { OnErr result (Keeps (W.contents out.old) (W.contents out.new)) }
{
    let (rt, _held, _input, observer) = hand.parts();
    let (old, new, asked) = (making.from, making.new, making.asked);
    let (start, other) = starts;
    let mut from = source_at(rt, old, new, observer, other)?;
    let length = length_of(rt.alloc(), &mut from, asked, observer)?;
    let (to, is_made) = place_at(rt, new, length, observer, start)?;
    match copy(rt.alloc(), &mut from, to, asked, observer) {
        Ok((to, count)) => {
            let told = print_counted(rt.alloc(), "copied", count, out);
            Ok((end(rt.alloc(), Style::Text, told, out, observer), to, from))
        }
        Err((refusal, to)) => {
            let reason = reason_for(refusal, to.failure(), from.failure());
            let _gone = give_up(rt, new, to, is_made);
            observer.tell(News::Refused(reason));
            Err(refusal)
        }
    }
}
