//! The work that the program does.
ghost use Rattle.std.specs.Prelude.{◌≡◌, ◌≤◌, ◌⊎◌, MatchResult, None};
ghost use Rattle.im_text.specs.Said.{output, SaysLast};
ghost use Rattle.im_program.specs.Told.{LineDone};

use crate::advice::tell_what_there_is;
use crate::console::Console;
use crate::hand::AtHand;
use crate::jobs::{do_work, may_do, settle, style_of, tell_loss};
use crate::overwriting::Loss;
use im_disk::{Disk, FileDisk, Start};
use im_listening::Ear;
use im_run::STALLED;
use im_text::{FAULTY, News, PathFault, Reason, Style, put_refusal};
use im_types::{Observer, Refusal};
use im_words::{CommandLine, Talking, Work};
use std::alloc::Global;
use std::fs::File;
use std::io::{BufRead, Eprint, Write};
use std::rt::Files;
use std::sync::Wait;
use std::thread::Threads;

// What work came to. A refusal prints its line.
fn or_refused<S: Start, T: Start, W: Write>(
    alloc: Global,
    style: Style,
    done: Result<(u8, Option<FileDisk<S>>, Option<FileDisk<T>>), Refusal>,
    out: &mut W,
) -> (u8, Option<FileDisk<S>>, Option<FileDisk<T>>)
    ensures { MatchResult done (λ r. (result ≡ r) × (out.new ≡ out.old)) (λ _. result ≡ (1, None, None)) }
{
    match done {
        Ok(done) => done,
        Err(refusal) => (refuse(alloc, style, refusal, out), None, None),
    }
}

// Tells why work may not be done.
fn tell_forbidden<R: Files<File = File> + AllocGlobal + Eprint>(
    work: &Work<&str>,
    console: &mut Console<'_, R>,
) {
    if let Work::Serve(
        Talking {
            backups: Some(folder),
            ..
        },
    ) = *work
    {
        return console.refuse_folder(folder);
    }
    console.tell(News::Refused(Reason::File(PathFault::Exists)));
}

/// Does the work of a command line. Returns the status that the program ends with: 0; 1 if something was refused or a
/// write of the output failed; of a run 3 if its elements wait for each other; of a strict script 6 if all was served
/// and a reply tells an error of the script. Also returns the disk of the image or of
/// the new file, if it was made or opened, and of a migration or a copy that of the old file. A dialogue reads the
/// input, and so does a script or a dump with the path `-`. The output goes to `out`, a refusal as its last line
/// `refused N NAME`.
///
/// Standard error has these lines:
///
/// - The reason of a refusal. If a call of the disk failed, it says which. If that was a sync, it also says that the
///   file system is to be mounted anew, and a note is left beside the image.
/// - `K.N now REPLY` for a request that waited when the image was opened, and is answered and kept at the end.
/// - `confirmed K.N REPLY` for an entry of an earlier script that is confirmed, since a window is full.
/// - How far a long script has come, and how many bytes of a large image are read or written first, if somebody
///   watches.
/// - Which cells or elements the image has, if a report was asked for others alone.
///
/// If standard input is a terminal, a person is asked before an image replaces a file that isn't empty. Else, if such a
/// file is no image, a line on standard error tells what was replaced.
///
/// The trace of a run is written to a new file, if one is asked for, as objects of JSON if lines are told so. If that
/// can't be made, nothing is run, and the work is refused with `Device`. If it can't be written, a person is told, and
/// the status is that of the run.
///
/// Refusals: `Device` for a file that isn't to be replaced, or a folder for backups that isn't there; `BadLimits` for a
/// number out of its range, and then no file is made; and the errors of [`format_file`], [`serve_file`], [`run_file`],
/// [`talk_file`], [`inspect_file`], [`dump_file`], [`load_file`], [`migrate_file`] and [`copy_file`]. If a disk is
/// returned, the status and the output are those of the function that was called. Else the status is 1, or that of
/// [`demonstrate`].
///
/// The first of `starts` stands for what the image, or the new file of a migration or a copy, holds when it is opened.
/// The other one stands for what the old file holds. They are used up, and no code reads them.
pub fn act<
    R: Files<File = File> + AllocGlobal + Eprint + Threads + Wait + Sync,
    S: Start + Send,
    T: Start,
    I: BufRead + Ear,
    W: Write,
>(
    hand: AtHand<'_, R, I, Console<'_, R>>,
    line: &CommandLine,
    out: &mut W,
    starts: (S, T),
) -> (u8, Option<FileDisk<S>>, Option<FileDisk<T>>)
    ensures status { (result.0 ≤ 1) ⊎ (result.0 ≡ STALLED) ⊎ (result.0 ≡ FAULTY) }
    ensures done { LineDone S.Start T.Start ⟦<FileDisk<S> as Disk>⟧ ⟦<FileDisk<T> as Disk>⟧
        (I.remaining hand.entry.input.now) line.now.work (W.contents out.old) (W.contents out.new)
        result.0 result.1 result.2 }
{
    let (rt, held, input, console) = hand.parts();
    let work = &line.work;
    let mut loss = Loss::none();
    if !may_do(rt, work, input, console, &mut loss) {
        tell_forbidden(work, console);
        let status = refuse(rt.alloc(), style_of(work), Refusal::Device, out);
        return (status, None, None);
    }
    let inner = AtHand {
        rt,
        held,
        input,
        observer: &mut *console,
    };
    let done = do_work(inner, line, out, starts);
    let (status, disk, old) = or_refused(rt.alloc(), style_of(work), done, out);
    settle(rt, work, &disk, &old, console);
    tell_what_there_is(rt, work, status);
    tell_loss(rt, work, loss, disk.is_some());
    (status, disk, old)
}

/// Prints the line of a refusal and returns the status 1.
pub fn refuse<W: Write>(alloc: Global, style: Style, refusal: Refusal, out: &mut W) -> u8
    ensures status { result ≡ 1 }
    ensures last { SaysLast (output style (W.contents out.old)) (W.contents out.new) }
{
    put_refusal(alloc, style, refusal, out);
    1 // Whatever was printed.
}
