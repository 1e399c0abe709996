//! The table of work: what is done of each kind, and before and after it.
ghost use Rattle.std.specs.Prelude.{◌≡◌, ◌≤◌, ◌⊎◌, IfSome, IfOk, Some, None};
ghost use Rattle.im_words.specs.Words.{texts_in};
ghost use Rattle.im_program.specs.{Places.file_of, Places.IsOpenAt, Told.LineDone, Working.MakesImage};

use crate::backups::{Folder, has_folder};
use crate::console::Console;
use crate::copying::copy_file;
use crate::demonstrating::demonstrate;
use crate::dumping::dump_file;
use crate::formatting::format_image;
use crate::hand::AtHand;
use crate::loading::load_file;
use crate::log::tell_opening;
use crate::looking::inspect_file;
use crate::moving::migrate_file;
use crate::overwriting::{Loss, may_be_made};
use crate::running::run_traced;
use crate::serving::serve_file;
use crate::settling::{settle_if, settle_new};
use crate::talking::talk_file;
use crate::watching::tell_size;
use im_disk::{Disk, FileDisk, Start};
use im_listening::Ear;
use im_run::STALLED;
use im_text::{FAULTY, News, Style};
use im_types::{Observer, Refusal};
use im_words::{CommandLine, Formatting, Work};
use std::fs::File;
use std::io::{BufRead, Eprint, Write};
use std::rt::Files;
use std::sync::Wait;
use std::thread::Threads;

// Serves the demonstration's script. Returns the status.
fn demonstrate_at<R: AllocGlobal, I, W: Write, N: Observer<News>>(
    hand: AtHand<'_, R, I, N>,
    out: &mut W,
) -> u8
    ensures { result ≤ 1 }
{
    let (rt, _held, _input, observer) = hand.parts();
    demonstrate(rt.alloc(), out, observer)
}

// What work on one file came to.
fn of_one<S: Start, T: Start>(
    done: (u8, FileDisk<S>),
) -> (u8, Option<FileDisk<S>>, Option<FileDisk<T>>)
    ensures { result ≡ (done.0, Some done.1, None) }
{
    let (status, disk) = done;
    (status, Some(disk), None)
}

// What work on a new file and an old one came to.
fn of_two<S: Start, T: Start>(
    done: (u8, FileDisk<S>, FileDisk<T>),
) -> (u8, Option<FileDisk<S>>, Option<FileDisk<T>>)
    ensures { result ≡ (done.0, Some done.1, Some done.2) }
{
    let (status, new, old) = done;
    (status, Some(new), Some(old))
}

/// Does what the table of work says. Returns the status, the disk of the image or of the new file, and that of the old
/// file.
pub(crate) fn do_work<
    R: Files<File = File> + AllocGlobal + Eprint + Threads + Wait + Sync,
    S: Start + Send,
    T: Start,
    I: BufRead + Ear,
    W: Write,
>(
    hand: AtHand<'_, R, I, Console<'_, R>>,
    line: &CommandLine,
    out: &mut W,
    starts: (S, T),
) -> Result<(u8, Option<FileDisk<S>>, Option<FileDisk<T>>), Refusal>
    ensures status { IfOk result (λ r. (r.0 ≤ 1) ⊎ (r.0 ≡ STALLED) ⊎ (r.0 ≡ FAULTY)) }
    ensures done { IfOk result (λ r. LineDone S.Start T.Start ⟦<FileDisk<S> as Disk>⟧ ⟦<FileDisk<T> as Disk>⟧
        (I.remaining hand.entry.input.now) line.now.work (W.contents out.old) (W.contents out.new) r.0 r.1 r.2) }
{
    tell_size(hand.rt, &line.work, hand.observer.is_watched());
    let (start, other) = starts;
    match line.work {
        Work::Demonstration => Ok((demonstrate_at(hand, out), None, None)),
        Work::Format(it) => Ok(of_one(format_image(hand, &it, start)?)),
        Work::Serial(it) => Ok(of_one(serve_file(hand, &it, out, start)?)),
        Work::Run(it) => Ok(of_one(run_traced(hand, &it, out, start)?)),
        Work::Serve(it) => {
            tell_opening(hand.rt, &it, other);
            let mut folder = Folder::new(hand.rt, hand.held, it.backups);
            Ok(of_one(talk_file(hand, &it, &mut folder, out, start)?))
        }
        Work::Inspect(it) => Ok(of_one(inspect_file(hand, it.image, &it.look, out, start)?)),
        Work::Dump(it) => Ok(of_one(dump_file(hand, &it, out, start)?)),
        Work::Load(it) => Ok(of_one(load_file(hand, &it, out, start)?)),
        Work::Migrate(it) => Ok(of_two(migrate_file(hand, &it, out, (start, other))?)),
        Work::Copy(it) => Ok(of_two(copy_file(hand, &it, out, (start, other))?)),
    }
}

// Whether an image may be made: nobody is asked, or the answer is yes.
fn may_format<R: Files<File = File> + AllocGlobal + Eprint, I: BufRead>(
    rt: &R,
    formatting: &Formatting<&str>,
    input: &mut I,
    console: &Console<'_, R>,
    loss: &mut Loss,
) -> bool {
    formatting.is_new || may_be_made(rt, formatting.image, input, console, loss)
}

/// Whether the work may be done: not if it makes an image and a person says no, or if a dialogue's folder for backups
/// isn't there. If nobody can be asked, `loss` becomes what is lost.
pub(crate) fn may_do<R: Files<File = File> + AllocGlobal + Eprint, I: BufRead>(
    rt: &R,
    work: &Work<&str>,
    input: &mut I,
    console: &Console<'_, R>,
    loss: &mut Loss,
) -> bool
    ensures { MakesImage (texts_in work.now) ⊎ (input.new ≡ input.old) }
{
    match *work {
        Work::Format(formatting) => may_format(rt, &formatting, input, console, loss),
        Work::Serve(talking) => has_folder(rt, talking.backups),
        _ => true,
    }
}

// The path of the file that is worked on: of the image, or of the new one of two files.
fn path_of<'a>(work: &Work<&'a str>) -> &'a str
    ensures { result.now ≡ file_of (texts_in work.now) }
{
    match *work {
        Work::Demonstration => "",
        Work::Format(formatting) => formatting.image,
        Work::Serial(serving) => serving.image,
        Work::Run(running) => running.image,
        Work::Serve(talking) => talking.image,
        Work::Inspect(it) => it.image,
        Work::Dump(it) => it.image,
        Work::Load(making) => making.new,
        Work::Migrate(moving) => moving.new,
        Work::Copy(making) => making.new,
    }
}

// Whether the work puts something into a new file, which is named second.
fn has_new_file(work: &Work<&str>) -> bool {
    matches!(*work, Work::Load(_) | Work::Migrate(_) | Work::Copy(_))
}

/// Prints which call on the disks failed, if any were opened. Leaves a note if a sync failed.
pub(crate) fn settle<R: Files<File = File> + AllocGlobal + Eprint, S: Start, T: Start>(
    rt: &R,
    work: &Work<&str>,
    disk: &Option<FileDisk<S>>,
    old: &Option<FileDisk<T>>,
    console: &mut Console<'_, R>,
)
    requires named { IfSome disk.now (λ it.
        IsOpenAt ⟦<FileDisk<S> as Disk>⟧ S.path (file_of (texts_in work.now)) it) }
{
    let path = path_of(work);
    match disk {
        Some(new) if has_new_file(work) => settle_new(rt, path, new, old, console),
        _ => settle_if(rt, path, disk, console),
    }
}

/// Tells what a new image replaced, if it was made.
pub(crate) fn tell_loss<R: AllocGlobal + Eprint>(
    rt: &R,
    work: &Work<&str>,
    loss: Loss,
    is_made: bool,
) {
    if is_made {
        loss.tell(rt, path_of(work));
    }
}

/// How a refusal of the work is said.
pub(crate) fn style_of(work: &Work<&str>) -> Style {
    match *work {
        Work::Serial(serving) => serving.style,
        Work::Run(running) => running.style,
        _ => Style::Text,
    }
}
