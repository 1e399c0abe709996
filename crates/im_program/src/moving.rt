//! Moves an image of the first layout version to a new file.
ghost use Rattle.std.specs.Prelude.{◌≡◌, ◌≤◌, IfOk, IfErr, OnOk, OnErr, string_bytes, codes};
ghost use Rattle.std.specs.Io.KnownBytes.{Appends, Keeps};
ghost use Rattle.{im_types.specs.Types.Device, im_types.specs.Types.layout_1, im_image.specs.Headers.MayRefuseImage};
ghost use Rattle.im_disk.specs.{Runs.ReadsAlone, Since.LeavesNow};
ghost use Rattle.im_migration.specs.Migration.{LeavesBlankOrSame, MeansSame};
ghost use Rattle.im_program.specs.Moving.{BeginsNew, BeginsOld, counted_line, MigratedFrom, TellsCount};
ghost use Rattle.im_program.specs.Places.{IsOpenAt};

use crate::hand::AtHand;
use crate::opening::{image_to_read, is_one_file, reason_of};
use im_disk::{Disk, FileDisk, Start};
use im_files::{FileFault, make_image, open_image};
use im_image::{Versions, read_header};
use im_migration::{MoveNews, length_for, migrate};
use im_text::{News, PathFault, Reason, Style, diagnose, end, put_through};
use im_types::{Observer, Refusal};
use im_words::Moving;
use std::alloc::{AllocError, Global};
use std::fs::{self, File};
use std::io::{ErrorKind, Write};
use std::rt::Files;

// A line of a word and a number of commands.
fn make_counted(alloc: Global, word: &str, count: u64) -> Result<String, AllocError>
    ensures { IfOk result (λ text. string_bytes text ≡ counted_line word.now count) }
{
    let mut line = String::new(alloc);
    writeln!(line, "{word} {count}")?;
    Ok(line)
}

/// Prints the line that reports the number of commands of a new image.
pub(crate) fn print_counted<W: Write>(
    alloc: Global,
    word: &str,
    count: u64,
    out: &mut W,
) -> Result<(), Reason>
    ensures { OnOk result (Appends (W.contents out.old) (W.contents out.new) (counted_line word.now count)) }
{
    match make_counted(alloc, word, count) {
        Ok(line) => put_through(out, line.as_str()),
        Err(_) => Err(Reason::Memory),
    }
}

/// Moves the image of the first version on the disk `old` to the disk `new`. Returns the status and the new disk.
/// Writes the line `migrated COUNT` to `out`, or the line `refused N NAME` for what [`migrate`] refuses. Tells the
/// observer how far the migration has come and why it is refused. The status is 0, or 1 if something was refused or a
/// write of the output failed.
///
/// A crash since the start leaves a file of the new disk that is no image, or that means what the old image means; or a
/// file that the new disk could leave before. With status 0, each file left means what the old image means. The old
/// disk is only read.
pub fn migrate_on<O: Disk, N: Disk, W: Write, V: Observer<News> + Observer<MoveNews>>(
    alloc: Global,
    old: &mut O,
    new: N,
    out: &mut W,
    observer: &mut V,
) -> (u8, N)
    ensures status { result.0 ≤ 1 }
    ensures leaves { LeavesBlankOrSame N.Disk new result.1 (O.honest old.new) (O.now old.old).bytes }
    ensures moved { result.0 ≡ 0 → O.honest old.new → N.honest result.1
        → LeavesNow (N.now result.1) (MeansSame (O.now old.old).bytes) }
    ensures told { result.0 ≡ 0 → O.honest old.new
        → TellsCount layout_1 (codes "migrated") (O.now old.old).bytes (W.contents out.old) (W.contents out.new) }
    ensures reads { ReadsAlone O.Disk old.old old.new }
    ensures honest { N.honest result.1 → N.honest new }
{
    match migrate(alloc, old, new, observer) {
        Ok((new, count)) => {
            let told = print_counted(alloc, "migrated", count, out);
            (end(alloc, Style::Text, told, out, observer), new)
        }
        Err((refusal, new)) => (
            end(alloc, Style::Text, Err(Reason::New(refusal)), out, observer),
            new,
        ),
    }
}

// Whether an image is of the version in use, by its header in force.
fn is_current<O: Disk>(old: &mut O) -> bool
    ensures reads { ReadsAlone O.Disk old.old old.new }
{
    match read_header(old, Versions::Any) {
        Ok(header) => !header.is_old(),
        Err(_) => false,
    }
}

// Why an image can't be moved.
fn old_reason<O: Disk>(alloc: Global, old: &mut O, refusal: Refusal) -> Reason
    ensures reads { ReadsAlone O.Disk old.old old.new }
{
    if is_current(old) {
        return Reason::Current;
    }
    diagnose(alloc, old, refusal)
}

// The length that the new file needs. If the old file is refused, the observer is told why.
fn length_of<O: Disk, V: Observer<News>>(
    alloc: Global,
    old: &mut O,
    observer: &mut V,
) -> Result<usize, Refusal>
    ensures reads { OnOk result (ReadsAlone O.Disk old.old old.new) }
    ensures refused { IfErr result (λ e. MayRefuseImage e) }
{
    match length_for(alloc, old) {
        Ok(length) => Ok(length),
        Err(refusal) => {
            observer.tell(News::Refused(old_reason(alloc, old, refusal)));
            Err(refusal)
        }
    }
}

// Opens the new file as it is. If there is no file at the path, makes one of `len` zero bytes. Returns also whether
// nothing was at the path. An existing file that can't be opened is never replaced: its bytes would be lost.
fn new_file<R: Files<File = File> + AllocGlobal, S: Start>(
    rt: &R,
    path: &str,
    len: usize,
    start: S,
) -> Result<(FileDisk<S>, bool), FileFault>
    ensures found { IfOk result (λ r. BeginsNew S.Start len r.0) }
    ensures named { IfOk result (λ r. IsOpenAt ⟦<FileDisk<S> as Disk>⟧ S.path path.now r.0) }
{
    match fs::metadata(rt, path) {
        Err(error) if error.kind() == ErrorKind::NotFound => {
            match make_image(rt, path, len, false, start) {
                Ok(made) => Ok(made),
                Err(fault) => Err(fault),
            }
        }
        _ => match open_image(rt, path, start) {
            Ok(disk) => Ok((disk, false)),
            Err(fault) => Err(fault),
        },
    }
}

/// Opens the new file, or makes one of `len` zero bytes. Returns also whether it was made. If there is none, the
/// observer is told why.
pub(crate) fn place_at<R: Files<File = File> + AllocGlobal, S: Start, V: Observer<News>>(
    rt: &R,
    path: &str,
    len: usize,
    observer: &mut V,
    start: S,
) -> Result<(FileDisk<S>, bool), Refusal>
    ensures found { IfOk result (λ r. BeginsNew S.Start len r.0) }
    ensures named { IfOk result (λ r. IsOpenAt ⟦<FileDisk<S> as Disk>⟧ S.path path.now r.0) }
    ensures refused { IfErr result (λ e. e ≡ Device) }
{
    match new_file(rt, path, len, start) {
        Ok(placed) => Ok(placed),
        Err(fault) => {
            observer.tell(News::Refused(Reason::NewFile(reason_of(rt, path, fault))));
            Err(Refusal::from(fault))
        }
    }
}

/// Opens the old file, only for reading. If that fails, or both paths name one file, the observer is told why.
pub(crate) fn source_at<R: Files<File = File> + AllocGlobal, T: Start, V: Observer<News>>(
    rt: &R,
    old: &str,
    new: &str,
    observer: &mut V,
    other: T,
) -> Result<FileDisk<T>, Refusal>
    ensures found { IfOk result (λ from. BeginsOld T.Start from) }
    ensures named { IfOk result (λ from. IsOpenAt ⟦<FileDisk<T> as Disk>⟧ T.path old.now from) }
    ensures refused { IfErr result (λ e. e ≡ Device) }
{
    if is_one_file(rt, old, new) {
        observer.tell(News::Refused(Reason::NewFile(PathFault::Same)));
        return Err(Refusal::Device);
    }
    image_to_read(rt, old, observer, other)
}

/// Moves the image of the file `old` to the file `new`. Returns the status of [`migrate_on`], the disk of the new file,
/// and the disk of the old one; [`migrate_on`] also says which line is printed. A new file that exists is used as it
/// is. Else it is made, with the length that the image needs. The old file is opened only for reading.
///
/// The clauses hold for whatever the new file (`S`) and the old one (`T`) held when they were opened, as long as both
/// files were honest. A crash since then leaves a new file that is no image, or that means what the old file means; or
/// a file that it could leave before. With status 0, each new file left means what the old file means. The old file
/// leaves nothing that it couldn't leave when it was opened.
///
/// Errors, with nothing printed and no file changed; the observer is told why:
///
/// - `Device` if the old file can't be opened.
/// - The first fault of the old file, as [`migrate`] finds it.
/// - `NoMemory` if there is no room to read the old file.
/// - `Device` if the new file can't be opened or made: it isn't a regular file, another opening has its lock, a call of
///   the system fails, or both paths name one file.
///
/// If [`migrate_on`] refuses, its status and its last line say so. No clause says that a file is ever opened, because
/// nothing is known about the contents of a folder.
pub fn migrate_file<
    R: Files<File = File> + AllocGlobal,
    S: Start,
    T: Start,
    I,
    W: Write,
    V: Observer<News> + Observer<MoveNews>,
>(
    hand: AtHand<'_, R, I, V>,
    paths: &Moving<&str>,
    out: &mut W,
    starts: (S, T),
) -> Result<(u8, FileDisk<S>, FileDisk<T>), Refusal>
    ensures status { IfOk result (λ r. r.0 ≤ 1) }
    ensures moved { IfOk result (λ r.
        MigratedFrom S.Start T.Start (W.contents out.old) (W.contents out.new) r.0 r.2 r.1) }
    ensures named { IfOk result (λ r. IsOpenAt ⟦<FileDisk<S> as Disk>⟧ S.path paths.now.new.now r.1) }
    ensures old { IfOk result (λ r. IsOpenAt ⟦<FileDisk<T> as Disk>⟧ T.path paths.now.old.now r.2) }
    ensures refused { IfErr result (λ refusal. MayRefuseImage refusal) }
    ensures same { OnErr result (Keeps (W.contents out.old) (W.contents out.new)) }
{
    let (rt, _held, _input, observer) = hand.parts();
    let (start, other) = starts;
    let mut from = match source_at(rt, paths.old, paths.new, observer, other) {
        Ok(from) => from,
        Err(refusal) => return Err(refusal),
    };
    let length = match length_of(rt.alloc(), &mut from, observer) {
        Ok(length) => length,
        Err(refusal) => return Err(refusal),
    };
    let to = match place_at(rt, paths.new, length, observer, start) {
        Ok((to, _)) => to,
        Err(refusal) => return Err(refusal),
    };
    let (status, to) = migrate_on(rt.alloc(), &mut from, to, out, observer);
    Ok((status, to, from))
}
