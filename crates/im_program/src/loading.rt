//! Makes an image of the text of a dump.
ghost use Rattle.std.specs.Prelude.{◌≡◌, ℕ, ◌≤◌, ◌⊎◌, List, IfOk, IfErr, OnErr};
ghost use Rattle.std.specs.Io.KnownBytes.{Keeps};
ghost use Rattle.{im_types.specs.Types.NoMemory, im_types.specs.Types.BadLimits, im_dump.specs.Dumping.IsDumpOf};
ghost use Rattle.im_migration.specs.{Copying.IsWhole, Migration.MayRefusePlace};
ghost use Rattle.im_program.specs.Loading.{IsPutInto, IsReadied, MayRefuseLoad, MayRefuseText};
ghost use Rattle.im_program.specs.{Places.IsOpenAt, Sources.bytes_at, Sources.IsTextOf, Working.WasLoaded};

use crate::descriptors::Descriptors;
use crate::hand::AtHand;
use crate::moving::{place_at, print_counted};
use crate::opening::{call_of, give_up};
use crate::scripts::text_of;
use im_disk::{Disk, FileDisk, Start};
use im_dump::{DumpFault, Loaded, read_dump};
use im_image::image_length;
use im_migration::{Asked, MoveNews, Original, Resized, prepare, put_new};
use im_script::{ScriptFault, TextFault};
use im_text::{News, Reason, Style, Words, end};
use im_types::{Observer, Refusal};
use im_words::Making;
use std::alloc::Global;
use std::fmt::{self, Display, Formatter};
use std::fs::File;
use std::io::{ErrorKind, Read, Write};
use std::rt::Files;

/// Why a text isn't loaded. Its text is for a person.
#[derive(Clone, Copy, Debug, PartialEq, Eq)]
pub enum LoadFault {
    /// The text was to be read from standard input, which was closed.
    NoInput,
    /// The text can't be read.
    Unread(ErrorKind),
    /// The text is longer than that of any dump.
    TooLarge,
    /// The text is no dump, or there was not enough memory for it.
    Bad(DumpFault),
}

impl LoadFault {
    // The refusal for this fault.
    fn refusal(self) -> Refusal
        ensures { MayRefuseText result }
    {
        match self {
            LoadFault::Unread(ErrorKind::OutOfMemory) => Refusal::NoMemory,
            LoadFault::Bad(fault) => fault.refusal(),
            LoadFault::NoInput | LoadFault::Unread(_) | LoadFault::TooLarge => Refusal::BadScript,
        }
    }
}

impl Display for LoadFault {
    fn fmt<W: fmt::Write>(&self, f: &mut Formatter<W>) -> fmt::Result {
        match *self {
            LoadFault::NoInput => f.write_str("standard input is closed"),
            LoadFault::Unread(kind) => {
                let words = Words(kind);
                write!(f, "the text can't be read: {words}")
            }
            LoadFault::TooLarge => f.write_str("the text is too large to be a dump"),
            LoadFault::Bad(fault) => write!(f, "{fault}"),
        }
    }
}

// Returns the refusal of a text, and tells the observer why.
fn refuse_text<V: Observer<LoadFault>>(fault: LoadFault, observer: &mut V) -> Refusal
    ensures { MayRefuseText result }
{
    observer.tell(fault);
    fault.refusal()
}

// Returns the text, or why it can't be read.
fn read_whole<R: Files<File = File> + AllocGlobal, I: Read>(
    rt: &R,
    held: &Descriptors,
    path: &str,
    input: &mut I,
) -> Result<Vec<u8>, LoadFault>
    ensures { IfOk result (λ text. IsTextOf (bytes_at path.now (I.remaining input.old)) text.items) }
{
    if path == "-" && held.stands_for(0) {
        return Err(LoadFault::NoInput);
    }
    match text_of(rt, path, input) {
        Ok(text) => Ok(text),
        Err(TextFault::Bad(ScriptFault::NoMemory)) => Err(LoadFault::Bad(DumpFault::NoMemory)),
        Err(TextFault::Bad(_)) => Err(LoadFault::TooLarge),
        Err(TextFault::Unread(kind)) => Err(LoadFault::Unread(kind)),
    }
}

// Returns what the text says, or why it isn't loaded.
fn read_loaded<R: Files<File = File> + AllocGlobal, I: Read>(
    rt: &R,
    held: &Descriptors,
    path: &str,
    input: &mut I,
) -> Result<Loaded, LoadFault>
    ensures { IfOk result (λ l. (text : List ℕ) × IsTextOf (bytes_at path.now (I.remaining input.old)) text
        × IsDumpOf l text) }
{
    let text = read_whole(rt, held, path, input)?;
    match read_dump(rt.alloc(), text.as_slice()) {
        Ok(loaded) => Ok(loaded),
        Err(fault) => Err(LoadFault::Bad(fault)),
    }
}

// Prepares what was loaded for an image of the sizes that are asked for. If it is refused, the observer is told why.
fn prepare_loaded<V: Observer<News> + Observer<MoveNews>>(
    alloc: Global,
    loaded: &Loaded,
    asked: Asked,
    observer: &mut V,
) -> Result<Resized, Refusal>
    ensures whole { IfOk result (λ r. IsWhole r) }
    ensures source { IfOk result (λ r. IsReadied asked loaded.now r) }
    ensures refused { IfErr result (λ e. (e ≡ BadLimits) ⊎ (e ≡ NoMemory)) }
{
    let original = Original {
        memory: &loaded.memory,
        limits: loaded.limits,
        count: loaded.count,
    };
    match prepare(alloc, &original, asked, observer) {
        Ok(resized) => Ok(resized),
        Err(refusal) => {
            if refusal == Refusal::NoMemory {
                observer.tell(News::Refused(Reason::Memory));
            }
            Err(refusal)
        }
    }
}

// Puts what was prepared into the new file. If it is refused, the observer is told why, and a file that was made is
// removed.
fn put_file<R: Files<File = File> + AllocGlobal, S: Start, V: Observer<News> + Observer<MoveNews>>(
    rt: &R,
    path: &str,
    resized: &Resized,
    observer: &mut V,
    start: S,
) -> Result<FileDisk<S>, Refusal>
    requires { IsWhole resized.now }
    ensures put { IfOk result (λ to. IsPutInto S.Start resized.now to) }
    ensures named { IfOk result (λ to. IsOpenAt ⟦<FileDisk<S> as Disk>⟧ S.path path.now to) }
    ensures refused { IfErr result (λ e. MayRefusePlace e) }
{
    let length = image_length(resized.header.limits);
    let (to, is_made) = place_at(rt, path, length, observer, start)?;
    match put_new(to, resized, observer) {
        Ok(to) => Ok(to),
        Err((refusal, to)) => {
            let reason = match to.failure() {
                Some(failure) => Reason::NewCall(call_of(failure)),
                None => Reason::New(refusal),
            };
            let _gone = give_up(rt, path, to, is_made);
            observer.tell(News::Refused(reason));
            Err(refusal)
        }
    }
}

/// Makes an image of the text of a dump, in the sizes that are asked for. Returns the status and the image's disk.
/// Prints the line `loaded COUNT`. The status is 0, or 1 if that can't be written. The text is read first; the path `-`
/// stands for `input`, which is read to its end. A new file that exists is used as it is. Else it is made.
///
/// The clauses hold for whatever the new file held when it was opened (`S`), as long as it was honest. A crash since
/// then leaves a file that is no image, or that means what the text says; or a file that could be left before. The text
/// is what the input gives, where that is known and the path is `-`.
///
/// Errors, with nothing printed; the observer is told why. A new file that was made is removed again:
///
/// - `BadScript` if the text can't be read, or is no dump.
/// - `BadLimits` if what the text says doesn't fit into the sizes that are asked for.
/// - `NoMemory` if there is no room for the text and two memories.
/// - `Device` if the new file can't be opened or made: it isn't a regular file, another opening has its lock, or a call
///   of the system fails.
/// - `WrongLength` or `NotBlank` if the new file can't become the image. It is as it was.
/// - `Device` if a call of the disk failed. A new file that was there before may be partly written, and is no image.
///
/// No clause says that a text is ever read, because nothing is known about the contents of a folder.
pub fn load_file<
    R: Files<File = File> + AllocGlobal,
    S: Start,
    I: Read,
    W: Write,
    V: Observer<News> + Observer<MoveNews> + Observer<LoadFault>,
>(
    hand: AtHand<'_, R, I, V>,
    making: &Making<&str>,
    out: &mut W,
    start: S,
) -> Result<(u8, FileDisk<S>), Refusal>
    ensures status { IfOk result (λ r. r.0 ≤ 1) }
    ensures loaded { let m = making.now in IfOk result (λ r. WasLoaded ⟦<FileDisk<S> as Disk>⟧ S.first m.asked
        m.from.now (I.remaining hand.entry.input.now) (W.contents out.old) (W.contents out.new) r.0 r.1) }
    ensures named { IfOk result (λ r. IsOpenAt ⟦<FileDisk<S> as Disk>⟧ S.path making.now.new.now r.1) }
    ensures refused { IfErr result (λ e. MayRefuseLoad e) }
    ensures same { OnErr result (Keeps (W.contents out.old) (W.contents out.new)) }
{
    let (rt, held, input, observer) = hand.parts();
    let loaded = match read_loaded(rt, held, making.from, input) {
        Ok(loaded) => loaded,
        Err(fault) => return Err(refuse_text(fault, observer)),
    };
    let resized = prepare_loaded(rt.alloc(), &loaded, making.asked, observer)?;
    let to = put_file(rt, making.new, &resized, observer, start)?;
    let told = print_counted(rt.alloc(), "loaded", loaded.count, out);
    Ok((end(rt.alloc(), Style::Text, told, out, observer), to))
}
