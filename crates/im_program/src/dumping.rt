//! Prints the dump of an image.
ghost use Rattle.std.specs.Prelude.{◌≡◌, ◌≤◌, [], IfOk, IfErr, OnOk, OnErr};
ghost use Rattle.std.specs.Io.KnownBytes.{Keeps};
ghost use Rattle.{im_types.specs.Types.Device, im_dump.specs.Dumping.Dumps, im_dump.specs.Dumping.WasDumped};
ghost use Rattle.im_disk.specs.{Runs.ReadsAlone, Since.ReadsOnly};
ghost use Rattle.im_program.specs.Places.{IsOpenAt};

use crate::hand::AtHand;
use crate::opening::image_to_read;
use im_disk::{Disk, FileDisk, Start};
use im_dump::{dump, salvage};
use im_text::{News, Reason, Style, diagnose, end};
use im_types::{Observer, Refusal};
use im_words::Dumping;
use std::alloc::Global;
use std::fs::File;
use std::io::Write;
use std::rt::Files;

// Writes the dump of the image on a disk. If the image is refused and `damaged` is set, writes what its bytes still say
// before it returns the reason.
fn write_told<D: Disk, W: Write>(
    alloc: Global,
    disk: &mut D,
    damaged: bool,
    out: &mut W,
) -> Result<(), Reason>
    ensures told { OnOk result (WasDumped (D.honest disk.new) (D.now disk.old).bytes
        (W.contents out.old) (W.contents out.new)) }
    ensures reads { ReadsAlone D.Disk disk.old disk.new }
{
    if !damaged {
        return dump(alloc, disk, out);
    }
    match salvage(alloc, disk, out) {
        Ok(None) => Ok(()),
        Ok(Some(fault)) => Err(diagnose(alloc, disk, fault)),
        Err(reason) => Err(reason),
    }
}

// Prints the dump of the image on a disk, or what a damaged one still says. Returns the status. If something is
// refused, the observer is told why.
fn dump_on<D: Disk, W: Write, V: Observer<News>>(
    alloc: Global,
    disk: &mut D,
    damaged: bool,
    out: &mut W,
    observer: &mut V,
) -> u8
    ensures status { result ≤ 1 }
    ensures told { D.honest disk.new → result ≡ 0
        → Dumps (D.now disk.old).bytes (W.contents out.old) (W.contents out.new) }
    ensures reads { ReadsAlone D.Disk disk.old disk.new }
{
    let told = write_told(alloc, disk, damaged, out);
    end(alloc, Style::Text, told, out, observer)
}

/// Prints the dump of the image of a file. Returns the status and the image's disk. The status is 0, or 1 if something
/// was refused; then the last line is `refused N NAME`. The reason of a refusal is that of [`dump`]. Of a damaged image
/// that is to be dumped as such, what [`salvage`] writes stands before that line.
///
/// The clauses hold for whatever the image held when it was opened (`S`), as long as the file was honest. With status 0
/// the dump of those bytes is written to `out`. A crash leaves nothing that the file couldn't leave when it was opened.
///
/// Returns `Device`, with nothing printed and the image as it was, if the image can't be opened: it isn't a regular
/// file, an opening that writes has its lock, or a call of the system fails. The observer is told why.
///
/// No clause says that an image is ever opened, because nothing is known about the contents of a folder.
pub fn dump_file<R: Files<File = File> + AllocGlobal, S: Start, I, W: Write, V: Observer<News>>(
    hand: AtHand<'_, R, I, V>,
    dumping: &Dumping<&str>,
    out: &mut W,
    start: S,
) -> Result<(u8, FileDisk<S>), Refusal>
    ensures status { IfOk result (λ r. r.0 ≤ 1) }
    ensures told { IfOk result (λ r. ⟦<FileDisk<S> as Disk>⟧.honest r.1 → r.0 ≡ 0 →
        Dumps S.first.bytes (W.contents out.old) (W.contents out.new)) }
    ensures reads { IfOk result (λ r. ⟦<FileDisk<S> as Disk>⟧.honest r.1 →
        ReadsOnly S.first (⟦<FileDisk<S> as Disk>⟧.now r.1) [] (⟦<FileDisk<S> as Disk>⟧.past r.1)) }
    ensures named { IfOk result (λ r. IsOpenAt ⟦<FileDisk<S> as Disk>⟧ S.path dumping.now.image.now r.1) }
    ensures refused { IfErr result (λ refusal. refusal ≡ Device) }
    ensures same { OnErr result (Keeps (W.contents out.old) (W.contents out.new)) }
{
    let (rt, _held, _input, observer) = hand.parts();
    let mut disk = image_to_read(rt, dumping.image, observer, start)?;
    let status = dump_on(rt.alloc(), &mut disk, dumping.damaged, out, observer);
    Ok((status, disk))
}
