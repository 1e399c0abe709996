//! Makes an image.
ghost use Rattle.std.specs.Prelude.{◌≡◌, ◌≤◌, ◌⊎◌, ◌↔◌, IfOk, IfErr, IsOk};
ghost use Rattle.im_types.specs.Types.{Device, NoMemory, WrongLength, AreLimits, sizes_of};
ghost use Rattle.im_program.specs.{Places.IsOpenAt, Working.WasFormatted, Working.WasMade};

use crate::hand::AtHand;
use crate::opening::{format_reason, give_up, refusal_of};
use im_disk::{Disk, FileDisk, Start};
use im_engine::Engine;
use im_files::make_image;
use im_image::image_length;
use im_text::{News, Reason};
use im_types::{Limits, MAX_CELLS, MAX_ELEMENTS, Observer, Refusal};
use im_words::Formatting;
use std::fs::File;
use std::rt::Files;

/// Returns the limits of an image, or `BadLimits` if a number is out of its range.
pub(crate) fn limits_of(cells: u32, elements: u32, slots: u32) -> Result<Limits, Refusal>
    ensures limits { IfOk result (λ l. (l.cells ≡ cells) × (l.elements ≡ elements) × (l.slots ≡ slots)) }
    ensures found { IsOk result ↔ AreLimits cells elements slots }
    ensures refused { IfErr result (λ refusal. refusal ≡ Refusal.BadLimits) }
{
    let Ok(elements) = u16::try_from(elements) else {
        return Err(Refusal::BadLimits);
    };
    Limits::new(cells, elements, slots).ok_or(Refusal::BadLimits)
}

// The first number that is out of its range.
fn limits_reason(cells: u32, elements: u32, slots: u32) -> Reason {
    if cells == 0 || cells > MAX_CELLS {
        Reason::Cells(cells)
    } else if elements == 0 || elements > MAX_ELEMENTS as u32 {
        Reason::Elements(elements)
    } else {
        Reason::Slots(slots)
    }
}

/// Makes an image at the path and returns its disk. An existing file loses its bytes; if a new file is asked for, it is
/// refused. As long as the file was honest, each file that a crash may leave is the new image, byte for byte.
///
/// Errors, of which the observer is told why:
///
/// - `Device`, with nothing changed, if another opening has the file's lock, if what is at the path isn't a regular
///   file, or if a file exists and a new one is asked for.
/// - `Device` if another call of the system fails, and the refusals of [`Engine::format`]. A file that didn't exist
///   before is then removed, and the bytes of an existing one are lost.
///
/// No clause says that an image is ever made, because nothing is known about the contents of a folder.
pub fn format_file<R: Files<File = File> + AllocGlobal, S: Start, I, N: Observer<News>>(
    hand: AtHand<'_, R, I, N>,
    image: &str,
    limits: Limits,
    is_new: bool,
    start: S,
) -> Result<FileDisk<S>, Refusal>
    ensures made { IfOk result (λ disk. WasMade ⟦<FileDisk<S> as Disk>⟧ (sizes_of limits) disk) }
    ensures named { IfOk result (λ disk. IsOpenAt ⟦<FileDisk<S> as Disk>⟧ S.path image.now disk) }
    ensures refused { IfErr result (λ refusal. (refusal ≡ WrongLength) ⊎ (refusal ≡ NoMemory) ⊎ (refusal ≡ Device)) }
{
    let (rt, _held, _input, observer) = hand.parts();
    let (disk, is_made) = match make_image(rt, image, image_length(limits), is_new, start) {
        Ok(made) => made,
        Err(fault) => return Err(refusal_of(rt, image, fault, observer)),
    };
    match Engine::format(rt.alloc(), disk, limits) {
        Ok(engine) => Ok(engine.close()),
        Err((refusal, disk)) => {
            let reason = format_reason(refusal, disk.failure(), is_made);
            let _gone = give_up(rt, image, disk, is_made);
            observer.tell(News::Refused(reason));
            Err(refusal)
        }
    }
}

// Returns the limits that are asked for. If a number is out of its range, the observer is told which.
fn limits_asked<N: Observer<News>>(
    asked: &Formatting<&str>,
    observer: &mut N,
) -> Result<Limits, Refusal>
    ensures limits { IfOk result (λ limits. (limits.cells ≡ asked.now.cells) × (limits.elements ≡ asked.now.elements)
        × (limits.slots ≡ asked.now.slots)) }
    ensures found { IfOk result (λ _. AreLimits asked.now.cells asked.now.elements asked.now.slots) }
{
    let (cells, elements, slots) = (asked.cells, asked.elements, asked.slots);
    match limits_of(cells, elements, slots) {
        Ok(limits) => Ok(limits),
        Err(refusal) => {
            observer.tell(News::Refused(limits_reason(cells, elements, slots)));
            Err(refusal)
        }
    }
}

/// Makes the image that the command line asks for. Returns the status 0, and the image's disk. Returns `BadLimits` if a
/// number is out of its range; then no file is made.
pub(crate) fn format_image<R: Files<File = File> + AllocGlobal, S: Start, I, N: Observer<News>>(
    hand: AtHand<'_, R, I, N>,
    formatting: &Formatting<&str>,
    start: S,
) -> Result<(u8, FileDisk<S>), Refusal>
    ensures status { IfOk result (λ r. r.0 ≤ 1) }
    ensures limits { IfOk result (λ _. AreLimits formatting.now.cells formatting.now.elements formatting.now.slots) }
    ensures made { IfOk result (λ r. WasFormatted ⟦<FileDisk<S> as Disk>⟧ formatting.now.cells formatting.now.elements
        formatting.now.slots r.0 r.1) }
    ensures named { IfOk result (λ r. IsOpenAt ⟦<FileDisk<S> as Disk>⟧ S.path formatting.now.image.now r.1) }
{
    let limits = limits_asked(formatting, &mut *hand.observer)?;
    let disk = format_file(hand, formatting.image, limits, formatting.is_new, start)?;
    Ok((0, disk))
}
