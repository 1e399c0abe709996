//! Serves the requests of a script in their order.
ghost use Rattle.std.specs.Prelude.{◌≡◌, ◌≤◌, ◌⊎◌, IfOk, IfErr, OnErr};
ghost use Rattle.std.specs.Io.KnownBytes.{Keeps};
ghost use Rattle.im_types.specs.Types.{Device, NoMemory, BadScript};
ghost use Rattle.im_text.specs.Said.{output};
ghost use Rattle.im_program.specs.{Places.IsOpenAt, Working.WasScriptServed, Working.WasTextServed};

use crate::hand::AtHand;
use crate::opening::image_at;
use crate::scripts::{read_file, script_in};
use im_disk::{Disk, FileDisk, Start};
use im_serial::{StyledScript, serial_on, serial_once_on};
use im_text::{FAULTY, News, Style, strict_status};
use im_types::{Observer, Refusal};
use im_words::Serving;
use std::fs::File;
use std::io::{Read, Write};
use std::rt::Files;

/// Serves the script of one file on the image of another. Returns the status of [`serial_on`] and the image's disk;
/// [`serial_on`] also says which lines are printed. The script is read first. The path `-` stands for the input, which
/// is read to its end. If it is done once, what the image has of the script isn't asked anew: then [`serial_once_on`]
/// stands for [`serial_on`] here. If it is strict, the status is [`FAULTY`] where it would be 0 and a line tells an
/// error of the program that asked.
///
/// The clauses hold for whatever the image held when it was opened (`S`), as long as the file was honest. A crash at
/// any moment since then leaves what [`serial_on`] says. It says that of the bytes that the input gives, where these
/// are known and the path is `-`. What a file holds is known to no contract: of its text it says that there is one.
///
/// Errors, with nothing printed and the image as it was; the observer is told why:
///
/// - `BadScript` if the script can't be read or isn't in the grammar.
/// - `NoMemory` if there is no room for the script.
/// - `Device` if the image can't be opened: it isn't a regular file, another opening has its lock, or a call of the
///   system fails.
///
/// If [`serial_on`] refuses, its status and its last line say so. No clause says that an image is ever opened, because
/// nothing is known about the contents of a folder.
pub fn serve_file<
    R: Files<File = File> + AllocGlobal,
    S: Start,
    I: Read,
    W: Write,
    N: Observer<News>,
>(
    hand: AtHand<'_, R, I, N>,
    serving: &Serving<&str>,
    out: &mut W,
    start: S,
) -> Result<(u8, FileDisk<S>), Refusal>
    ensures status { IfOk result (λ r. (r.0 ≤ 1) ⊎ (r.0 ≡ FAULTY)) }
    ensures served { IfOk result (λ r. WasScriptServed ⟦<FileDisk<S> as Disk>⟧ S.first serving.now
        (I.remaining hand.entry.input.now) (W.contents out.old) (W.contents out.new) r.0 r.1) }
    ensures named { IfOk result (λ r. IsOpenAt ⟦<FileDisk<S> as Disk>⟧ S.path serving.now.image.now r.1) }
    ensures refused { IfErr result (λ refusal. (refusal ≡ BadScript) ⊎ (refusal ≡ NoMemory) ⊎ (refusal ≡ Device)) }
    ensures same { OnErr result (Keeps (W.contents out.old) (W.contents out.new)) }
{
    let (rt, held, input, observer) = hand.parts();
    let once = serving.once;
    let text = read_file(rt, held, serving.script, input, observer)?;
    let script = script_in(rt.alloc(), text.as_slice(), false, observer)?;
    let disk = image_at(rt, serving.image, observer, start)?;
    let styled = StyledScript {
        script: &script,
        style: serving.style,
    };
    if once {
        let (status, disk, faulted) = serial_once_on(rt.alloc(), disk, &styled, out, observer);
        Ok((strict_status(serving.strict, faulted, status), disk))
    } else {
        let (status, disk, faulted) = serial_on(rt.alloc(), disk, &styled, out, observer);
        Ok((strict_status(serving.strict, faulted, status), disk))
    }
}

/// Serves the script that these bytes are, as [`serve_file`] does with the path `-`. What is served are the bytes
/// themselves.
pub fn serve_input<R: Files<File = File> + AllocGlobal, S: Start, W: Write, N: Observer<News>>(
    hand: AtHand<'_, R, &[u8], N>,
    image: &str,
    once: bool,
    out: &mut W,
    start: S,
) -> Result<(u8, FileDisk<S>), Refusal>
    ensures { IfOk result (λ r. WasTextServed ⟦<FileDisk<S> as Disk>⟧ S.first once hand.entry.input.now.now
        (output Style.Text (W.contents out.old)) (W.contents out.new) r.0 r.1) }
{
    let serving = Serving {
        image,
        script: "-",
        once,
        strict: false,
        style: Style::Text,
    };
    serve_file(hand, &serving, out, start)
}
