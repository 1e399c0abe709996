//! Reads the text of a script.
ghost use Rattle.std.specs.Prelude.{◌≡◌, ◌⊎◌, IfOk, IfErr, codes, bytes_eq};
ghost use Rattle.im_types.specs.Types.{NoMemory, BadScript};
ghost use Rattle.im_program.specs.Sources.{bytes_at, IsTextOf};

use crate::descriptors::Descriptors;
use im_script::{Script, ScriptFault, TextFault, read_script, read_script_with_glances, read_text};
use im_text::{News, Reason};
use im_types::{Observer, Refusal};
use std::alloc::Global;
use std::fs::File;
use std::io::{ErrorKind, Read};
use std::rt::Files;

// Returns whether a path stands for the input.
fn is_input(path: &str) -> bool
    ensures { result ≡ bytes_eq path.now (codes "-") }
{
    path == "-"
}

/// Returns the text of a file, or of the input if the path is `-`.
pub(crate) fn text_of<R: Files<File = File> + AllocGlobal, I: Read>(
    rt: &R,
    script: &str,
    input: &mut I,
) -> Result<Vec<u8>, TextFault>
    ensures { IfOk result (λ text. IsTextOf (bytes_at script.now (I.remaining input.old)) text.items) }
{
    if is_input(script) {
        return read_text(rt.alloc(), input);
    }
    match File::open(rt, script) {
        Ok(mut file) => read_text(rt.alloc(), &mut file),
        Err(error) => Err(TextFault::Unread(error.kind())),
    }
}

// Returns the refusal of a script, and tells the observer why.
fn refuse_script<N: Observer<News>>(reason: Reason, observer: &mut N) -> Refusal
    ensures { (result ≡ BadScript) ⊎ (result ≡ NoMemory) }
{
    observer.tell(News::Refused(reason));
    match reason {
        Reason::ScriptFile(ErrorKind::OutOfMemory) | Reason::Script(ScriptFault::NoMemory) => {
            Refusal::NoMemory
        }
        _ => Refusal::BadScript,
    }
}

/// Returns the text of a script, or `BadScript` if it can't be read.
pub(crate) fn read_file<R: Files<File = File> + AllocGlobal, I: Read, N: Observer<News>>(
    rt: &R,
    held: &Descriptors,
    script: &str,
    input: &mut I,
    observer: &mut N,
) -> Result<Vec<u8>, Refusal>
    ensures text { IfOk result (λ text. IsTextOf (bytes_at script.now (I.remaining input.old)) text.items) }
    ensures refused { IfErr result (λ refusal. (refusal ≡ BadScript) ⊎ (refusal ≡ NoMemory)) }
{
    if script == "-" && held.stands_for(0) {
        return Err(refuse_script(Reason::NoInput, observer));
    }
    match text_of(rt, script, input) {
        Ok(text) => Ok(text),
        Err(TextFault::Bad(fault)) => Err(refuse_script(Reason::Script(fault), observer)),
        Err(TextFault::Unread(kind)) => Err(refuse_script(Reason::ScriptFile(kind), observer)),
    }
}

// Reads the script in a text, with or without glances.
fn read_either(alloc: Global, text: &[u8], glances: bool) -> Result<Script<'_>, ScriptFault>
    ensures { IfOk result (λ script. script ≡ text.now) }
{
    if glances {
        read_script_with_glances(alloc, text)
    } else {
        read_script(alloc, text)
    }
}

/// Returns the script in a text, or `BadScript` if the text isn't in the grammar. `glances` says whether it may have
/// glances.
pub(crate) fn script_in<'a, N: Observer<News>>(
    alloc: Global,
    text: &'a [u8],
    glances: bool,
    observer: &mut N,
) -> Result<Script<'a>, Refusal>
    ensures text { IfOk result (λ script. script ≡ text.now) }
    ensures refused { IfErr result (λ refusal. (refusal ≡ BadScript) ⊎ (refusal ≡ NoMemory)) }
{
    match read_either(alloc, text, glances) {
        Ok(script) => Ok(script),
        Err(fault) => Err(refuse_script(Reason::Script(fault), observer)),
    }
}
