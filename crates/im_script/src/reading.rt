//! Reads the text of a script.
ghost use Rattle.std.specs.Prelude.{◌≡◌, ◌<◌, ◌≤◌, true, false, [], length, take, IfSome, IfOk, IfErr, OnOk};
ghost use Rattle.im_script.specs.Faults.{is_too_large};

use crate::MAX_SCRIPT;
use crate::faults::ScriptFault;
use std::alloc::Global;
use std::io::{ErrorKind, Read};
use thiserror::Error;

/// Why the text of a script can't be read.
#[derive(Clone, Copy, Debug, PartialEq, Eq, Error)]
pub enum TextFault {
    /// The text is too large, or there was not enough memory.
    #[error("{0}")]
    Bad(ScriptFault),
    /// The reader failed.
    #[error("the script can't be read: {0}")]
    Unread(ErrorKind),
}

// Why a read failed.
fn fault_of(kind: ErrorKind) -> TextFault
    ensures { is_too_large result ≡ false }
{
    if kind == ErrorKind::OutOfMemory {
        TextFault::Bad(ScriptFault::NoMemory)
    } else {
        TextFault::Unread(kind)
    }
}

// Reads the given number of bytes, or all that there are.
fn read_up_to<I: Read>(input: &mut I, most: u64, text: &mut Vec<u8>) -> Result<(), ErrorKind>
    requires empty { text.old.items ≡ [] }
    ensures { OnOk result (IfSome (I.remaining input.old) (λ bytes. text.new.items ≡ take most bytes)) }
{
    match input.take(most).read_to_end(text) {
        Ok(_) => Ok(()),
        Err(error) => Err(error.kind()),
    }
}

/// Reads the text of a script to its end, if it has at most 256 MiB. Of a longer text it reads one byte more than that,
/// and returns `TooLarge`. Returns `NoMemory` if a growth was refused, and `Unread` if the reader failed.
pub fn read_text<I: Read>(alloc: Global, input: &mut I) -> Result<Vec<u8>, TextFault>
    ensures few { IfOk result (λ text. length text.items ≤ MAX_SCRIPT) }
    ensures found { IfOk result (λ text. IfSome (I.remaining input.old) (λ bytes. text.items ≡ bytes)) }
    ensures full { IfErr result (λ fault. is_too_large fault ≡ true
        → IfSome (I.remaining input.old) (λ bytes. MAX_SCRIPT < length bytes)) }
{
    let mut text = Vec::new(alloc);
    match read_up_to(input, MAX_SCRIPT as u64 + 1, &mut text) {
        Ok(()) => {
            if text.len() > MAX_SCRIPT {
                return Err(TextFault::Bad(ScriptFault::TooLarge));
            }
            Ok(text)
        }
        Err(kind) => Err(fault_of(kind)),
    }
}
