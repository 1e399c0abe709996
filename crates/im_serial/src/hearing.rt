//! Reads what a script's lines say of requests.
ghost use Rattle.std.specs.Prelude.{◌≡◌, IfOk, Some};
ghost use Rattle.im_script.specs.Script.{draft_of};
ghost use Rattle.im_serial.specs.Asked.{said_at, said_by};

use im_script::{Heard, Reader, Said, ScriptFault};
use std::alloc::Global;

// Returns what a line says of requests: a glance asks for none.
fn said_by(heard: Heard) -> Said
    ensures { result ≡ said_by heard }
{
    match heard {
        Heard::Says(said) => said,
        Heard::Glances(_element, _place) => Said::Nothing,
    }
}

/// Reads the line with this number, from 1, and returns what it says of requests.
pub fn hear<'a>(
    reader: &mut Reader<'a>,
    alloc: Global,
    number: usize,
    line: &'a [u8],
) -> Result<Said, ScriptFault>
    ensures ok { IfOk result (λ said. said_at (draft_of reader.old) line.entry.now ≡ Some (draft_of reader.new, said)) }
{
    match reader.read_with_glances(alloc, number, line) {
        Ok(heard) => Ok(said_by(heard)),
        Err(fault) => Err(fault),
    }
}
