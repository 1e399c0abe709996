//! Reads a whole text that has to be a script. The program does so before anything of the script is served.
ghost use Rattle.std.specs.Prelude.{◌≡◌, ◌<◌, true, false, ◌⊎◌, ◌↔◌, [], ◌∷◌, length, IfSome, IfOk, IfErr, OnOk};
ghost use Rattle.std.specs.Prelude.{IsSome, None, Err};
ghost use Rattle.std.specs.Option.{option_map_or};
ghost use Rattle.im_script.specs.declared.faults.ScriptFault.TheVariants.{NoMemory, TooLarge};
ghost use Rattle.im_script.specs.Faults.{bad_line, is_of_size, IsFirstBadLine};
ghost use Rattle.im_script.specs.Script.{is_few, lines_of, script_of};

use crate::MAX_SCRIPT;
use crate::faults::ScriptFault;
use crate::reader::Reader;
use crate::script::Script;
use memchr::memchr;
use std::alloc::Global;

// Splits a text after its first line.
fn cut_line(text: &[u8]) -> (&[u8], Option<&[u8]>)
    ensures lines { lines_of text.now ≡ result.0.now ∷ option_map_or (λ rest. lines_of rest.now) result.1 [] }
    ensures smaller { IfSome result.1 (λ rest. length rest.now < length text.now) }
{
    match memchr(b'\n', text) {
        Some(at) => (&text[..at], Some(&text[at + 1..])),
        None => (text, None),
    }
}

/// Splits a text after its first line. Returns the line and the text after its line feed, or `None` for the latter if
/// the text ends with the line.
pub fn split_line(text: &[u8]) -> (&[u8], Option<&[u8]>)
    ensures { lines_of text.now ≡ result.0.now ∷ option_map_or (λ rest. lines_of rest.now) result.1 [] }
{
    cut_line(text)
}

/// Reads a text that isn't too large. `glances` says whether it may have glances.
fn read_lines(alloc: Global, text: &[u8], glances: bool) -> Result<Script<'_>, ScriptFault>
    requires few { is_few text.now ≡ true }
    ensures size { IfErr result (λ fault. is_of_size fault ≡ false) }
    ensures text { IfOk result (λ script. script ≡ text.now) }
    ensures ok { OnOk result (IsSome (script_of glances text.now)) }
    ensures bad { IfErr result (λ fault. (fault ≡ NoMemory) ⊎ (script_of glances text.now ≡ None)) }
    ensures first { IfErr result (λ fault. IfSome (bad_line fault) (IsFirstBadLine glances text.now)) }
{
    let mut reader = Reader::new(alloc);
    let mut number = 0;
    let mut rest = Some(text);
    while let Some(left) = rest {
        let (line, behind) = cut_line(left);
        number += 1;
        reader.hear(alloc, number, line, glances)?;
        rest = behind;
    }
    Ok(Script { text })
}

/// Reads a text. `glances` says whether it may have glances.
fn read_any(alloc: Global, text: &[u8], glances: bool) -> Result<Script<'_>, ScriptFault>
    ensures text { IfOk result (λ script. script ≡ text.now) }
    ensures ok { OnOk result (IsSome (script_of glances text.now)) }
    ensures bad { IfErr result (λ fault. (fault ≡ NoMemory) ⊎ (script_of glances text.now ≡ None)) }
    ensures first { IfErr result (λ fault. IfSome (bad_line fault) (IsFirstBadLine glances text.now)) }
    ensures full { (result ≡ Err TooLarge) ↔ (MAX_SCRIPT < length text.now) }
{
    if text.len() > MAX_SCRIPT {
        return Err(ScriptFault::TooLarge);
    }
    read_lines(alloc, text, glances)
}

/// Reads a text that must be a script without glances. Returns `TooLarge` if it has more than 256 MiB. Else the fault
/// is that of the first line that isn't in the grammar at its place. Returns `NoMemory` if a growth was refused. It
/// keeps no memory but for the names of the setup.
pub fn read_script(alloc: Global, text: &[u8]) -> Result<Script<'_>, ScriptFault>
    ensures text { IfOk result (λ script. script ≡ text.now) }
    ensures ok { OnOk result (IsSome (script_of false text.now)) }
    ensures bad { IfErr result (λ fault. (fault ≡ NoMemory) ⊎ (script_of false text.now ≡ None)) }
    ensures first { IfErr result (λ fault. IfSome (bad_line fault) (IsFirstBadLine false text.now)) }
    ensures full { (result ≡ Err TooLarge) ↔ (MAX_SCRIPT < length text.now) }
{
    read_any(alloc, text, false)
}

/// Reads a text that must be a script, which may have glances: a part may have the line `glance PLACE`. All else is as
/// in [`read_script`].
pub fn read_script_with_glances(alloc: Global, text: &[u8]) -> Result<Script<'_>, ScriptFault>
    ensures text { IfOk result (λ script. script ≡ text.now) }
    ensures ok { OnOk result (IsSome (script_of true text.now)) }
    ensures bad { IfErr result (λ fault. (fault ≡ NoMemory) ⊎ (script_of true text.now ≡ None)) }
    ensures first { IfErr result (λ fault. IfSome (bad_line fault) (IsFirstBadLine true text.now)) }
    ensures full { (result ≡ Err TooLarge) ↔ (MAX_SCRIPT < length text.now) }
{
    read_any(alloc, text, true)
}
