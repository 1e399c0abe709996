//! The names of refusals and answers, for C.
ghost use Rattle.std.specs.Prelude.{◌≡◌, length};
ghost use Rattle.im_c.specs.Telling.{answer_name, PutsText, refusal_name};

use crate::inspecting::put_text;
use crate::plain::{NO_CALL, UNSERVED};
use im_types::Refusal;

// Returns the name of the refusal with this number, if it is one of these. Its name is that of its variant.
macro_rules! return_name {
    ($number:ident: $($refusal:ident),+) => {
        $(
            if $number == Refusal::$refusal.number() {
                return stringify!($refusal);
            }
        )+
    };
}

// The name of the refusal with this number.
fn name_of(number: u8) -> &'static str
    ensures { result.now ≡ refusal_name number }
{
    return_name!(
        number: Gap, Forgotten, WindowFull, Mismatch, NoElement, NotAnswered, JournalFull, Device,
        Failed, NoMemory, TraceFull, WrongLength, NoHeader, BadHeader, BadPage, BadRecord, BadLimits,
        BadScript, Stalled, OffPlan, OldVersion, NotBlank, BadPlan, PaneGone
    );
    match number {
        UNSERVED => "Unserved",
        NO_CALL => "NoCall",
        _ => "",
    }
}

// The name of the answer with this tag.
fn answer_of(tag: u8) -> &'static str
    ensures { result.now ≡ answer_name tag }
{
    match tag {
        0 => "Waiting",
        1 => "Base",
        2 => "NoSpace",
        3 => "BadLength",
        4 => "Value",
        5 => "Stored",
        6 => "Clash",
        7 => "NoCell",
        8 => "WrongKind",
        9 => "Released",
        10 => "NoBlock",
        11 => "StillWaiting",
        12 => "Cleared",
        _ => { if tag == 128 { "Confirmed" } else { "" } }
    }
}

// Returns the length of a name, and copies the name to the start of the buffer if it fits.
fn tell_name(name: &'static str, buffer: &mut [u8]) -> usize
    ensures length { result ≡ length name.now }
    ensures name { PutsText name.now buffer.old buffer.new }
{
    put_text(name.as_bytes(), buffer);
    name.len()
}

/// Returns the length of the name of the refusal with this number. The name is at the start of `buffer` if it fits, and
/// the rest of `buffer` is as it was. The name of 0, and of a number that is no refusal, is empty.
#[unsafe(no_mangle)]
pub extern "C" fn lt_refusal_name(refusal: u8, buffer: &mut [u8]) -> usize
    ensures length { result ≡ length (refusal_name refusal) }
    ensures name { PutsText (refusal_name refusal) buffer.old buffer.new }
{
    tell_name(name_of(refusal), buffer)
}

/// Returns the length of the name of the answer with this tag. The name is at the start of `buffer` if it fits, and the
/// rest of `buffer` is as it was. The name of a tag that no answer has is empty.
#[unsafe(no_mangle)]
pub extern "C" fn lt_answer_name(tag: u8, buffer: &mut [u8]) -> usize
    ensures length { result ≡ length (answer_name tag) }
    ensures name { PutsText (answer_name tag) buffer.old buffer.new }
{
    tell_name(answer_of(tag), buffer)
}
