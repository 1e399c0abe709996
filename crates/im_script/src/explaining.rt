//! Explains where a refused line goes wrong.
ghost use Rattle.std.specs.Prelude.{◌≡◌, false, IfSome};
ghost use Rattle.im_script.specs.Faults.{is_of_length};

use crate::faults::{Expected, LineFault, Quoted};
use crate::grammar::{
    can_name, find_name, has_name, is_plain, read_kind, read_number, read_place, read_u32,
};
use crate::script::{LAST_ELEMENT, Stage};
use indexmap::IndexSet;

/// A byte-order mark in UTF-8.
const MARK: &[u8] = b"\xef\xbb\xbf";

/// What the first word of a line must be, by where the line stands and whether it may be a glance.
fn beginning(stage: Stage, glances: bool) -> Expected {
    match stage {
        Stage::Start => Expected::Start,
        Stage::Setup => Expected::Setup,
        Stage::Part(_) => {
            if glances {
                Expected::RequestOrGlance
            } else {
                Expected::Request
            }
        }
    }
}

/// Returns what follows the first word of a request. Returns `None` if no request has this first word.
pub fn behind_request(word: &[u8]) -> Option<&'static [Expected]> {
    if word == b"alloc".as_slice() {
        Some(&[Expected::Kind, Expected::Length])
    } else if word == b"store".as_slice() || word == b"put".as_slice() {
        Some(&[Expected::Place, Expected::Value])
    } else if word == b"fetch".as_slice()
        || word == b"take".as_slice()
        || word == b"release".as_slice()
        || word == b"reset".as_slice()
    {
        Some(&[Expected::Place])
    } else {
        None
    }
}

/// Returns what follows the first word of a line in a part. Returns `None` if no such line has this first word.
fn behind_in_part(word: &[u8], glances: bool) -> Option<&'static [Expected]> {
    if glances && word == b"glance".as_slice() {
        Some(&[Expected::Place])
    } else {
        behind_request(word)
    }
}

/// Returns what follows the first word of a line that stands at `stage`. Returns `None` if no such line has this first
/// word.
fn behind(stage: Stage, word: &[u8], glances: bool) -> Option<&'static [Expected]> {
    if word == b"element".as_slice() {
        return Some(&[Expected::Element]);
    }
    match stage {
        Stage::Start if word == b"setup".as_slice() => Some(&[]),
        Stage::Setup if word == b"alloc".as_slice() => {
            Some(&[Expected::Name, Expected::Kind, Expected::Length])
        }
        Stage::Part(_) => behind_in_part(word, glances),
        _ => None,
    }
}

/// Checks a word that must be a new name. Returns what is expected instead, or `None` if the word is a new name.
fn name_fault(names: &IndexSet<&[u8]>, word: &[u8]) -> Option<Expected> {
    if !can_name(word) {
        Some(Expected::Name)
    } else if find_name(names, word).is_some() {
        Some(Expected::NewName)
    } else {
        None
    }
}

/// Checks a word that must be a place. Returns what is expected instead, or `None` if the word is a place.
fn place_fault(names: &IndexSet<&[u8]>, word: &[u8]) -> Option<Expected> {
    if read_place(names, word).is_some() {
        None
    } else if has_name(names, word) {
        Some(Expected::Offset)
    } else {
        Some(Expected::Place)
    }
}

/// Checks a word against what is expected. Returns what is expected instead, or `None` if the word fits.
fn word_fault(names: &IndexSet<&[u8]>, word: &[u8], expected: Expected) -> Option<Expected> {
    let fits = match expected {
        Expected::Name => return name_fault(names, word),
        Expected::Place => return place_fault(names, word),
        Expected::Element => read_number(word, LAST_ELEMENT).is_some(),
        Expected::Kind => read_kind(word).is_some(),
        Expected::Length => read_u32(word).is_some(),
        Expected::Value => read_number(word, u64::MAX).is_some(),
        _ => true,
    };
    if fits { None } else { Some(expected) }
}

/// The fault of a word that isn't what is expected.
fn wrong(word: &[u8], expected: Expected) -> LineFault
    ensures { is_of_length result ≡ false }
{
    if word.first() == Some(&b'#') {
        LineFault::Remark(Quoted::of(word), expected)
    } else {
        LineFault::Word(Quoted::of(word), expected)
    }
}

/// Where the words after the first word of a line go wrong.
fn rest_fault(names: &IndexSet<&[u8]>, words: &[&[u8]], expected: &[Expected]) -> LineFault
    ensures { is_of_length result ≡ false }
{
    for (at, expected) in expected.iter().enumerate() {
        let Some(word) = words.get(at) else {
            return LineFault::Ends(*expected);
        };
        if let Some(wanted) = word_fault(names, word, *expected) {
            return wrong(word, wanted);
        }
    }
    match words.get(expected.len()) {
        Some(word) => wrong(word, Expected::End),
        None => LineFault::Ends(Expected::End),
    }
}

/// Whether the words are a remark.
fn is_remark(words: &[&[u8]]) -> bool {
    match words.first() {
        Some(word) => word.first() == Some(&b'#'),
        None => false,
    }
}

/// The fault of a word that isn't ASCII; `at` is its index among the words.
fn not_ascii(words: &[&[u8]], at: usize, word: &[u8]) -> LineFault
    ensures { is_of_length result ≡ false }
{
    if at == 0 && word.starts_with(MARK) {
        LineFault::Mark
    } else if is_remark(words) {
        LineFault::Word(Quoted::of(word), Expected::AsciiRemark)
    } else {
        LineFault::Word(Quoted::of(word), Expected::Ascii)
    }
}

/// The fault of the first word that isn't ASCII, if there is one.
fn ascii_fault(words: &[&[u8]]) -> Option<LineFault>
    ensures { IfSome result (λ fault. is_of_length fault ≡ false) }
{
    for (at, word) in words.iter().enumerate() {
        if !is_plain(word) {
            return Some(not_ascii(words, at, word));
        }
    }
    None
}

/// Whether the last word ends in a carriage return. The grammar has no line with such a word, except a remark.
fn ends_in_return(words: &[&[u8]]) -> bool {
    match words.last() {
        Some(word) => word.last() == Some(&b'\r'),
        None => false,
    }
}

/// Returns a fault that doesn't depend on what the line says: a word isn't ASCII, or the last word ends in a carriage
/// return.
pub fn bytes_fault(words: &[&[u8]]) -> Option<LineFault>
    ensures { IfSome result (λ fault. is_of_length fault ≡ false) }
{
    if let Some(fault) = ascii_fault(words) {
        return Some(fault);
    }
    if ends_in_return(words) {
        Some(LineFault::Return)
    } else {
        None
    }
}

/// Explains where a line goes wrong that is refused at `stage` and isn't too long. `names` are the names that earlier
/// lines gave, and `glances` says whether the script may have glances.
pub fn explain(stage: Stage, names: &IndexSet<&[u8]>, words: &[&[u8]], glances: bool) -> LineFault
    ensures { is_of_length result ≡ false }
{
    if let Some(fault) = bytes_fault(words) {
        return fault;
    }
    let Some((first, rest)) = words.split_first() else {
        return LineFault::Ends(beginning(stage, glances));
    };
    match behind(stage, first, glances) {
        Some(expected) => rest_fault(names, rest, expected),
        None => LineFault::Word(Quoted::of(first), beginning(stage, glances)),
    }
}
