//! Finds where a line that isn't in the grammar goes wrong.
ghost use Rattle.std.specs.Prelude.{◌≡◌, false, not, IfOk};
ghost use Rattle.im_script.specs.{Faults.is_of_length, Grammar.is_short};

use crate::asking::{read_element, read_one, read_waiter};
use crate::backup_name::BackupName;
use im_script::{
    Expected, LineFault, MAX_LINE, Quoted, behind_request, bytes_fault, read_number, read_span,
    read_u32, split_words,
};
use std::alloc::{AllocError, Global};

// Returns what a line has after its first word. Returns `None` if no line starts with this word, or if the word may be
// E.N.
fn behind(word: &[u8]) -> Option<&'static [Expected]> {
    if read_one(word).is_some() {
        return Some(&[]);
    }
    if word == b"collect".as_slice() || word == b"entry".as_slice() {
        Some(&[Expected::Waiter])
    } else if word == b"confirm".as_slice() {
        Some(&[Expected::Asker, Expected::Number])
    } else if word == b"window".as_slice() {
        Some(&[Expected::Asker])
    } else if word == b"cell".as_slice() || word == b"block".as_slice() {
        Some(&[Expected::Address])
    } else if word == b"cells".as_slice() {
        Some(&[Expected::Span])
    } else if word == b"backup".as_slice() {
        Some(&[Expected::BackupName])
    } else {
        None
    }
}

// Returns what is expected of a word, given what a script expects of it. No place has a name here, so an address stands
// for a place.
fn expected_here(expected: Expected) -> Expected {
    match expected {
        Expected::Place => Expected::Address,
        other => other,
    }
}

// Returns whether a word is what is expected of it.
fn fits(alloc: Global, word: &[u8], expected: Expected) -> Result<bool, AllocError> {
    Ok(match expected {
        Expected::Waiter => read_waiter(alloc, word)?.is_some(),
        Expected::Asker => read_element(word).is_some(),
        Expected::Kind => word == b"i".as_slice() || word == b"m".as_slice(),
        Expected::Length | Expected::Address => read_u32(word).is_some(),
        Expected::Number | Expected::Value => read_number(word, u64::MAX).is_some(),
        Expected::BackupName => BackupName::read(word).is_some(),
        Expected::Span => read_span(word).is_some(),
        _ => true,
    })
}

// Finds where the words after the first one go wrong, or those after E.N and the request's word.
fn rest_fault(
    alloc: Global,
    words: &[&[u8]],
    expected: &[Expected],
) -> Result<LineFault, AllocError>
    ensures { IfOk result (λ fault. is_of_length fault ≡ false) }
{
    for (at, expected) in expected.iter().enumerate() {
        let expected = expected_here(*expected);
        let Some(word) = words.get(at) else {
            return Ok(LineFault::Ends(expected));
        };
        if !fits(alloc, word, expected)? {
            return Ok(LineFault::Word(Quoted::of(word), expected));
        }
    }
    match words.get(expected.len()) {
        Some(word) => Ok(LineFault::Word(Quoted::of(word), Expected::End)),
        None => Ok(LineFault::Ends(Expected::End)),
    }
}

// Finds where a request goes wrong, given the words after E.N.
fn request_fault(alloc: Global, words: &[&[u8]]) -> Result<LineFault, AllocError>
    ensures { IfOk result (λ fault. is_of_length fault ≡ false) }
{
    let Some((word, rest)) = words.split_first() else {
        return Ok(LineFault::Ends(Expected::Operation));
    };
    match behind_request(word) {
        Some(expected) => rest_fault(alloc, rest, expected),
        None => Ok(LineFault::Word(Quoted::of(word), Expected::Operation)),
    }
}

// Returns whether a word starts with a digit, as E.N does.
fn begins_with_digit(word: &[u8]) -> bool {
    word.first().is_some_and(|byte| byte.is_ascii_digit())
}

// Finds where a line goes wrong, given that its first word can only be E.N.
fn first_fault(alloc: Global, word: &[u8], rest: &[&[u8]]) -> Result<LineFault, AllocError>
    ensures { IfOk result (λ fault. is_of_length fault ≡ false) }
{
    if read_waiter(alloc, word)?.is_some() {
        return request_fault(alloc, rest);
    }
    let expected = if begins_with_digit(word) {
        Expected::Waiter
    } else {
        Expected::Asked
    };
    Ok(LineFault::Word(Quoted::of(word), expected))
}

// Finds where a line goes wrong, given its words.
fn words_fault(alloc: Global, words: &[&[u8]]) -> Result<LineFault, AllocError>
    ensures { IfOk result (λ fault. is_of_length fault ≡ false) }
{
    if let Some(fault) = bytes_fault(words) {
        return Ok(fault);
    }
    let Some((first, rest)) = words.split_first() else {
        return Ok(LineFault::Ends(Expected::Asked));
    };
    match behind(first) {
        Some(expected) => rest_fault(alloc, rest, expected),
        None => first_fault(alloc, first, rest),
    }
}

/// Finds where a line that isn't in the grammar goes wrong. It is too long exactly if it has more than 4,096 bytes.
/// Otherwise the fault is the first word that isn't what is expected there.
pub(crate) fn explain(alloc: Global, line: &[u8]) -> Result<LineFault, AllocError>
    ensures { IfOk result (λ fault. is_of_length fault ≡ not (is_short line.now)) }
{
    if line.len() > MAX_LINE {
        return Ok(LineFault::TooLong);
    }
    let words = split_words(alloc, line)?;
    words_fault(alloc, words.as_slice())
}
