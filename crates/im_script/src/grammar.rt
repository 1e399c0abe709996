//! Splits a line into words, and reads single words.
ghost use Rattle.std.specs.Prelude.{◌≡◌, ℕ, ◌<◌, ◌≤◌, true, false, ◌≢◌, List, [], ◌++◌, length, take, drop, is_some};
ghost use Rattle.std.specs.Prelude.{IfSome, IfOk, ◌==◌, MatchOption, codes, bytes_eq, position, option_map};
ghost use Rattle.std.specs.Prelude.{option_and_then};
ghost use Rattle.std.specs.{Char.is_ascii, Option.option_map_or};
ghost use Rattle.std.specs.List.{before_first, list_all, list_any, position_or_len};
ghost use Rattle.im_script.specs.Grammar.{digit_after, is_line, is_name, is_name_byte, is_short, number_up_to};
ghost use Rattle.im_script.specs.Grammar.{offset_of, place_past, span_between, span_in, texts, word_kind, word_place};
ghost use Rattle.im_script.specs.Grammar.{words_of};
ghost use Rattle.im_script.specs.Words.{words_past};

use crate::places::Place;
use crate::{MAX_LINE, MAX_NAME, MAX_OFFSET};
use arrayvec::ArrayVec;
use im_types::Kind;
use indexmap::IndexSet;
use std::alloc::{AllocError, Global};

/// Returns the words of a line: its non-empty parts between spaces.
pub fn split_words<'a>(alloc: Global, line: &'a [u8]) -> Result<Vec<&'a [u8]>, AllocError>
    ensures { IfOk result (λ words. texts words.items ≡ words_of line.entry.now) }
{
    line.split(|byte| *byte == b' ')
        .filter(|word| !word.is_empty())
        .collect(alloc)
}

/// The most words of a line that are kept. No line of the grammar has as many, except a remark.
pub const MOST_WORDS: usize = 5;

/// The first words of a line.
pub type Words<'a> = ArrayVec<&'a [u8], MOST_WORDS>;

// Returns whether one look tells that a byte stands within a word: it is ASCII, and above the space. As a signed number
// such a byte is above 32, and no other is.
fn stands_in_word(byte: u8) -> bool
    ensures ascii { result ≡ true → is_ascii byte ≡ true }
    ensures other { result ≡ true → byte ≢ 32 }
{
    byte.cast_signed() > 32
}

/// Cuts a line at its first space. Returns what comes before it, and the rest of the line after it, or `None` for the
/// latter if the line has no space. Returns `None` for both if a byte up to there isn't ASCII.
fn cut_word(line: &[u8]) -> Option<(&[u8], Option<&[u8]>)>
    ensures plain { MatchOption result (list_all is_ascii line.now ≡ false)
        (λ cut. list_all is_ascii line.now ≡ option_map_or (λ rest. list_all is_ascii rest.now) cut.1 true) }
    ensures words { IfSome result (λ cut. words_of line.now
        ≡ words_past cut.0.now (option_map_or (λ rest. words_of rest.now) cut.1 [])) }
    ensures smaller { IfSome result (λ cut. IfSome cut.1 (λ rest. length rest.now < length line.now)) }
{
    for (at, byte) in line.iter().enumerate() {
        if stands_in_word(*byte) {
            continue;
        }
        if *byte == b' ' {
            return Some((&line[..at], Some(&line[at + 1..])));
        }
        if !byte.is_ascii() {
            return None;
        }
    }
    Some((line, None))
}

/// Keeps a part of a line among its first words, if it isn't empty and there is room.
fn keep_word<'a>(words: &mut Words<'a>, part: &'a [u8])
    ensures { (more : List (List ℕ)) → take 5 (texts words.new.items ++ more)
        ≡ take 5 (texts words.old.items ++ words_past part.entry.now more) }
{
    if part.is_empty() {
        return;
    }
    if words.is_full() {
        return;
    }
    words.push(part);
}

/// Puts the first five words of a line into `words`, which has none yet, or all if the line has fewer. Returns `None`
/// if a byte of the line isn't ASCII. They are put where the caller keeps them, so that they aren't copied.
pub fn put_first_words<'a>(line: &'a [u8], words: &mut Words<'a>) -> Option<()>
    requires empty { words.old.items ≡ [] }
    ensures plain { is_some result ≡ list_all is_ascii line.entry.now }
    ensures words { IfSome result (λ _. take 5 (texts words.new.items) ≡ take 5 (words_of line.entry.now)) }
{
    let mut rest = Some(line);
    while let Some(text) = rest {
        let (part, behind) = cut_word(text)?;
        keep_word(words, part);
        rest = behind;
    }
    Some(())
}

/// Appends a decimal digit to a number. Returns `None` if the byte is no digit or the result doesn't fit in a u64.
fn append_digit(number: u64, digit: u8) -> Option<u64>
    ensures { result ≡ digit_after number digit }
{
    if !digit.is_ascii_digit() {
        return None;
    }
    number.checked_mul(10)?.checked_add(u64::from(digit - b'0'))
}

/// Reads a number in decimal digits. Returns `None` if the text isn't one, or if the number is greater than `most`.
pub fn read_number(text: &[u8], most: u64) -> Option<u64>
    ensures { result ≡ number_up_to most text.now }
{
    if text.is_empty() {
        return None;
    }
    let mut number = 0;
    for digit in text {
        number = append_digit(number, *digit)?;
    }
    if number <= most { Some(number) } else { None }
}

/// Reads a number in decimal digits, from 0 to 4,294,967,295; leading zeros are allowed. Returns `None` if the text is
/// empty, a byte is no digit, or the number is greater.
pub fn read_u32(text: &[u8]) -> Option<u32>
    ensures { result ≡ number_up_to u32.MAX text.now }
{
    match read_number(text, u32::MAX as u64) {
        Some(number) => Some(number as u32),
        None => None,
    }
}

/// Whether a word is this one.
pub fn is_word(word: &[u8], this: &[u8]) -> bool
    ensures { result ≡ bytes_eq word.now this.now }
{
    if word.len() != this.len() {
        return false;
    }
    for (at, byte) in word.iter().enumerate() {
        if *byte != this[at] {
            return false;
        }
    }
    true
}

/// Returns the kind that a word names.
pub fn read_kind(word: &[u8]) -> Option<Kind>
    ensures { result ≡ word_kind word.now }
{
    if is_word(word, b"i") {
        Some(Kind::I)
    } else if is_word(word, b"m") {
        Some(Kind::M)
    } else {
        None
    }
}

/// Whether a name may contain a byte.
fn may_name(byte: u8) -> bool
    ensures { result ≡ is_name_byte byte }
{
    byte.is_ascii_lowercase() || byte.is_ascii_digit()
}

/// Whether each byte of a text is ASCII.
pub fn is_plain(text: &[u8]) -> bool
    ensures { result ≡ list_all is_ascii text.now }
{
    text.iter().all(|byte| byte.is_ascii())
}

/// Whether a line isn't too long: it has at most 4,096 bytes.
pub fn is_short(line: &[u8]) -> bool
    ensures { result ≡ is_short line.now }
{
    line.len() <= MAX_LINE
}

/// Whether a line may be read: it has at most 4,096 bytes, all of them ASCII.
pub fn is_line(line: &[u8]) -> bool
    ensures { result ≡ is_line line.now }
{
    is_short(line) && is_plain(line)
}

/// Whether a name may contain each byte of a word.
fn may_all_name(word: &[u8]) -> bool
    ensures { result ≡ list_all is_name_byte word.now }
{
    word.iter().all(|byte| may_name(*byte))
}

/// Whether a word can be a name.
pub fn can_name(word: &[u8]) -> bool
    ensures { result ≡ is_name word.now }
{
    match word.first() {
        Some(first) => first.is_ascii_lowercase() && word.len() <= MAX_NAME && may_all_name(word),
        None => false,
    }
}

/// Returns the index of a name among the names.
pub fn find_name(names: &IndexSet<&[u8]>, name: &[u8]) -> Option<usize>
    ensures place { result ≡ position (bytes_eq name.now) (texts names.now.keys) }
    ensures found { is_some result ≡ list_any (λ given. bytes_eq name.now given.now) names.now.keys }
{
    names.get_index_of(name)
}

/// Returns the number of bytes before the first mark in a word, or of all of them if it has none.
fn len_before(mark: u8, word: &[u8]) -> usize
    ensures len { result ≡ position_or_len (λ byte. byte == mark) word.now }
    ensures within { result ≤ length word.now }
{
    match word.iter().position(|byte| *byte == mark) {
        Some(at) => at,
        None => word.len(),
    }
}

/// Splits a word into what comes before the first mark, and the rest from the mark on.
fn split_before(mark: u8, word: &[u8]) -> (&[u8], &[u8])
    ensures first { result.0.now ≡ before_first (λ byte. byte == mark) word.now }
    ensures rest { result.1.now ≡ drop (position_or_len (λ byte. byte == mark) word.now) word.now }
{
    word.split_at(len_before(mark, word))
}

// Reads two addresses that are in order.
fn read_ends(first: &[u8], last: &[u8]) -> Option<(u32, u32)>
    ensures { result ≡ span_between first.now last.now }
{
    let from = read_u32(first)?;
    let to = read_u32(last)?;
    if from <= to { Some((from, to)) } else { None }
}

/// Reads `FROM-TO`, two addresses that are in order: the first and the last. Returns `None` if the word isn't so.
pub fn read_span(word: &[u8]) -> Option<(u32, u32)>
    ensures { result ≡ span_in word.now }
{
    let (first, rest) = split_before(b'-', word);
    match rest.split_first() {
        Some((_dash, last)) => read_ends(first, last),
        None => None,
    }
}

/// Reads the offset after the name in a place: nothing, or a plus and a number.
fn read_offset(rest: &[u8]) -> Option<u32>
    ensures { result ≡ offset_of rest.now }
{
    if rest.is_empty() {
        return Some(0);
    }
    match read_number(&rest[1..], MAX_OFFSET) {
        Some(offset) => Some(offset as u32),
        None => None,
    }
}

/// Makes a place of a name's index and an offset, if both are there.
fn make_place(index: Option<usize>, offset: Option<u32>) -> Option<Place>
    ensures { result ≡ option_and_then (λ i. option_map (λ o. Place.Named i o) offset) index }
{
    Some(Place::Named {
        index: index?,
        offset: offset?,
    })
}

/// Reads a place that begins with one of the names.
fn read_named(names: &IndexSet<&[u8]>, word: &[u8]) -> Option<Place>
    ensures { result ≡ place_past (texts names.now.keys) word.now }
{
    let (name, rest) = split_before(b'+', word);
    make_place(find_name(names, name), read_offset(rest))
}

/// Whether a place begins with one of the names.
pub fn has_name(names: &IndexSet<&[u8]>, word: &[u8]) -> bool {
    let (name, _) = split_before(b'+', word);
    find_name(names, name).is_some()
}

/// Reads a place: an address, or one of the names with its offset.
pub fn read_place(names: &IndexSet<&[u8]>, word: &[u8]) -> Option<Place>
    ensures { result ≡ word_place (texts names.now.keys) word.now }
{
    match read_u32(word) {
        Some(address) => Some(Place::Address(address)),
        None => read_named(names, word),
    }
}
