//! Reads a line from its words.
ghost use Rattle.std.specs.Prelude.{◌≡◌, false, IfSome, bytes_eq, option_map};
ghost use Rattle.std.specs.List.{list_any};
ghost use Rattle.im_script.specs.Grammar.{texts};
ghost use Rattle.im_script.specs.Lines.{action_of, action_past, block_of, glanced, named_block, part_number};
ghost use Rattle.im_script.specs.Lines.{plain_action, starts_setup, valued_action};

use crate::grammar::{can_name, find_name, is_word, read_kind, read_number, read_place, read_u32};
use crate::places::{Action, Place};
use crate::script::Allocation;
use indexmap::IndexSet;

/// Reads a block from the words for its kind and its length.
fn read_block(kind: &[u8], length: &[u8]) -> Option<Allocation>
    ensures { result ≡ block_of kind.now length.now }
{
    Some(Allocation {
        kind: read_kind(kind)?,
        length: read_u32(length)?,
    })
}

/// What a word asks for at a place.
fn read_plain(word: &[u8], place: Place) -> Option<Action>
    ensures { result ≡ plain_action word.now place }
{
    if is_word(word, b"fetch") {
        Some(Action::Fetch(place))
    } else if is_word(word, b"take") {
        Some(Action::Take(place))
    } else if is_word(word, b"release") {
        Some(Action::Release(place))
    } else if is_word(word, b"reset") {
        Some(Action::Reset(place))
    } else {
        None
    }
}

/// What a word asks for at a place, with a value.
fn read_valued(word: &[u8], place: Place, value: u64) -> Option<Action>
    ensures { result ≡ valued_action word.now place value }
{
    if is_word(word, b"store") {
        Some(Action::Store(place, value))
    } else if is_word(word, b"put") {
        Some(Action::Put(place, value))
    } else {
        None
    }
}

/// A request of three words: a block, or a place and a value.
fn read_long(names: &IndexSet<&[u8]>, word: &[u8], first: &[u8], second: &[u8]) -> Option<Action>
    ensures { result ≡ action_past (texts names.now.keys) word.now first.now second.now }
{
    if is_word(word, b"alloc") {
        let block = read_block(first, second)?;
        return Some(Action::Alloc(block.kind, block.length));
    }
    let place = read_place(names, first)?;
    read_valued(word, place, read_number(second, u64::MAX)?)
}

/// Reads a request, which is a line in a part.
pub fn read_action(names: &IndexSet<&[u8]>, words: &[&[u8]]) -> Option<Action>
    ensures { result ≡ action_of (texts names.now.keys) (texts words.now) }
{
    match words {
        [word, place] => read_plain(word, read_place(names, place)?),
        [word, first, second] => read_long(names, word, first, second),
        _ => None,
    }
}

/// Reads the place of a glance, which is a line in a part that may have glances.
pub fn read_glance(names: &IndexSet<&[u8]>, words: &[&[u8]]) -> Option<Place>
    ensures { result ≡ glanced (texts names.now.keys) (texts words.now) }
{
    match words {
        [word, place] => {
            if is_word(word, b"glance") {
                read_place(names, place)
            } else {
                None
            }
        }
        _ => None,
    }
}

/// Reads a line in the setup: a new name and its block.
pub fn read_named_block<'a>(
    names: &IndexSet<&'a [u8]>,
    words: &[&'a [u8]],
) -> Option<(&'a [u8], Allocation)>
    ensures block { option_map (λ found. (found.0.now, found.1)) result
        ≡ named_block (texts names.now.keys) (texts words.now) }
    ensures new { IfSome result (λ found.
        list_any (λ given. bytes_eq found.0.now given.now) names.now.keys ≡ false) }
{
    match words {
        [word, name, kind, length] => {
            if !is_word(word, b"alloc") || !can_name(name) || find_name(names, name).is_some() {
                return None;
            }
            Some((*name, read_block(kind, length)?))
        }
        _ => None,
    }
}

/// Returns the number in a line that begins a part.
pub fn read_part<'a>(words: &[&'a [u8]]) -> Option<&'a [u8]>
    ensures { option_map (λ number. number.now) result ≡ part_number (texts words.now) }
{
    match words {
        [word, number] => {
            if is_word(word, b"element") {
                Some(*number)
            } else {
                None
            }
        }
        _ => None,
    }
}

/// Whether a line begins the setup.
pub fn is_setup(words: &[&[u8]]) -> bool
    ensures { result ≡ starts_setup (texts words.now) }
{
    match words {
        [word] => is_word(word, b"setup"),
        _ => false,
    }
}
