//! What is given for a path or an option.
ghost use Rattle.std.specs.Prelude.{◌≡◌, codes, option_map};
ghost use Rattle.clap.specs.Words.{first_of, found_of, rows_of};
ghost use Rattle.im_words.specs.Words.{filter_in, given_cells, given_in, given_number, is_given, path_in, seconds_in};
ghost use Rattle.im_words.specs.Words.{seconds_of, sizes_given, span_given, style_given, style_with};

use clap::ArgMatches;
use im_migration::Asked;
use im_report::{Filter, Span};
use im_script::{read_span, read_u32};
use im_text::Style;

/// The most seconds that the opening of a file waits for its lock: a day.
const MAX_WAIT: u32 = 86_400;

/// Returns the text of a path. The command requires the path, so it is given.
pub(crate) fn path_of<'a>(found: &ArgMatches<'a>, id: &str) -> &'a str
    ensures { result.now ≡ path_in (rows_of (found_of found.now)) id.now }
{
    match found.get_str(id) {
        Some(text) => text,
        None => "",
    }
}

/// Returns the text of an option that takes a path, if it is given.
pub(crate) fn path_if<'a>(found: &ArgMatches<'a>, id: &str) -> Option<&'a str>
    ensures { option_map (λ path. path.now) result ≡ first_of id.now (rows_of (found_of found.now)) }
{
    found.get_str(id)
}

/// Whether a flag is given.
pub(crate) fn is_given(found: &ArgMatches, id: &str) -> bool
    ensures { result ≡ is_given (rows_of (found_of found.now)) id.now }
{
    path_of(found, id) == "true"
}

/// Returns the seconds that a text gives in decimal digits, if they are at most a day.
fn read_seconds(text: &[u8]) -> Option<u32>
    ensures { result ≡ seconds_of text.now }
{
    let seconds = read_u32(text)?;
    if seconds <= MAX_WAIT {
        Some(seconds)
    } else {
        None
    }
}

/// Returns the seconds that an opening waits, which are 0 if they aren't given. Returns `None` if their text is not the
/// decimal number of at most a day.
pub(crate) fn seconds_given(found: &ArgMatches) -> Option<u32>
    ensures { result ≡ seconds_in (rows_of (found_of found.now)) }
{
    match found.get_str("wait") {
        Some(text) => read_seconds(text.as_bytes()),
        None => Some(0),
    }
}

// The number of a text that was given. Returns `None` if it is not the decimal number of a u32.
fn number_of(text: &[u8]) -> Option<Option<u32>>
    ensures { result ≡ given_number text.now }
{
    match read_u32(text) {
        Some(number) => Some(Some(number)),
        None => None,
    }
}

// Returns the number of an option, if it is given. Returns `None` if its text is not the decimal number of a u32.
fn number_given(found: &ArgMatches, id: &str) -> Option<Option<u32>>
    ensures { result ≡ given_in (rows_of (found_of found.now)) id.now }
{
    match found.get_str(id) {
        Some(text) => number_of(text.as_bytes()),
        None => Some(None),
    }
}

/// The sizes that are given. Returns `None` if one is not the decimal number of a u32.
pub(crate) fn sizes_given(found: &ArgMatches) -> Option<Asked>
    ensures { result ≡ sizes_given (rows_of (found_of found.now)) }
{
    let cells = number_given(found, "cells")?;
    let elements = number_given(found, "elements")?;
    let slots = number_given(found, "slots")?;
    Some(Asked {
        cells,
        elements,
        slots,
    })
}

// The addresses that a text gives. Returns `None` if it isn't such a text.
fn span_given(text: &str) -> Option<Option<Span>>
    ensures { result ≡ span_given text.now }
{
    match read_span(text.as_bytes()) {
        Some((from, to)) => Some(Some(Span { from, to })),
        None => None,
    }
}

/// The addresses of the option for cells, if it is given. Returns `None` if its text gives none.
pub(crate) fn cells_given(found: &ArgMatches) -> Option<Option<Span>>
    ensures { result ≡ given_cells (rows_of (found_of found.now)) }
{
    match found.get_str("cells") {
        Some(text) => span_given(text),
        None => Some(None),
    }
}

/// The filter that is given. Returns `None` if a text is no number, or no addresses.
pub(crate) fn filter_of(found: &ArgMatches) -> Option<Filter>
    ensures { result ≡ filter_in (rows_of (found_of found.now)) }
{
    let cells = cells_given(found)?;
    let element = number_given(found, "element")?;
    let waiting = is_given(found, "waiting");
    Some(Filter {
        cells,
        element,
        waiting,
    })
}

/// How lines are said by two flags. Returns `None` if both are given.
fn style_with(quiet: bool, json: bool) -> Option<Style>
    ensures { result ≡ style_with quiet json }
{
    if quiet {
        if json { None } else { Some(Style::Quiet) }
    } else if json {
        Some(Style::Json)
    } else {
        Some(Style::Text)
    }
}

/// How the lines of a script are said. Returns `None` if they are to be said in two ways.
pub(crate) fn style_given(found: &ArgMatches) -> Option<Style>
    ensures { result ≡ style_given (rows_of (found_of found.now)) }
{
    style_with(is_given(found, "quiet"), is_given(found, "json"))
}
