//! The errors that clap doesn't find.

use crate::commands::{command_of, imem_command};
use crate::given::{cells_given, path_of, seconds_given};
use crate::table::SUBCOMMANDS;
use crate::words::WordFault;
use clap::error::ErrorKind;
use clap::{ArgMatches, Error};
use im_script::read_u32;
use std::alloc::{AllocError, Global};

/// The error of the program with no subcommand.
pub(crate) fn top_error(
    alloc: Global,
    kind: ErrorKind,
    message: &str,
) -> Result<Error, AllocError> {
    let mut command = imem_command(alloc)?;
    command.error(kind, message)
}

/// The error of the subcommand of this name, with its usage.
pub(crate) fn error_of(
    alloc: Global,
    name: &str,
    kind: ErrorKind,
    message: &str,
) -> Result<Error, AllocError> {
    for row in &SUBCOMMANDS {
        if row.0 == name {
            let call = format!(in alloc; "imem {name}")?;
            let mut command = command_of(alloc, row)?.bin_name(call.as_str())?;
            return command.error(kind, message);
        }
    }
    top_error(alloc, kind, message)
}

// The error for a value that is no such one.
fn bad_value(
    alloc: Global,
    name: &str,
    given: (&str, &str, &str),
    expected: &str,
) -> Result<Error, AllocError> {
    let (text, id, value) = given;
    let message = format!(in alloc; "invalid value {text:?} for '--{id} <{value}>': {expected}")?;
    error_of(alloc, name, ErrorKind::ValueValidation, message.as_str())
}

// The first option for a size whose text is not the decimal number of a u32, with its text and the sizes that there
// are.
fn bad_size<'a>(found: &ArgMatches<'a>) -> (&'static str, &'a str, &'static str) {
    for (id, range) in [
        ("cells", "a decimal number, 1 to 1048576, is expected"),
        ("elements", "a decimal number, 1 to 64, is expected"),
        ("slots", "a decimal number, 16 to 4096, is expected"),
    ] {
        let Some(text) = found.get_str(id) else {
            continue;
        };
        if read_u32(text.as_bytes()).is_none() {
            return (id, text, range);
        }
    }
    ("cells", "", "a decimal number, 1 to 1048576, is expected")
}

// The error for a filter of `inspect` whose text is bad.
fn bad_filter(alloc: Global, found: &ArgMatches<'_>) -> Result<Error, AllocError> {
    match (cells_given(found), found.get_str("cells")) {
        (None, Some(text)) => {
            let expected = "two addresses, 0 to 1048575, are expected, as 0-99";
            bad_value(alloc, "inspect", (text, "cells", "FROM-TO"), expected)
        }
        _ => {
            let text = found.get_str("element").unwrap_or("");
            let expected = "a decimal number, 0 to 63, is expected";
            bad_value(alloc, "inspect", (text, "element", "N"), expected)
        }
    }
}

// The error for a text that is no number, or for two flags that can't go together, with the usage of the subcommand.
fn bad_given(alloc: Global, name: &str, found: &ArgMatches<'_>) -> Result<Error, AllocError> {
    if seconds_given(found).is_none() {
        let given = (path_of(found, "wait"), "wait", "SECONDS");
        return bad_value(
            alloc,
            name,
            given,
            "a decimal number, 0 to 86400 seconds, is expected",
        );
    }
    match name {
        "run" | "serial" => {
            let why = "the argument '--json' cannot be used with '--quiet'";
            error_of(alloc, name, ErrorKind::ArgumentConflict, why)
        }
        "dump" => {
            let why = "the argument '--json' cannot be used with '--damaged'";
            error_of(alloc, name, ErrorKind::ArgumentConflict, why)
        }
        "inspect" => bad_filter(alloc, found),
        _ => {
            let (id, text, range) = bad_size(found);
            bad_value(alloc, name, (text, id, "N"), range)
        }
    }
}

/// The fault for a text that is no number, or for two flags that can't go together; `NoMemory` if there is no memory
/// for its message.
pub(crate) fn given_fault(alloc: Global, matches: &ArgMatches<'_>) -> WordFault {
    let Some((name, found)) = matches.subcommand() else {
        return WordFault::NoMemory; // Nothing is given.
    };
    match bad_given(alloc, name, found) {
        Ok(error) => WordFault::Bad(error),
        Err(_) => WordFault::NoMemory,
    }
}
