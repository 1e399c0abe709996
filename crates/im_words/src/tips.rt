//! Tips for words that belong elsewhere, where clap has none.

use crate::faults::{error_of, top_error};
use clap::Error;
use clap::error::ErrorKind;
use std::alloc::{AllocError, Global};

const NO_VERSION: &str = "unrecognized subcommand 'version'\n\n  tip: 'imem --version' exists";

const NO_V: &str = "unexpected argument '-v' found\n\n  tip: 'imem --version' exists";

const NO_PLAN: &str = "unexpected argument '--planned' found\n\n  tip: 'run --planned' exists";

// The error of `serial` for an argument that it doesn't take.
fn serial_error(alloc: Global, error: Error) -> Result<Error, AllocError> {
    let text = format!(in alloc; "{error}")?;
    if !text.as_str().contains("'--planned' found") {
        return Ok(error);
    }
    error_of(alloc, "serial", ErrorKind::UnknownArgument, NO_PLAN)
}

/// Returns clap's error for these words, with a tip if they are right elsewhere.
pub(crate) fn tipped(alloc: Global, words: &[&str], error: Error) -> Result<Error, AllocError> {
    let kind = error.kind();
    match (words.get(1).copied(), kind) {
        (Some("version"), ErrorKind::InvalidSubcommand) => { top_error(alloc, kind, NO_VERSION) }
        (Some("-v"), ErrorKind::UnknownArgument) => top_error(alloc, kind, NO_V),
        (Some("serial"), ErrorKind::UnknownArgument) => serial_error(alloc, error),
        _ => Ok(error),
    }
}
