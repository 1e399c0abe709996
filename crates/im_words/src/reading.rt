//! Reads the words of the command line.
ghost use Rattle.std.specs.Prelude.{◌≡◌, true, [], IfOk, IfErr, IsSome, IsOk, Some};
ghost use Rattle.clap.specs.Words.{fault_of, kind_of, takes};
ghost use Rattle.im_script.specs.Grammar.{texts};
ghost use Rattle.im_words.specs.Words.{asks_progress, asks_statuses, asks_wait, asks_work, imem_app, texts_in};

use crate::commands::imem_command;
use crate::faults::given_fault;
use crate::orders::line_of;
use crate::tips::tipped;
use crate::words::{CommandLine, WordFault};
use clap::Error;
use clap::error::ErrorKind;
use std::alloc::Global;

/// The fault that clap found.
fn fault(alloc: Global, words: &[&str], error: Error) -> WordFault
    ensures { kind_of error ≡ ErrorKind.OutOfMemory → result ≡ WordFault.NoMemory }
{
    if error.kind() == ErrorKind::OutOfMemory {
        return WordFault::NoMemory;
    }
    match tipped(alloc, words, error) {
        Ok(error) => WordFault::Bad(error),
        Err(_) => WordFault::NoMemory,
    }
}

/// Reads the words of a command line, with the program's own name first. [`WordFault::Bad`] has the error
/// that clap found, or says which number is not written in decimal digits and below 2^32, a time to wait up to 86,400.
/// `--help` and `--version` are such faults too, with status 0.
pub fn read_words<'a>(alloc: Global, words: &'a [&'a str]) -> Result<CommandLine<'a>, WordFault>
    ensures work { IfOk result (λ line. asks_work (texts words.entry.now) ≡ Some (texts_in line.work)) }
    ensures statuses { IfOk result (λ line. line.statuses ≡ asks_statuses (texts words.entry.now)) }
    ensures progress { IfOk result (λ line. line.progress ≡ asks_progress (texts words.entry.now)) }
    ensures wait { IfOk result (λ line. asks_wait (texts words.entry.now) ≡ Some line.wait) }
    ensures sound { IsOk result → fault_of imem_app (texts words.entry.now) ≡ [] }
    ensures taken { IfErr result (λ fault. takes imem_app (texts words.entry.now) ≡ true →
        IsSome (asks_work (texts words.entry.now)) → IsSome (asks_wait (texts words.entry.now))
        → fault ≡ WordFault.NoMemory) }
{
    let command = match imem_command(alloc) {
        Ok(command) => command,
        Err(_) => return Err(WordFault::NoMemory),
    };
    let matches = match command.try_get_matches_from(words) {
        Ok(matches) => matches,
        Err(error) => return Err(fault(alloc, words, error)),
    };
    match line_of(&matches) {
        Some(line) => Ok(line),
        None => Err(given_fault(alloc, &matches)),
    }
}
