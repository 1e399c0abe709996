//! What the words that clap found ask for.
ghost use Rattle.std.specs.Prelude.{◌≡◌, ◌⊎◌, IfSome, IfNone, Some, None, codes, option_map};
ghost use Rattle.clap.specs.Words.{subcommand_rows_of};
ghost use Rattle.im_words.specs.Words.{has_flag, texts_in, wait_in, work_in};

use crate::given::{is_given, seconds_given};
use crate::words::{CommandLine, Work};
use crate::works::{
    copy_work, dump_work, format_work, inspect_work, load_work, migrate_work, run_work,
    serial_work, serve_work, stat_work,
};
use clap::ArgMatches;

/// What the command line asks for. Returns `None` if a number is not the decimal number of a u32, if lines are to be
/// said in two ways, or if a damaged image is to be dumped as JSON.
fn work_of<'a>(matches: &ArgMatches<'a>) -> Option<Work<&'a str>>
    ensures { option_map texts_in result ≡ work_in (subcommand_rows_of matches.now) }
{
    match matches.subcommand() {
        None => Some(Work::Demonstration),
        Some((name, found)) => {
            if name == "format" {
                format_work(found)
            } else if name == "serial" {
                serial_work(found)
            } else if name == "run" {
                run_work(found)
            } else if name == "serve" {
                Some(serve_work(found))
            } else if name == "migrate" {
                Some(migrate_work(found))
            } else if name == "copy" {
                copy_work(found)
            } else if name == "dump" {
                dump_work(found)
            } else if name == "load" {
                load_work(found)
            } else if name == "stat" {
                Some(stat_work(found))
            } else {
                inspect_work(found)
            }
        }
    }
}

/// Whether a flag is given to the subcommand.
fn has_flag(matches: &ArgMatches<'_>, id: &str) -> bool
    ensures { result ≡ has_flag id.now (subcommand_rows_of matches.now) }
{
    match matches.subcommand() {
        None => false,
        Some((_, found)) => is_given(found, id),
    }
}

/// How many seconds the subcommand's openings wait. Returns `None` if that is not a decimal number of at most a day.
fn wait_of(matches: &ArgMatches<'_>) -> Option<u32>
    ensures { result ≡ wait_in (subcommand_rows_of matches.now) }
{
    match matches.subcommand() {
        None => Some(0),
        Some((_, found)) => seconds_given(found),
    }
}

/// The work, how the program is to end, and how long its openings wait. Returns `None` as [`work_of`] and [`wait_of`]
/// do.
pub(crate) fn line_of<'a>(matches: &ArgMatches<'a>) -> Option<CommandLine<'a>>
    ensures work { IfSome result (λ line. work_in (subcommand_rows_of matches.now) ≡ Some (texts_in line.work)) }
    ensures none { IfNone result ((work_in (subcommand_rows_of matches.now) ≡ None)
        ⊎ (wait_in (subcommand_rows_of matches.now) ≡ None)) }
    ensures statuses { IfSome result
        (λ line. line.statuses ≡ has_flag (codes "statuses") (subcommand_rows_of matches.now)) }
    ensures progress { IfSome result
        (λ line. line.progress ≡ has_flag (codes "progress") (subcommand_rows_of matches.now)) }
    ensures wait { IfSome result (λ line. wait_in (subcommand_rows_of matches.now) ≡ Some line.wait) }
{
    let work = work_of(matches)?;
    let wait = wait_of(matches)?;
    Some(CommandLine {
        work,
        statuses: has_flag(matches, "statuses"),
        progress: has_flag(matches, "progress"),
        wait,
    })
}
