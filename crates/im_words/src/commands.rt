//! Makes the command line of the table.
ghost use Rattle.std.specs.Prelude.{◌≡◌, false, map, IfOk, codes};
ghost use Rattle.clap.specs.{declared.builder.command.Command.TheViews.out-Command, Words.app_of, Words.rule_of};
ghost use Rattle.im_words.specs.Words.{app_in, argument_in, flag_rule, imem_app, option_rule, path_rule};
ghost use Rattle.im_words.specs.Words.{subcommand_row, top_app, with_subcommands, with_words, word_row};

use crate::help::{EXAMPLES, examples_of};
use crate::table::{COMMON, SUBCOMMANDS, Subcommand, Word};
use crate::words::version;
use clap::{Arg, ArgAction, Command};
use std::alloc::{AllocError, Global};

// An option with a value, which the help names.
fn value_option<'a>(alloc: Global, id: &'a str, value: &'a str, help: &'a str) -> Arg<'a>
    ensures rule { rule_of result ≡ option_rule id.entry.now }
    ensures local { result.global ≡ false }
{
    let option = Arg::new(alloc, id).long(id);
    option.value_name(value).help(help)
}

// A flag: an option without a value.
fn flag_option<'a>(alloc: Global, id: &'a str, help: &'a str) -> Arg<'a>
    ensures rule { rule_of result ≡ flag_rule id.entry.now }
    ensures local { result.global ≡ false }
{
    Arg::new(alloc, id)
        .long(id)
        .action(ArgAction::SetTrue)
        .help(help)
}

// A required path.
fn path_argument<'a>(alloc: Global, id: &'a str, help: &'a str) -> Arg<'a>
    ensures rule { rule_of result ≡ path_rule id.entry.now }
    ensures local { result.global ≡ false }
{
    Arg::new(alloc, id).required(true).help(help)
}

// A path that is required, or an option, as clap takes it.
fn argument<'a>(alloc: Global, is_path: bool, word: Word) -> Arg<'a>
    ensures rule { rule_of result ≡ argument_in is_path (word_row word.entry) }
    ensures local { result.global ≡ false }
{
    let (id, value, help) = word;
    if is_path {
        return path_argument(alloc, id, help);
    }
    match value {
        Some(value) => value_option(alloc, id, value, help),
        None => flag_option(alloc, id, help),
    }
}

// Adds required paths, or options, to a command.
fn with_words<'a>(
    alloc: Global,
    command: Command<'a>,
    is_path: bool,
    words: &[Word],
) -> Result<Command<'a>, AllocError>
    requires local { (out-Command command).has_globals ≡ false }
    ensures app { IfOk result (λ c. app_of c ≡ with_words is_path (app_of command.entry) (map word_row words.now)) }
    ensures local { IfOk result (λ c. (out-Command c).has_globals ≡ false) }
{
    let mut made = command;
    for word in words {
        made = made.arg(argument(alloc, is_path, *word))?;
    }
    Ok(made)
}

/// The subcommand of a row.
pub(crate) fn command_of<'a>(alloc: Global, row: &Subcommand) -> Result<Command<'a>, AllocError>
    ensures app { IfOk result (λ c. app_of c ≡ app_in (subcommand_row row.now)) }
    ensures local { IfOk result (λ c. (out-Command c).has_globals ≡ false) }
{
    let (name, about, paths, options) = *row;
    let empty = Command::new(alloc, name)
        .about(about)
        .after_help(examples_of(name));
    let common = with_words(alloc, empty, false, &COMMON)?;
    let pathed = with_words(alloc, common, true, paths)?;
    let command = with_words(alloc, pathed, false, options)?;
    Ok(command)
}

// Adds subcommands to a command. Each is made just before it is added, so that no other one is owned meanwhile.
fn with_subcommands<'a>(
    alloc: Global,
    command: Command<'a>,
    rows: &[Subcommand],
) -> Result<Command<'a>, AllocError>
    ensures app { IfOk result (λ c. app_of c ≡ with_subcommands (app_of command.entry) (map subcommand_row rows.now)) }
{
    let mut made = command;
    for row in rows {
        let subcommand = command_of(alloc, row)?;
        made = made.subcommand(subcommand)?;
    }
    Ok(made)
}

/// The program with no subcommand.
fn top_command<'a>(alloc: Global) -> Command<'a>
    ensures app { app_of result ≡ top_app }
{
    Command::new(alloc, "imem")
        .version(version())
        .about("A durable memory of I-structure and M-structure cells, kept in an image file.")
        .after_help(EXAMPLES)
}

/// The whole command line.
pub(crate) fn imem_command<'a>(alloc: Global) -> Result<Command<'a>, AllocError>
    ensures app { IfOk result (λ c. app_of c ≡ imem_app) }
{
    let command = with_subcommands(alloc, top_command(alloc), &SUBCOMMANDS)?;
    Ok(command)
}
