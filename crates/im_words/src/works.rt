//! What each subcommand is asked for.
ghost use Rattle.std.specs.Prelude.{◌≡◌, option_map};
ghost use Rattle.clap.specs.Words.{found_of, rows_of};
ghost use Rattle.im_words.specs.Words.{copy_work, dump_as, dump_work, format_work, inspect_look, inspect_work};
ghost use Rattle.im_words.specs.Words.{load_work, migrate_work, run_work, serial_work, serve_work, stat_look};
ghost use Rattle.im_words.specs.Words.{stat_work, texts_in};

use crate::given::{filter_of, is_given, path_if, path_of, sizes_given, style_given};
use crate::words::{
    DEFAULT_CELLS, DEFAULT_ELEMENTS, DEFAULT_SLOTS, Dumping, Formatting, Inspection, Making,
    Moving, ScriptRun, Serving, Talking, Work,
};
use clap::ArgMatches;
use im_report::{Filter, View};

/// What `format` is asked for. Returns `None` if a number is not the decimal number of a u32.
pub(crate) fn format_work<'a>(found: &ArgMatches<'a>) -> Option<Work<&'a str>>
    ensures { option_map texts_in result ≡ format_work (rows_of (found_of found.now)) }
{
    let asked = sizes_given(found)?;
    let is_new = is_given(found, "new");
    Some(Work::Format(Formatting {
        image: path_of(found, "IMAGE"),
        cells: asked.cells.unwrap_or(DEFAULT_CELLS),
        elements: asked.elements.unwrap_or(DEFAULT_ELEMENTS),
        slots: asked.slots.unwrap_or(DEFAULT_SLOTS),
        is_new,
    }))
}

/// What `serial` is asked for. Returns `None` if lines are to be said in two ways.
pub(crate) fn serial_work<'a>(found: &ArgMatches<'a>) -> Option<Work<&'a str>>
    ensures { option_map texts_in result ≡ serial_work (rows_of (found_of found.now)) }
{
    let style = style_given(found)?;
    Some(Work::Serial(Serving {
        image: path_of(found, "IMAGE"),
        script: path_of(found, "SCRIPT"),
        once: is_given(found, "once"),
        strict: is_given(found, "strict"),
        style,
    }))
}

/// What `run` is asked for. Returns `None` if lines are to be said in two ways.
pub(crate) fn run_work<'a>(found: &ArgMatches<'a>) -> Option<Work<&'a str>>
    ensures { option_map texts_in result ≡ run_work (rows_of (found_of found.now)) }
{
    let style = style_given(found)?;
    Some(Work::Run(ScriptRun {
        image: path_of(found, "IMAGE"),
        script: path_of(found, "SCRIPT"),
        planned: is_given(found, "planned"),
        once: is_given(found, "once"),
        strict: is_given(found, "strict"),
        style,
        trace: path_if(found, "trace"),
    }))
}

/// What `serve` is asked for.
pub(crate) fn serve_work<'a>(found: &ArgMatches<'a>) -> Work<&'a str>
    ensures { texts_in result ≡ serve_work (rows_of (found_of found.now)) }
{
    let image = path_of(found, "IMAGE");
    let watch = is_given(found, "watch");
    let backups = path_if(found, "backups");
    let verbose = is_given(found, "verbose");
    Work::Serve(Talking {
        image,
        watch,
        backups,
        verbose,
    })
}

// How `inspect` prints what a filter leaves.
fn inspect_look(json: bool, filter: Filter) -> View
    ensures { result ≡ inspect_look json filter }
{
    if json {
        View::ReportJson(filter)
    } else {
        View::Report(filter)
    }
}

/// What `inspect` is asked for. Returns `None` if a text is no number, or no addresses.
pub(crate) fn inspect_work<'a>(found: &ArgMatches<'a>) -> Option<Work<&'a str>>
    ensures { option_map texts_in result ≡ inspect_work (rows_of (found_of found.now)) }
{
    let filter = filter_of(found)?;
    let image = path_of(found, "IMAGE");
    let look = inspect_look(is_given(found, "json"), filter);
    Some(Work::Inspect(Inspection { image, look }))
}

// What `stat` prints.
fn stat_look(json: bool) -> View
    ensures { result ≡ stat_look json }
{
    if json { View::StatJson } else { View::Stat }
}

/// What `stat` is asked for.
pub(crate) fn stat_work<'a>(found: &ArgMatches<'a>) -> Work<&'a str>
    ensures { texts_in result ≡ stat_work (rows_of (found_of found.now)) }
{
    let image = path_of(found, "IMAGE");
    let look = stat_look(is_given(found, "json"));
    Work::Inspect(Inspection { image, look })
}

/// What `migrate` is asked for.
pub(crate) fn migrate_work<'a>(found: &ArgMatches<'a>) -> Work<&'a str>
    ensures { texts_in result ≡ migrate_work (rows_of (found_of found.now)) }
{
    let old = path_of(found, "OLD");
    let new = path_of(found, "NEW");
    Work::Migrate(Moving { old, new })
}

/// What `copy` is asked for. Returns `None` if a number is not the decimal number of a u32.
pub(crate) fn copy_work<'a>(found: &ArgMatches<'a>) -> Option<Work<&'a str>>
    ensures { option_map texts_in result ≡ copy_work (rows_of (found_of found.now)) }
{
    let asked = sizes_given(found)?;
    let from = path_of(found, "OLD");
    let new = path_of(found, "NEW");
    Some(Work::Copy(Making { from, new, asked }))
}

// A dump in words, also of a damaged image, or as objects of JSON. Returns `None` for such objects of a damaged image.
fn dump_as<'a>(json: bool, damaged: bool, image: &'a str) -> Option<Work<&'a str>>
    ensures { option_map texts_in result ≡ dump_as json damaged image.now }
{
    if !json {
        return Some(Work::Dump(Dumping { image, damaged }));
    }
    if damaged {
        return None;
    }
    let look = View::DumpJson;
    Some(Work::Inspect(Inspection { image, look }))
}

/// What `dump` is asked for. Returns `None` if a damaged image is to be dumped as JSON.
pub(crate) fn dump_work<'a>(found: &ArgMatches<'a>) -> Option<Work<&'a str>>
    ensures { option_map texts_in result ≡ dump_work (rows_of (found_of found.now)) }
{
    let image = path_of(found, "IMAGE");
    dump_as(is_given(found, "json"), is_given(found, "damaged"), image)
}

/// What `load` is asked for. Returns `None` if a number is not the decimal number of a u32.
pub(crate) fn load_work<'a>(found: &ArgMatches<'a>) -> Option<Work<&'a str>>
    ensures { option_map texts_in result ≡ load_work (rows_of (found_of found.now)) }
{
    let asked = sizes_given(found)?;
    let from = path_of(found, "TEXT");
    let new = path_of(found, "NEW");
    Some(Work::Load(Making { from, new, asked }))
}
