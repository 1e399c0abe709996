//! Prints what an image means, line by line.
ghost use Rattle.std.specs.Prelude.{◌≡◌, ◌≤◌, ◌++◌, IfOk, OnOk, string_bytes};
ghost use Rattle.{im_disk.specs.Runs.ReadsAlone, im_disk.specs.Since.ReadsOnly, im_image.specs.Headers.seen};
ghost use Rattle.im_report.specs.{Inspecting.Tells, Look.looked_text, Look.ShowsAt, Look.ShowsView, Stat.stat_text};

use crate::filtering::add_filtered;
use crate::look::{Filter, View};
use crate::notation::Notation;
use crate::report_json::add_dump;
use crate::{stat, stat_json};
use im_damage::{Older, find_older};
use im_disk::Disk;
use im_image::{Report, inspect};
use im_text::{News, Reason, Style, Warning, diagnose, end, put_through};
use im_types::Observer;
use std::alloc::{AllocError, Global};
use std::io::Write;

// Adds the statistic of an image.
fn add_stat(out: &mut String, report: &Report, notation: Notation) -> Result<(), AllocError>
    ensures { OnOk result (string_bytes out.new ≡ string_bytes out.old ++ stat_text notation
        (seen report.now.header) report.now.run report.now.room report.now.memory.contents) }
{
    match notation {
        Notation::Lines => {
            stat::add_head(out, &report.header, report.run, report.room)?;
            stat::add_memory(out, &report.memory)
        }
        Notation::Json => {
            stat_json::add_head(out, &report.header, report.run, report.room)?;
            stat_json::add_memory(out, &report.memory)
        }
    }
}

// Adds what is wanted of an image.
fn add_looked(out: &mut String, report: &Report, look: &View) -> Result<(), AllocError>
    ensures { OnOk result (string_bytes out.new ≡ string_bytes out.old ++ looked_text look.now
        (seen report.now.header) report.now.run report.now.room report.now.memory.contents) }
{
    match look {
        View::Report(filter) => add_filtered(out, Notation::Lines, report, filter),
        View::ReportJson(filter) => add_filtered(out, Notation::Json, report, filter),
        View::Stat => add_stat(out, report, Notation::Lines),
        View::StatJson => add_stat(out, report, Notation::Json),
        View::DumpJson => add_dump(out, report),
    }
}

// The text of what is wanted of an image.
fn text_of(alloc: Global, report: &Report, look: &View) -> Result<String, AllocError>
    ensures { IfOk result (λ text. string_bytes text ≡ looked_text look.now
        (seen report.now.header) report.now.run report.now.room report.now.memory.contents) }
{
    let mut text = String::new(alloc);
    match add_looked(&mut text, report, look) {
        Ok(()) => Ok(text),
        Err(error) => Err(error),
    }
}

/// Writes what is wanted of the image on a disk.
fn tell<D: Disk, W: Write>(
    alloc: Global,
    disk: &mut D,
    look: &View,
    out: &mut W,
) -> Result<(), Reason>
    ensures told { OnOk result (D.honest disk.new →
        ShowsView look.now (D.now disk.old).bytes (W.contents out.old) (W.contents out.new)) }
    ensures reads { ReadsAlone D.Disk disk.old disk.new }
{
    let report = match inspect(alloc, disk) {
        Ok(report) => report,
        Err(refusal) => return Err(diagnose(alloc, disk, refusal)),
    };
    match text_of(alloc, &report, look) {
        Ok(text) => put_through(out, text.as_str()),
        Err(_) => Err(Reason::Memory),
    }
}

// Warns of an old open slot of an image that was reported.
fn warn<N: Observer<News>>(older: Option<Older>, observer: &mut N) {
    if let Some(older) = older {
        observer.tell(News::Warned(Warning::Older(older)));
    }
}

// Writes what is wanted of the image on a disk, and then looks for an old open slot.
fn tell_all<D: Disk, W: Write, N: Observer<News>>(
    alloc: Global,
    disk: &mut D,
    look: &View,
    out: &mut W,
    observer: &mut N,
) -> Result<(), Reason>
    ensures told { OnOk result (D.honest disk.new →
        ShowsView look.now (D.now disk.old).bytes (W.contents out.old) (W.contents out.new)) }
    ensures reads { ReadsAlone D.Disk disk.old disk.new }
{
    match tell(alloc, disk, look, out) {
        Ok(()) => {
            warn(find_older(alloc, disk), observer);
            Ok(())
        }
        Err(reason) => Err(reason),
    }
}

/// Reports what the image on a disk means, and gives the disk back. It only reads the bytes as they are now. The report
/// goes to `out`; if something is refused, the last line is `refused N NAME`:
///
/// - `version V`, `limits CELLS ELEMENTS SLOTS` and `header H generation G area H count C` are from the header in
///   force. `journal J room R` gives the number of commands behind it, and the room for more.
/// - The other lines are from the memory after those commands. `block BASE KIND LENGTH` is a block, by base.
/// - `cell A full V`, `cell A clashed V` or `cell A waiting K.N ..` is a cell that isn't empty, by address.
/// - `element K base B kept N` is an element that has asked anything, by number. A request that it keeps follows as
///   `entry K.N OPERATION -> REPLY`, by number.
///
/// The status is 0, or 1 if something was refused. The reason is the image's first fault, as [`inspect`] returns it, or
/// a failed write. It is `Device` if a call of the disk failed. It is `NoMemory` if `alloc` refused the room for the
/// report, and then none of it is written. The observer gets the reason. For an image that was reported, the observer
/// gets a warning if a slot of the journal stands open that is too old to be there.
pub fn inspect_on<D: Disk, W: Write, N: Observer<News>>(
    alloc: Global,
    disk: D,
    out: &mut W,
    observer: &mut N,
) -> (u8, D)
    ensures status { result.0 ≤ 1 }
    ensures told { D.honest result.1 → result.0 ≡ 0 →
        Tells (D.now disk).bytes (W.contents out.old) (W.contents out.new) }
    ensures reads { D.honest result.1 → ReadsOnly (D.now disk) (D.now result.1) (D.past disk) (D.past result.1) }
    ensures honest { D.honest result.1 → D.honest disk }
{
    let whole = Filter {
        cells: None,
        element: None,
        waiting: false,
    };
    look_on(alloc, disk, &View::Report(whole), out, observer)
}

/// Prints what is wanted of the image on a disk, and gives the disk back. It reads, refuses and warns as [`inspect_on`]
/// does. The text goes to `out`, and depends on `look`:
///
/// - `Report`: the report, as [`inspect_on`] prints it. A filter with a request leaves only these of its lines: with
///   `cells` or `waiting` the lines `cell A`, of addresses in the span if there is one, and of cells that somebody
///   waits for if `waiting`; with `element` the line `element K` of that element, and its lines `entry K.N`. An element
///   that isn't there, or has asked nothing, has none.
/// - `Stat`: some numbers. First the lines `version`, `limits` and `header` of a report. `journal J room R stale S`
///   gives the slots with commands behind the header, with room, and with commands that are in the area already.
///   `count C` is the number of commands so far. `next area A pages P` says which area the next checkpoint writes, and
///   how many pages, if it is the first one after an opening; an image of the first version has no such line.
///   `i blocks B empty E waiting W full F clashed C`, and the same for `m`, are the blocks of one kind and their cells
///   in each state. `free F holes H longest L` gives the cells in no block, the rows that they stand in, and the length
///   of the longest. `waiting R longest L at A` gives the requests that wait, and the longest queue of them, with the
///   lowest address of such a cell. `windows E kept N full F` gives the elements that have asked anything, the entries
///   that are kept, and the windows that are full.
/// - `StatJson`: the same numbers as one object of JSON, on one line. A generation and a count are strings.
/// - `ReportJson`: the same lines as of `Report`, each of them one object. The first four are one object, that of
/// `StatJson` as far as `next`. The others have the keys `block`, `kind` and `length`; `cell`, `state` and `value`, or
///   `waiters` in its place, a list of objects with `element` and `number`; `element`, `base` and `kept`; and `entry`,
///   which is a number, `of`, `operation` and `reply`. A value, a base and a number of a request are strings.
/// - `DumpJson`: first an object with `dump`, which is 1, `limits` and `count`, and then those of a `ReportJson` for
///   blocks, cells, elements and entries.
pub fn look_on<D: Disk, W: Write, N: Observer<News>>(
    alloc: Global,
    mut disk: D,
    look: &View,
    out: &mut W,
    observer: &mut N,
) -> (u8, D)
    ensures status { result.0 ≤ 1 }
    ensures told { ShowsAt D.Disk look.now disk result.1 result.0 (W.contents out.old) (W.contents out.new) }
    ensures reads { ReadsAlone D.Disk disk result.1 }
{
    let told = tell_all(alloc, &mut disk, look, out, observer);
    (end(alloc, Style::Text, told, out, observer), disk)
}
