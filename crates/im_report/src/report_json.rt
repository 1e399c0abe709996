//! The report of an image and its dump, with an object of JSON on each line.
ghost use Rattle.std.specs.Prelude.{◌≡◌, ◌++◌, OnOk, string_bytes};
ghost use Rattle.im_image.specs.Headers.{seen};
ghost use Rattle.im_report.specs.ReportJson.{dump_json, report_head};

use crate::notation::Notation;
use crate::report::add_contents;
use crate::stat::{add_text, add_three};
use crate::stat_json::{add_count, add_head};
use im_image::{Header, Report};
use std::alloc::AllocError;

/// Adds the object of the header and the journal.
pub(crate) fn add_report_head(
    out: &mut String,
    header: &Header,
    run: u64,
    room: u32,
) -> Result<(), AllocError>
    ensures { OnOk result (string_bytes out.new ≡ string_bytes out.old ++ report_head (seen header.now) run room) }
{
    add_head(out, header, run, room)?;
    add_text(out, "}\n")
}

/// Adds the dump of an image.
pub(crate) fn add_dump(out: &mut String, report: &Report) -> Result<(), AllocError>
    ensures { OnOk result (string_bytes out.new ≡ string_bytes out.old ++ dump_json
        (seen report.now.header) report.now.run report.now.memory.contents) }
{
    let limits = report.header.limits;
    add_three(
        out,
        ("{\"dump\":1,\"limits\":{\"cells\":", limits.cells as u64),
        (",\"elements\":", limits.elements as u64),
        (",\"slots\":", limits.slots as u64),
        "}",
    )?;
    add_count(out, &report.header, report.run)?;
    add_text(out, "}\n")?;
    add_contents(out, Notation::Json, &report.memory)
}
