//! Says what the records of an area's windows say, each by itself. A record that spells nothing is marked.
ghost use Rattle.std.specs.Prelude.{◌≡◌, ℕ, ◌+◌, ◌^◌, ◌<◌, List, ◌++◌, OnOk, slice_get, Some, string_bytes};
ghost use Rattle.im_types.specs.Types.{layout_of, session_record_bytes};
ghost use Rattle.im_dump.specs.Dump.{kept_entry, kept_lines, window_lines};
ghost use Rattle.im_dump.specs.Salvage.{record_there, TellsWindow, TellsWindows};

use crate::records::{add_damaged, record_in};
use crate::writing::{add_base, add_kept, is_new};
use im_records::{WindowRecord, read_session};
use im_types::layout::{SESSION_RECORD, Version};
use im_types::{Kept, WINDOW};
use std::alloc::AllocError;

// The entry of a window at a place.
fn kept_at(window: &WindowRecord, i: usize) -> Option<Kept>
    ensures { result ≡ slice_get window.now.kept i }
{
    window.kept().get(i).copied()
}

// Adds the line of a window's entry.
fn add_told_entry(
    out: &mut String,
    element: u16,
    window: &WindowRecord,
    i: usize,
) -> Result<(), AllocError>
    requires range { window.now.base + WINDOW < 2 ^ 64 }
    requires few { i < WINDOW }
    ensures { OnOk result (string_bytes out.new
        ≡ string_bytes out.old ++ kept_entry element (window.now.base + i) (slice_get window.now.kept i)) }
{
    add_kept(out, element, window.base() + i as u64, kept_at(window, i))
}

// Adds the lines of a window's entries.
fn add_told_entries(out: &mut String, element: u16, window: &WindowRecord) -> Result<(), AllocError>
    requires range { window.now.base + WINDOW < 2 ^ 64 }
    ensures { OnOk result (string_bytes out.new ≡ string_bytes out.old ++ kept_lines element window.now) }
{
    for i in 0..window.kept().len() {
        add_told_entry(out, element, window, i)?;
    }
    Ok(())
}

// Adds the lines of a window, if its element has asked anything.
fn add_told_window(out: &mut String, element: u16, window: &WindowRecord) -> Result<(), AllocError>
    requires range { window.now.base + WINDOW < 2 ^ 64 }
    ensures { OnOk result (string_bytes out.new
        ≡ string_bytes out.old ++ window_lines element (Some window.now)) }
{
    if is_new(window.base(), window.kept().len() as u64) {
        return Ok(());
    }
    add_base(out, element, window.base())?;
    add_told_entries(out, element, window)
}

// The bytes of an element's record.
fn session_in(version: Version, part: &[u8], element: u16) -> &[u8]
    ensures { result.now ≡ record_there (session_record_bytes (layout_of version)) part.now element }
{
    match version {
        Version::One => record_in(part, 1_024 * element as usize, 1_024),
        Version::Two => record_in(part, SESSION_RECORD * element as usize, SESSION_RECORD),
    }
}

// Adds what the record of an element says.
fn add_element(
    out: &mut String,
    version: Version,
    part: &[u8],
    element: u16,
) -> Result<(), AllocError>
    ensures { OnOk result ((text : List ℕ) × TellsWindow (layout_of version) part.now element text
        × (string_bytes out.new ≡ string_bytes out.old ++ text)) }
{
    match read_session(version, session_in(version, part, element)) {
        Some(window) => add_told_window(out, element, &window),
        None => add_damaged(out, element as u32, "element"),
    }
}

/// Adds what the records of an area's elements say, by number.
pub(crate) fn add_told_windows(
    out: &mut String,
    version: Version,
    part: &[u8],
    elements: u16,
) -> Result<(), AllocError>
    ensures { OnOk result ((text : List ℕ) × TellsWindows (layout_of version) part.now elements text
        × (string_bytes out.new ≡ string_bytes out.old ++ text)) }
{
    for element in 0..elements {
        add_element(out, version, part, element)?;
    }
    Ok(())
}
