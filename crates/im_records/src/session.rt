//! Spells and reads a session record, in each version of the layout.
ghost use Rattle.std.specs.Prelude.{◌≡◌, ◌-◌, ◌*◌, ◌<◌, ◌≤◌, ◌⊎◌, ◌↔◌, List, ◌∷◌, ◌++◌, length, IfSome, IfOk, IfErr};
ghost use Rattle.std.specs.Prelude.{IsTrue, slice_get, Some, IsErrOf};
ghost use Rattle.byteorder.specs.Endian.{little_bytes};
ghost use Rattle.std.specs.List.{list_any};
ghost use Rattle.im_types.specs.Types.{Window, layout_of, layout_in_use, session_record_bytes, zeros, session_bytes};
ghost use Rattle.im_types.specs.Types.{is_of_reset, has_room_for, FitsWindow};
ghost use Rattle.im_records.specs.Entries.{AreNumbers, SpellsSession};
ghost use Rattle.im_records.specs.Rows.{AreSessions, BeginWithSessions, Spells};

use crate::bounds::are_zero;
use crate::put::put;
use crate::read::read_place;
use crate::spell::spell_place;
use crate::window::{WindowRecord, place_of};
use byteorder::{ByteOrder, LittleEndian};
use im_types::layout::{PLACE, SESSION_RECORD, Version};
use im_types::{Entry, Kept, LAST, Op, Refusal, Reply, WINDOW_1};
use std::alloc::Global;

// The bytes before the places of a session record.
fn spell_head(window: &WindowRecord) -> [u8; PLACE]
    ensures { result ≡ little_bytes 8 window.now.base ++ length window.now.kept ∷ zeros 23 }
{
    let mut bytes = [0; PLACE];
    LittleEndian::write_u64(&mut bytes[0..8], window.base());
    bytes[8] = window.kept().len() as u8;
    bytes
}

// The bytes of a session record of a version, filled up with zeros.
fn spell_in(version: Version, window: &WindowRecord) -> [u8; SESSION_RECORD]
    ensures { result ≡ session_bytes (layout_of version) window.now
        ++ zeros (SESSION_RECORD - session_record_bytes (layout_of version)) }
{
    let mut bytes = [0; SESSION_RECORD];
    put(&mut bytes, 0, &spell_head(window));
    for place in 0..version.window() {
        put(
            &mut bytes,
            PLACE + PLACE * place,
            &spell_place(window.entry_at(version, place)),
        );
    }
    bytes
}

/// Spells a session record of the layout in use: the base, the number of entries, and the entries. Each entry stands at
/// the place that is its number modulo [`WINDOW`](im_types::WINDOW).
pub fn spell_session(window: &WindowRecord) -> [u8; SESSION_RECORD]
    ensures { result ≡ session_bytes layout_in_use window.now }
{
    spell_in(Version::Two, window)
}

// The entry whose number is `past` more than the base.
fn entry_past(version: Version, bytes: &[u8], base: u64, past: usize) -> Option<Kept>
    requires length { length bytes.now ≡ session_record_bytes (layout_of version) }
    requires few { past < (layout_of version).window }
    ensures { (w : Window) → SpellsSession (layout_of version) bytes.now w → base ≡ w.base
        → result ≡ slice_get w.kept past }
{
    let place = place_of(version, base, past);
    match read_place(&bytes[PLACE + PLACE * place..2 * PLACE + PLACE * place]) {
        Some(entry) => entry,
        None => None,
    }
}

// The window that the fields stand for. It ignores all other bytes.
fn window_in(version: Version, bytes: &[u8]) -> Option<WindowRecord>
    requires length { length bytes.now ≡ session_record_bytes (layout_of version) }
    ensures { (w : Window) → SpellsSession (layout_of version) bytes.now w → result ≡ Some w }
{
    let base = LittleEndian::read_u64(&bytes[0..8]);
    let count = bytes[8] as usize;
    if count > version.window() {
        return None;
    }
    let mut window = WindowRecord::new(base);
    for past in 0..count {
        window.push(entry_past(version, bytes, base, past)?);
    }
    Some(window)
}

// Returns whether the kept entry is of a reset.
fn is_of_reset(kept: &Kept) -> bool
    ensures { result ≡ is_of_reset kept.now }
{
    matches!(kept.op, Op::Reset(_)) || matches!(kept.entry, Entry::Answered(Reply::Cleared))
}

// Returns whether any kept entry is of a reset.
fn has_reset(kept: &[Kept]) -> bool
    ensures { result ≡ list_any is_of_reset kept.now }
{
    kept.iter().any(|kept| is_of_reset(kept))
}

/// Returns whether a version has room for a window and knows each of its entries. The first version has [`WINDOW_1`]
/// places and knows no reset.
pub fn has_room_for(version: Version, window: &WindowRecord) -> bool
    ensures { result ≡ has_room_for (layout_of version) window.now }
{
    match version {
        Version::One => window.kept().len() <= WINDOW_1 as usize && !has_reset(window.kept()),
        Version::Two => true,
    }
}

// Returns whether a window's numbers are in their ranges.
fn are_numbers(window: &WindowRecord) -> bool
    ensures { IsTrue result ↔ AreNumbers window.now }
{
    let count = window.kept().len() as u64;
    1 <= window.base() && window.base() <= LAST + 1 && window.base() + count <= LAST + 1
}

// Returns whether a window is within the bounds of a version.
fn fits_window(version: Version, window: &WindowRecord) -> bool
    ensures { IsTrue result ↔ FitsWindow (layout_of version) window.now }
{
    window.kept().len() <= version.window() && are_numbers(window) && has_room_for(version, window)
}

// Returns whether the bytes spell the window as a session record of a version.
fn is_spelled(version: Version, window: &WindowRecord, bytes: &[u8]) -> bool
    ensures { IsTrue result ↔ SpellsSession (layout_of version) bytes.now window.now }
{
    fits_window(version, window) && bytes == &spell_in(version, window)[..version.session_record()]
}

/// Returns the window that these bytes spell as a session record of a version, or `None`. Its base is 1 to
/// [`LAST`](im_types::LAST) + 1, and no entry is past the last number. The first version has no entry of a reset.
pub fn read_session(version: Version, bytes: &[u8]) -> Option<WindowRecord>
    ensures found { IfSome result (λ w. SpellsSession (layout_of version) bytes.now w) }
    ensures only { (w : Window) → SpellsSession (layout_of version) bytes.now w → result ≡ Some w }
{
    if bytes.len() != version.session_record() {
        return None;
    }
    let window = window_in(version, bytes)?;
    if is_spelled(version, &window, bytes) {
        Some(window)
    } else {
        None
    }
}

fn first_sessions(
    alloc: Global,
    version: Version,
    elements: u16,
    bytes: &[u8],
) -> Result<Vec<WindowRecord>, Refusal>
    requires { session_record_bytes (layout_of version) * elements ≤ length bytes.now }
    ensures found { IfOk result (λ row. BeginWithSessions (layout_of version) elements bytes.now row.items) }
    ensures bad { IsErrOf result Refusal.BadPage → (row : List Window)
        → BeginWithSessions (layout_of version) elements bytes.now row → ⊥ }
    ensures only { IfErr result (λ e. (e ≡ Refusal.BadPage) ⊎ (e ≡ Refusal.NoMemory)) }
{
    let Ok(mut row) = Vec::with_capacity(alloc, elements as usize) else {
        return Err(Refusal::NoMemory);
    };
    let size = version.session_record();
    for i in 0..elements as usize {
        let Some(window) = read_session(version, &bytes[size * i..size * i + size]) else {
            return Err(Refusal::BadPage);
        };
        if let Err(_) = row.push(window) {
            return Err(Refusal::NoMemory);
        }
    }
    Ok(row)
}

/// Reads the windows of their part of an area. Returns `BadPage` if a session record isn't spelled as it should be, or
/// a byte behind the records isn't zero. Returns `NoMemory` if there is no room for them.
pub(crate) fn read_sessions(
    alloc: Global,
    version: Version,
    elements: u16,
    part: &[u8],
) -> Result<Vec<WindowRecord>, Refusal>
    requires { session_record_bytes (layout_of version) * elements ≤ length part.now }
    ensures found { IfOk result (λ row. AreSessions (layout_of version) elements part.now row.items) }
    ensures bad { IsErrOf result Refusal.BadPage → (row : List Window)
        → AreSessions (layout_of version) elements part.now row → ⊥ }
    ensures only { IfErr result (λ e. (e ≡ Refusal.BadPage) ⊎ (e ≡ Refusal.NoMemory)) }
{
    if !are_zero(&part[version.session_record() * elements as usize..]) {
        return Err(Refusal::BadPage);
    }
    first_sessions(alloc, version, elements, part)
}
