//! Writes what the bytes of a damaged image still say, record by record.
ghost use Rattle.std.specs.Prelude.{◌≡◌, ℕ, ◌≤◌, List, ◌++◌, take, drop, IfSome, IfOk, OnOk, string_bytes, option_map};
ghost use Rattle.std.specs.Io.KnownBytes.{Appends};
ghost use Rattle.im_types.specs.Types.{is_open_header, generation_in};
ghost use Rattle.{im_disk.specs.Runs.ReadsAlone, im_disk.specs.Runs.ReadsOrFails, im_image.specs.Headers.seen};
ghost use Rattle.im_dump.specs.Salvage.{area_line, area_there, best_header, best_of, is_second_first, IsReadAs};
ghost use Rattle.im_dump.specs.Salvage.{spelled_header, TellsArea, WasSalvaged, WasToldBy};

use crate::dumping::write_dump;
use crate::records::{add_told_cells, add_told_nodes, behind, node_count};
use crate::windows::add_told_windows;
use crate::writing::{add_head, add_last};
use byteorder::{ByteOrder, LittleEndian};
use im_disk::{DeviceFault, Disk};
use im_image::{Header, OPEN, PAGE, Versions, read_image};
use im_text::{Reason, diagnose, put_through};
use im_types::Refusal;
use im_types::layout::cell_bytes;
use std::alloc::{AllocError, Global};
use std::io::Write;

// What is written if no header can be read.
const NO_AREA: &str = "imem salvage 1 of no area: neither header can be read\nend\n";

// Whether a header is open.
fn is_open(place: &[u8; 64]) -> bool
    ensures { result ≡ is_open_header place.now }
{
    place[0] == OPEN
}

// The generation of a header.
fn generation_in(place: &[u8; 64]) -> u64
    ensures { result ≡ generation_in place.now }
{
    LittleEndian::read_u64(&place[8..16])
}

// Whether the second of two headers comes first: it alone is open, or its generation is the greater one.
fn is_second_first(zero: &[u8; 64], one: &[u8; 64]) -> bool
    ensures { result ≡ is_second_first zero.now one.now }
{
    if is_open(zero) {
        is_open(one) && generation_in(zero) < generation_in(one)
    } else {
        is_open(one) || generation_in(zero) < generation_in(one)
    }
}

// The header that a place spells for this area, whatever its gate is.
fn spelled(place: &[u8; 64], number: u8) -> Option<Header>
    requires { number ≤ 1 }
    ensures found { option_map seen result ≡ spelled_header number place.now }
    ensures range { IfSome result (λ h. h.area ≤ 1) }
{
    Header::read(place, number)
}

// The header that is spelled at the place that comes first, or else at the other one.
fn best_of(zero: &[u8; 64], one: &[u8; 64]) -> Option<Header>
    ensures found { option_map seen result ≡ best_of zero.now one.now }
    ensures range { IfSome result (λ h. h.area ≤ 1) }
{
    let first = spelled(zero, 0);
    let second = spelled(one, 1);
    if is_second_first(zero, one) {
        second.or(first)
    } else {
        first.or(second)
    }
}

// Finds the header whose area is read.
fn read_best<D: Disk>(disk: &mut D) -> Result<Option<Header>, DeviceFault>
    ensures found { IfOk result
        (λ o. IsReadAs (D.honest disk.new) (option_map seen o) (best_header (D.now disk.old).bytes)) }
    ensures range { IfOk result (λ o. IfSome o (λ h. h.area ≤ 1)) }
    ensures reads { ReadsOrFails D.Disk disk.old disk.new result }
{
    let length = disk.len()?;
    if length < 2 * PAGE {
        return Ok(None);
    }
    let mut zero = [0; 64];
    let mut one = [0; 64];
    // A read changes nothing, so a stop before or within it leaves what was there.
    disk.read(0, &mut zero)?;
    disk.read(PAGE, &mut one)?;
    Ok(best_of(&zero, &one))
}

// Reads the bytes from a place on, as far as they are there.
fn read_there<D: Disk>(
    alloc: Global,
    disk: &mut D,
    at: usize,
    size: usize,
) -> Result<Vec<u8>, Refusal>
    ensures there { IfOk result
        (λ v. IsReadAs (D.honest disk.new) v.items (take size (drop at (D.now disk.old).bytes))) }
    ensures reads { ReadsAlone D.Disk disk.old disk.new }
{
    let Ok(length) = disk.len() else {
        return Err(Refusal::Device);
    };
    let from = at.min(length);
    let Ok(mut part) = vec![in alloc; 0; size.min(length - from)] else {
        return Err(Refusal::NoMemory);
    };
    // A read changes nothing, so a stop before or within it leaves what was there.
    match disk.read(from, part.as_mut_slice()) {
        Ok(()) => Ok(part),
        Err(_) => Err(Refusal::Device),
    }
}

// Reads the area of a header.
fn read_area<D: Disk>(alloc: Global, disk: &mut D, header: &Header) -> Result<Vec<u8>, Refusal>
    requires { header.now.area ≤ 1 }
    ensures there { IfOk result
        (λ v. IsReadAs (D.honest disk.new) v.items (area_there (seen header.now) (D.now disk.old).bytes)) }
    ensures reads { ReadsAlone D.Disk disk.old disk.new }
{
    let (version, limits) = (header.layout(), header.limits);
    let at = version.area_at(limits, header.area as usize);
    read_there(alloc, disk, at, PAGE * version.area_pages(limits))
}

// Adds the first line.
fn add_area_line(out: &mut String, area: u8) -> Result<(), AllocError>
    ensures { OnOk result (string_bytes out.new ≡ string_bytes out.old ++ area_line area) }
{
    writeln!(out, "imem salvage 1 without the journal, of area {area}")
}

// Adds what the bytes of an area say.
fn add_area(out: &mut String, header: &Header, area: &[u8]) -> Result<(), AllocError>
    ensures { OnOk result ((text : List ℕ) × TellsArea (seen header.now) area.now text
        × (string_bytes out.new ≡ string_bytes out.old ++ text)) }
{
    let (version, limits) = (header.layout(), header.limits);
    let nodes = behind(area, cell_bytes(limits));
    let windows = behind(nodes, version.node_bytes(limits));
    add_area_line(out, header.area)?;
    add_head(out, limits, header.count)?;
    add_told_cells(out, area, limits.cells)?;
    add_told_nodes(out, nodes, node_count(version, limits))?;
    add_told_windows(out, version, windows, limits.elements)?;
    add_last(out)
}

// Writes what the bytes of an area say.
fn write_area<W: Write>(
    alloc: Global,
    header: &Header,
    area: &[u8],
    out: &mut W,
) -> Result<(), Reason>
    ensures { OnOk result ((text : List ℕ) × TellsArea (seen header.now) area.now text
        × Appends (W.contents out.old) (W.contents out.new) text) }
{
    let mut text = String::new(alloc);
    match add_area(&mut text, header, area) {
        Ok(()) => put_through(out, text.as_str()),
        Err(_) => Err(Reason::Memory),
    }
}

// Writes what the bytes say, by this header, if there is one.
fn write_by<D: Disk, W: Write>(
    alloc: Global,
    disk: &mut D,
    best: Option<Header>,
    out: &mut W,
) -> Result<(), Reason>
    requires { IfSome best (λ h. h.area ≤ 1) }
    ensures told { OnOk result (WasToldBy (option_map seen best) (D.honest disk.new) (D.now disk.old).bytes
        (W.contents out.old) (W.contents out.new)) }
    ensures reads { ReadsAlone D.Disk disk.old disk.new }
{
    let Some(header) = best else {
        return put_through(out, NO_AREA);
    };
    match read_area(alloc, disk, &header) {
        Ok(area) => write_area(alloc, &header, area.as_slice(), out),
        Err(refusal) => Err(diagnose(alloc, disk, refusal)),
    }
}

// Writes what the bytes say.
fn write_salvage<D: Disk, W: Write>(alloc: Global, disk: &mut D, out: &mut W) -> Result<(), Reason>
    ensures told { OnOk result (WasToldBy (best_header (D.now disk.old).bytes) (D.honest disk.new)
        (D.now disk.old).bytes (W.contents out.old) (W.contents out.new)) }
    ensures reads { ReadsAlone D.Disk disk.old disk.new }
{
    match read_best(disk) {
        Ok(best) => write_by(alloc, disk, best, out),
        Err(_) => Err(diagnose(alloc, disk, Refusal::Device)),
    }
}

/// Writes the dump of what the image on a disk means, as [`dump`](crate::dump) does. If the image is refused, writes
/// what its bytes still say, record by record, and returns the refusal: its first fault, or `Device` or `NoMemory` if
/// only its journal couldn't be read, say.
///
/// A record of a cell, a waiter node or an element's window that is spelled as it should be is told as it is; each
/// other one is marked. The area is that of the header in force. If that header isn't spelled as it should be, it is
/// the other one's. The commands of the journal aren't told. The bytes are only read.
///
/// The reason of an error is a failed write, after which a part may be written. Or it is `Memory`, or `Device` for a
/// header or an area that can't be read, and then nothing is.
pub fn salvage<D: Disk, W: Write>(
    alloc: Global,
    disk: &mut D,
    out: &mut W,
) -> Result<Option<Refusal>, Reason>
    ensures told { IfOk result (λ fault. WasSalvaged (D.honest disk.new) (D.now disk.old).bytes fault
        (W.contents out.old) (W.contents out.new)) }
    ensures reads { ReadsAlone D.Disk disk.old disk.new }
{
    match read_image(alloc, disk, Versions::Any) {
        Ok(image) => match write_dump(alloc, &image, out) {
            Ok(()) => Ok(None),
            Err(reason) => Err(reason),
        },
        Err(fault) => match write_salvage(alloc, disk, out) {
            Ok(()) => Ok(Some(fault)),
            Err(reason) => Err(reason),
        },
    }
}
