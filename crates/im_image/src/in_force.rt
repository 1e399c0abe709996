//! Finds the header in force.
ghost use Rattle.std.specs.Prelude.{◌≡◌, ◌<◌, ◌≤◌, true, not, ◌||◌, ◌⊎◌, ◌↔◌, length, IfSome, IfOk, IfErr, OnOk};
ghost use Rattle.std.specs.Prelude.{IsSome, Some, None};
ghost use Rattle.im_types.specs.Types.{Device, LAST, header_in, spells_header, is_open_header, generation_in};
ghost use Rattle.im_types.specs.Types.{is_second, number_in_force, place_in_force, are_ambiguous, place_fault};
ghost use Rattle.im_types.specs.Types.{header_of};
ghost use Rattle.im_disk.specs.Runs.{ReadsOrFails, ReadsOrRefuses};
ghost use Rattle.im_image.specs.Headers.{beginning_fault, first_fault, IsHeaderFault, layout_at, MayRefuseHeader, seen};
ghost use Rattle.im_image.specs.Headers.{version_fault};
ghost use Rattle.im_image.specs.ImageStart.{IsImageStart};

use crate::header::Header;
use crate::versions::Versions;
use byteorder::{ByteOrder, LittleEndian};
use im_disk::{DeviceFault, Disk};
use im_types::Refusal;
use im_types::layout::{OPEN, PAGE};

fn is_open(place: &[u8; 64]) -> bool
    ensures { result ≡ is_open_header place.now }
{
    place[0] == OPEN
}

fn generation_in(place: &[u8; 64]) -> u64
    ensures { result ≡ generation_in place.now }
{
    LittleEndian::read_u64(&place[8..16])
}

// Returns whether the second of two header places is in force.
fn is_second(zero: &[u8; 64], one: &[u8; 64]) -> bool
    ensures { result ≡ is_second zero.now one.now }
{
    is_open(one) && (!is_open(zero) || generation_in(zero) < generation_in(one))
}

// Returns whether both are closed.
fn are_closed(zero: &[u8; 64], one: &[u8; 64]) -> bool
    ensures { result ≡ not (is_open_header zero.now || is_open_header one.now) }
{
    !(is_open(zero) || is_open(one))
}

// Returns whether both are open with the same generation.
fn are_ambiguous(zero: &[u8; 64], one: &[u8; 64]) -> bool
    ensures { result ≡ are_ambiguous zero.now one.now }
{
    is_open(zero) && is_open(one) && generation_in(zero) == generation_in(one)
}

// The header that the place in force spells.
fn read_in_force(zero: &[u8; 64], one: &[u8; 64]) -> Option<Header>
    ensures found { IfSome result (λ h. seen h ≡ header_in (place_in_force zero.now one.now)) }
    ensures range { IfSome result (λ h. (h.area ≤ 1) × (h.count ≤ LAST)) }
    ensures only { IsSome result ↔ (spells_header (layout_at zero.now one.now) (number_in_force zero.now one.now)
        (place_in_force zero.now one.now) ≡ true) }
{
    if is_second(zero, one) {
        Header::read(one, 1)
    } else {
        Header::read(zero, 0)
    }
}

// What is read of an image first: its length, and the places of its two headers.
#[derive(Drop)]
struct ImageStart {
    length: usize,
    zero: [u8; 64],
    one: [u8; 64],
}

// The header in force of two header places, or their first fault.
fn header_of_places(zero: &[u8; 64], one: &[u8; 64]) -> Result<Header, Refusal>
    ensures found { IfOk result (λ h. seen h ≡ header_in (place_in_force zero.now one.now)) }
    ensures range { IfOk result (λ h. (h.area ≤ 1) × (h.count ≤ LAST)) }
    ensures good { OnOk result (place_fault (layout_at zero.now one.now) zero.now one.now ≡ None) }
    ensures fault { IfErr result (λ e. place_fault (layout_at zero.now one.now) zero.now one.now ≡ Some e) }
    ensures only { IfErr result (λ e. IsHeaderFault e) }
{
    if are_closed(zero, one) {
        return Err(Refusal::NoHeader);
    }
    if are_ambiguous(zero, one) {
        return Err(Refusal::BadHeader);
    }
    match read_in_force(zero, one) {
        Some(header) => Ok(header),
        None => Err(Refusal::BadHeader),
    }
}

// The header in force of an image with this beginning, or the first fault. A version that isn't taken is a fault behind
// those of the header places, and before the length's.
fn header_of(beginning: &ImageStart, versions: Versions) -> Result<Header, Refusal>
    ensures found { IfOk result (λ h. seen h ≡ header_in (place_in_force beginning.now.zero beginning.now.one)) }
    ensures range { IfOk result (λ h. (h.area ≤ 1) × (h.count ≤ LAST)) }
    ensures version { IfOk result (λ h. version_fault versions h.version ≡ None) }
    ensures good { OnOk result
        (beginning_fault versions beginning.now.length beginning.now.zero beginning.now.one ≡ None) }
    ensures fault { IfErr result
        (λ e. beginning_fault versions beginning.now.length beginning.now.zero beginning.now.one ≡ Some e) }
    ensures only { IfErr result (λ e. MayRefuseHeader versions e) }
{
    let header = match header_of_places(&beginning.zero, &beginning.one) {
        Ok(header) => header,
        Err(refusal) => return Err(refusal),
    };
    if let Some(refusal) = versions.refuse(&header) {
        return Err(refusal);
    }
    if beginning.length == header.layout().image_length(header.limits) {
        Ok(header)
    } else {
        Err(Refusal::WrongLength)
    }
}

// Reads the beginning of an image. Returns `None` if the file is shorter than two header places.
fn read_beginning<D: Disk>(disk: &mut D) -> Result<Option<ImageStart>, DeviceFault>
    ensures short { IfOk result (λ o. D.honest disk.new → o ≡ None → length (D.now disk.old).bytes < 8192) }
    ensures found { IfOk result (λ o. IfSome o (λ b. D.honest disk.new → IsImageStart b (D.now disk.old).bytes)) }
    ensures reads { ReadsOrFails D.Disk disk.old disk.new result }
{
    let length = disk.len()?;
    if length < 2 * PAGE {
        return Ok(None);
    }
    let mut zero = [0; 64];
    let mut one = [0; 64];
    // A read changes nothing, so a stop before or within it leaves what was there.
    disk.read(0, &mut zero)?;
    disk.read(PAGE, &mut one)?;
    Ok(Some(ImageStart { length, zero, one }))
}

/// Returns the header in force of an image of one of these versions, or the first fault of its length and its headers.
///
/// It reads only the length and the two header places, and takes no memory. The faults are `WrongLength`, `NoHeader`,
/// `BadHeader` and `OldVersion`, in the order of the definition. A version that isn't taken is a fault before a wrong
/// length for the header's sizes. Returns `Device` if a call failed.
pub fn read_header<D: Disk>(disk: &mut D, versions: Versions) -> Result<Header, Refusal>
    ensures found { IfOk result (λ h. D.honest disk.new → seen h ≡ header_of (D.now disk.old).bytes) }
    ensures version { IfOk result (λ h. version_fault versions h.version ≡ None) }
    ensures good { OnOk result (D.honest disk.new → first_fault versions (D.now disk.old).bytes ≡ None) }
    ensures fault { IfErr result (λ e. (e ≡ Device)
        ⊎ (D.honest disk.new → first_fault versions (D.now disk.old).bytes ≡ Some e)) }
    ensures reads { ReadsOrRefuses D.Disk disk.old disk.new result (λ e. (e ≡ Device) ⊎ MayRefuseHeader versions e) }
    ensures range { IfOk result (λ h. (h.area ≤ 1) × (h.count ≤ LAST)) }
{
    match read_beginning(disk) {
        Ok(Some(beginning)) => header_of(&beginning, versions),
        Ok(None) => Err(Refusal::WrongLength),
        Err(_) => Err(Refusal::Device),
    }
}
