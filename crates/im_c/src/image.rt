//! The handle of an image for C, and how it is made, opened and closed. C reads the file, and carries out the writes
//! and syncs.
ghost use Rattle.std.specs.Prelude.{◌≡◌, false, ◌≢◌, ◌⊎◌, [], ◌∷◌, IfSome, IfOk, IfErr, IsSome, Some, Ok, Err};
ghost use Rattle.std.specs.declared.option.Option.{Option};
ghost use Rattle.im_types.specs.Types.{AreLimits, empty_contents, layout_in_use, sizes_of};
ghost use Rattle.{im_disk.specs.Since.LeavesNow, im_engine.specs.State.IsFound, im_engine.specs.State.MeansState};
ghost use Rattle.im_listed.specs.{History.given, Listing.carried, Listing.Settles};
ghost use Rattle.im_listed.specs.Image.{ImageState, IsFaultOf, IsWant, steps_of};
ghost use Rattle.im_c.specs.{Held.holds_image, Image.blank_image, Telling.TellsFault};
ghost use Rattle.im_types.specs.Layout as layout;

use crate::parts::BoxParts;
use im_listed::Image;
use im_types::layout::image_length;
use im_types::{Limits, Refusal};
use std::alloc::Global;
use std::marker::Model;

/// A handle of an image, or of none: a struct of zero bytes holds none. A call that takes the handle hands it out again
/// at `next`, which may be the place that it came from. A handle that is overwritten is lost.
#[repr(C)]
#[derive(Drop)]
pub struct LtImage {
    ptr: *mut u8,
    alloc: Global,
    /// The image, as contracts see it, or none.
    pub ghost value: { Option ImageState },
}

impl Model for LtImage {
    ghost also_owns = { λ h. holds_image h.alloc h.ptr h.value };
}

// A handle may go to another thread, because its block may.
unsafe impl Send for LtImage {}

impl LtImage {
    fn of_parts(parts: BoxParts<Image, Global>) -> LtImage
        ensures { result.value ≡ Some parts.value }
    {
        let BoxParts { ptr, alloc } = parts;
        LtImage {
            ptr: ptr as *mut u8,
            alloc,
        }
    }

    fn into_parts(self) -> BoxParts<Image, Global>
        requires { IsSome self.value }
        ensures { self.value ≡ Some result.value }
    {
        let LtImage { ptr, alloc } = self;
        BoxParts {
            ptr: ptr as *mut Image,
            alloc,
        }
    }

    pub(crate) fn into_box(self) -> Box<Image>
        requires { IsSome self.value }
        ensures { self.value ≡ Some result.value }
    {
        self.into_parts().into_box()
    }

    pub(crate) fn of_box(held: Box<Image>) -> LtImage
        ensures { result.value ≡ Some held.value }
    {
        LtImage::of_parts(BoxParts::of(held))
    }
}

// An image in a block of its own.
fn boxed(alloc: Global, image: Image) -> Result<Box<Image>, Refusal>
    ensures same { IfOk result (λ b. b.value ≡ image) }
    ensures only { IfErr result (λ e. e ≡ Refusal.NoMemory) }
{
    match Box::new(alloc, image) {
        Ok(image) => Ok(image),
        Err(_) => Err(Refusal::NoMemory),
    }
}

// A new image in a block of its own.
fn formatted(alloc: Global, limits: Limits) -> Result<Box<Image>, Refusal>
    ensures empty { IfOk result (λ b. (b.value.engine.memory ≡ empty_contents limits.cells limits.elements)
        × (b.value.engine.count ≡ 0) × (b.value.engine.room ≡ limits.slots)) }
    ensures carried { IfOk result
        (λ b. b.value.engine.disk.now ≡ carried (blank_image (sizes_of limits)) (steps_of b.value)) }
    ensures means { IfOk result (λ b. LeavesNow b.value.engine.disk.now (MeansState b.value.engine)) }
    ensures works { IfOk result (λ b. b.value.lost ≡ false) }
    ensures only { IfErr result IsWant }
{
    match Image::format(alloc, limits) {
        Ok(image) => boxed(alloc, image),
        Err(refusal) => Err(refusal),
    }
}

// The image of these bytes in a block of its own.
fn opened(alloc: Global, bytes: &[u8]) -> Result<Box<Image>, Refusal>
    ensures kept { IfOk result (λ b. b.value.engine.disk.now.bytes ≡ bytes.now) }
    ensures reads { IfOk result (λ b. steps_of b.value ≡ Settles ∷ []) }
    ensures carried { IfOk result (λ b. b.value.engine.disk.now ≡ carried (given bytes.now) (steps_of b.value)) }
    ensures found { IfOk result (λ b. LeavesNow b.value.engine.disk.now (IsFound b.value.engine)) }
    ensures means { IfOk result (λ b. LeavesNow b.value.engine.disk.now (MeansState b.value.engine)) }
    ensures works { IfOk result (λ b. b.value.lost ≡ false) }
    ensures fault { IfErr result (IsFaultOf bytes.now) }
{
    let Ok(bytes) = bytes.to_vec(alloc) else {
        return Err(Refusal::NoMemory);
    };
    match Image::open(alloc, bytes) {
        Ok(image) => boxed(alloc, image),
        Err(refusal) => Err(refusal),
    }
}

/// Makes the image of an empty memory with the given number of cells, 1 to 1,048,576, elements, 1 to 64, and journal
/// slots, 16 to 4,096. Returns 0, and `next` holds the image. Else returns the number of the refusal, and `next` is as
/// it was: `BadLimits` if a number is out of its range, `NoMemory`, or `Device` if the list of steps couldn't grow. The
/// caller's file has the length of [`lt_image_length`].
#[unsafe(no_mangle)]
pub extern "C" fn lt_format(
    alloc: Global,
    cells: u32,
    elements: u16,
    slots: u32,
    next: &mut LtImage,
) -> u8
    ensures bad { (AreLimits cells elements slots → ⊥) → result ≡ 17 }
    ensures only { AreLimits cells elements slots → (result ≡ 0) ⊎ (result ≡ 10) ⊎ (result ≡ 8) }
    ensures some { result ≡ 0 → IsSome next.new.value }
    ensures empty { result ≡ 0 → IfSome next.new.value (λ i.
        (i.engine.memory ≡ empty_contents cells elements) × (i.engine.count ≡ 0) × (i.engine.room ≡ slots)) }
    ensures carried { result ≡ 0 → IfSome next.new.value (λ i. i.engine.disk.now
        ≡ carried (blank_image (record { cells = cells; elements = elements; slots = slots })) (steps_of i)) }
    ensures means { result ≡ 0
        → IfSome next.new.value (λ i. LeavesNow i.engine.disk.now (MeansState i.engine)) }
    ensures same { result ≢ 0 → next.new ≡ next.old }
{
    let Some(limits) = Limits::new(cells, elements, slots) else {
        return Refusal::BadLimits.number();
    };
    match formatted(alloc, limits) {
        Ok(image) => {
            *next = LtImage::of_box(image);
            0
        }
        Err(refusal) => refusal.number(),
    }
}

/// Returns the length of an image of these sizes, or 0 if a number is out of its range.
#[unsafe(no_mangle)]
pub extern "C" fn lt_image_length(cells: u32, elements: u16, slots: u32) -> u64
    ensures length { AreLimits cells elements slots
        → result ≡ layout.image_length layout_in_use (record { cells = cells; elements = elements; slots = slots }) }
    ensures none { (AreLimits cells elements slots → ⊥) → result ≡ 0 }
{
    match Limits::new(cells, elements, slots) {
        Some(limits) => image_length(limits) as u64,
        None => 0,
    }
}

/// Opens the image in these bytes, which are those of the caller's file. Returns 0, and `next` holds the image. The one
/// step is a sync: no byte of the file changes, and a crash on the way leaves what it could have left before. Else
/// returns the number of the refusal, and `next` is as it was: the first fault of the bytes, which may be `OldVersion`,
/// `NoMemory`, or `Device` if the list of steps couldn't grow.
#[unsafe(no_mangle)]
pub extern "C" fn lt_open(alloc: Global, bytes: &[u8], next: &mut LtImage) -> u8
    ensures some { result ≡ 0 → IsSome next.new.value }
    ensures kept { result ≡ 0 → IfSome next.new.value (λ i. i.engine.disk.now.bytes ≡ bytes.now) }
    ensures reads { result ≡ 0 → IfSome next.new.value (λ i. steps_of i ≡ Settles ∷ []) }
    ensures carried { result ≡ 0
        → IfSome next.new.value (λ i. i.engine.disk.now ≡ carried (given bytes.now) (steps_of i)) }
    ensures found { result ≡ 0 → IfSome next.new.value (λ i. LeavesNow i.engine.disk.now (IsFound i.engine)) }
    ensures means { result ≡ 0
        → IfSome next.new.value (λ i. LeavesNow i.engine.disk.now (MeansState i.engine)) }
    ensures fault { result ≢ 0 → TellsFault bytes.now result }
    ensures same { result ≢ 0 → next.new ≡ next.old }
{
    match opened(alloc, bytes) {
        Ok(found) => {
            *next = LtImage::of_box(found);
            0
        }
        Err(fault) => fault.number(),
    }
}

/// Closes the image. It leaves no steps to carry out.
#[unsafe(no_mangle)]
pub extern "C" fn lt_close(image: LtImage)
    requires some { IsSome image.value }
{
    drop(image.into_box());
}
