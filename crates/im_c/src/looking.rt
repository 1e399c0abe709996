//! What an image for C keeps, and how far it has come. C calls these to look; nothing changes.
ghost use Rattle.std.specs.Prelude.{◌≡◌, IsSome};
ghost use Rattle.im_c.specs.Handing.{ShowsHeld};
ghost use Rattle.im_c.specs.Image.{asked_as, CollectsFrom, ShowsWindow, TellsAsked, window_of};

use crate::image::LtImage;
use crate::plain::{LtBounds, LtCommand, LtOutcome, entry_outcome};
use im_listed::Image;
use im_types::codes::{address_of, op_code, op_value};
use im_types::{Kept, Refusal};

// The entry that is kept under an element's number, for C.
fn collected(image: &Image, element: u16, number: u64) -> LtOutcome
    ensures { CollectsFrom image.now element number result }
{
    entry_outcome(image.collect(element, number))
}

// The request of an element under a number, for C.
fn asked_as(element: u16, number: u64, kept: Option<Kept>) -> LtCommand
    ensures { result ≡ asked_as element number kept }
{
    match kept {
        Some(kept) => LtCommand {
            tag: op_code(kept.op),
            element,
            address: address_of(kept.op),
            number,
            value: op_value(kept.op),
        },
        None => LtCommand {
            tag: 0,
            element,
            address: 0,
            number,
            value: 0,
        },
    }
}

// The request that was asked under an element's number, for C.
fn asked_in(image: &Image, element: u16, number: u64) -> LtCommand
    ensures { TellsAsked image.now element number result }
{
    match image.is_lost() {
        true => asked_as(element, number, None),
        false => asked_as(element, number, image.kept(element, number)),
    }
}

// The bounds of a window, for C.
fn window_of(answer: Result<(u64, u64), Refusal>) -> LtBounds
    ensures { result ≡ window_of answer }
{
    match answer {
        Ok((base, next)) => LtBounds {
            refusal: 0,
            base,
            next,
        },
        Err(refusal) => LtBounds {
            refusal: refusal.number(),
            base: 0,
            next: 0,
        },
    }
}

// The window of an element, for C.
fn shown_window(image: &Image, element: u16) -> LtBounds
    ensures { ShowsWindow image.now element result }
{
    window_of(image.window(element))
}

// The number of accepted commands, and of the commands that there is room for.
#[derive(Clone, Copy)]
struct Totals {
    room: u32,
    accepted: u64,
}

// The totals of an image.
fn totalled(image: LtImage, next: &mut LtImage) -> Totals
    requires some { IsSome image.value }
    ensures room { ShowsHeld image.value next.new.value (λ i. result.room ≡ i.engine.room) }
    ensures accepted { ShowsHeld image.value next.new.value (λ i. result.accepted ≡ i.engine.count) }
{
    let held = image.into_box();
    let totals = Totals {
        room: held.room(),
        accepted: held.count(),
    };
    *next = LtImage::of_box(held);
    totals
}

/// Writes the entry that is kept under an element's number at `outcome`. It is refused with `NoElement`, with
/// `Forgotten` below the window, with `Gap` if the number isn't used yet, and with `Device`. Nothing changes.
#[unsafe(no_mangle)]
pub extern "C" fn lt_held_collect(
    image: LtImage,
    element: u16,
    number: u64,
    next: &mut LtImage,
    outcome: &mut LtOutcome,
)
    requires some { IsSome image.value }
    ensures answer { ShowsHeld image.value next.new.value (λ i. CollectsFrom i element number outcome.new) }
{
    let held = image.into_box();
    *outcome = collected(&held, element, number);
    *next = LtImage::of_box(held);
}

/// Writes the request that is kept under an element's number at `asked`. Its tag is 0 if there is none, and after a
/// lost step. Nothing changes.
#[unsafe(no_mangle)]
pub extern "C" fn lt_held_entry(
    image: LtImage,
    element: u16,
    number: u64,
    next: &mut LtImage,
    asked: &mut LtCommand,
)
    requires some { IsSome image.value }
    ensures found { ShowsHeld image.value next.new.value (λ i. TellsAsked i element number asked.new) }
{
    let held = image.into_box();
    let kept = asked_in(&held, element, number);
    *next = LtImage::of_box(held);
    *asked = kept;
}

/// Writes the window of an element at `window`. It is refused with `NoElement` and with `Device`. Nothing changes.
#[unsafe(no_mangle)]
pub extern "C" fn lt_held_window(
    image: LtImage,
    element: u16,
    next: &mut LtImage,
    window: &mut LtBounds,
)
    requires some { IsSome image.value }
    ensures answer { ShowsHeld image.value next.new.value (λ i. ShowsWindow i element window.new) }
{
    let held = image.into_box();
    *window = shown_window(&held, element);
    *next = LtImage::of_box(held);
}

/// Returns how many more commands can be accepted.
#[unsafe(no_mangle)]
pub extern "C" fn lt_held_room(image: LtImage, next: &mut LtImage) -> u32
    requires some { IsSome image.value }
    ensures room { ShowsHeld image.value next.new.value (λ i. result ≡ i.engine.room) }
{
    totalled(image, next).room
}

/// Returns how many commands have been accepted since the image was formatted.
#[unsafe(no_mangle)]
pub extern "C" fn lt_held_count(image: LtImage, next: &mut LtImage) -> u64
    requires some { IsSome image.value }
    ensures count { ShowsHeld image.value next.new.value (λ i. result ≡ i.engine.count) }
{
    totalled(image, next).accepted
}
