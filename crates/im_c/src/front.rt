//! What is asked of an image, for C.
ghost use Rattle.std.specs.Prelude.{◌≡◌, IsSome};
ghost use Rattle.im_c.specs.Asked.{asked_for_c, state_at, Submits, SubmitsNext};
ghost use Rattle.im_c.specs.Handing.{Becomes, ShowsHeld};

use crate::asked::{LtAsked, command_told};
use crate::image::LtImage;
use crate::plain::{LtCommand, NO_CALL, UNSERVED, meant};
use im_listed::Image;
use im_types::MAX_GROUP;
use im_types::codes::op_of;

// Asks for a command. Returns 0, or why it isn't asked.
fn submit(image: &mut Image, ticket: u64, command: &LtCommand) -> u8
    ensures { Submits image.old ticket command.now result image.new }
{
    let command = match meant(command) {
        Some(command) => command,
        None => return NO_CALL,
    };
    if image.behind() >= MAX_GROUP {
        return UNSERVED;
    }
    image.submit(ticket, &command);
    0
}

// Asks for a request under its element's next number, which is written into the command. Returns 0, or why it isn't
// asked.
fn submit_next(image: &mut Image, ticket: u64, command: &mut LtCommand, most: u64) -> u8
    ensures { SubmitsNext image.old ticket command.old most result command.new image.new }
{
    let op = match op_of(command.tag, command.address, command.value) {
        Some(op) => op,
        None => return NO_CALL,
    };
    if image.behind() >= MAX_GROUP {
        return UNSERVED;
    }
    match image.submit_next(ticket, command.element, op, most) {
        Ok(number) => {
            command.number = number;
            0
        }
        Err(refusal) => refusal.number(),
    }
}

/// Asks for a command, behind all that is asked. Its ticket is told with its outcome; nothing else is made of it.
///
/// Returns 0, 255 for an unknown tag, or 254 if 16 are asked behind those that are ahead: then it is asked again after
/// [`lt_front_advance`](crate::lt_front_advance). It leaves no step.
#[unsafe(no_mangle)]
pub extern "C" fn lt_front_submit(
    image: LtImage,
    ticket: u64,
    command: &LtCommand,
    next: &mut LtImage,
) -> u8
    requires some { IsSome image.value }
    ensures asked { Becomes image.value next.new.value (λ i n. Submits i ticket command.now result n) }
{
    let mut held = image.into_box();
    let number = submit(&mut held, ticket, command);
    *next = LtImage::of_box(held);
    number
}

/// Asks for a request under its element's next number, behind all that is asked. The number is written at `command`. If
/// 64 entries are kept then, a confirmation is asked before it, with the ticket 0: up to the first entry that isn't
/// answered yet, and at most up to the number `most`.
///
/// Returns 0, 255 for an unknown tag, 254 as [`lt_front_submit`], or the number of the refusal: `WindowFull` if nothing
/// can be confirmed, `NoElement`, `Device`. It leaves no step.
#[unsafe(no_mangle)]
pub extern "C" fn lt_front_next(
    image: LtImage,
    ticket: u64,
    command: &mut LtCommand,
    most: u64,
    next: &mut LtImage,
) -> u8
    requires some { IsSome image.value }
    ensures asked { Becomes image.value next.new.value (λ i n.
        SubmitsNext i ticket command.old most result command.new n) }
{
    let mut held = image.into_box();
    let number = submit_next(&mut held, ticket, command, most);
    *next = LtImage::of_box(held);
    number
}

// Whether what is asked at a place is ahead: 2 if it is, and else 1.
fn state_at(ahead: usize, index: usize) -> u8
    ensures { result ≡ state_at ahead index }
{
    if index < ahead { 2 } else { 1 }
}

// What is asked of an image at a place.
fn asked_for_c(image: &Image, index: usize) -> LtAsked
    ensures { result ≡ asked_for_c image.now index }
{
    match image.asked().get(index) {
        Some(asked) => LtAsked {
            ticket: asked.ticket,
            command: command_told(&asked.command),
            state: state_at(image.ahead(), index),
        },
        None => LtAsked {
            ticket: 0,
            command: LtCommand {
                tag: 0,
                element: 0,
                address: 0,
                number: 0,
                value: 0,
            },
            state: 0,
        },
    }
}

/// Writes what is asked at `asked`, by its place from 0. Those that are ahead come first. Nothing changes.
#[unsafe(no_mangle)]
pub extern "C" fn lt_held_asked(
    image: LtImage,
    index: usize,
    next: &mut LtImage,
    asked: &mut LtAsked,
)
    requires some { IsSome image.value }
    ensures found { ShowsHeld image.value next.new.value (λ i. asked.new ≡ asked_for_c i index) }
{
    let held = image.into_box();
    *asked = asked_for_c(&held, index);
    *next = LtImage::of_box(held);
}
