//! The writes and syncs that the last call on an image left. C carries them out, one after another, or says that it
//! couldn't.
ghost use Rattle.std.specs.Prelude.{◌≡◌, true, map, length, IsSome, slice_get};
ghost use Rattle.im_listed.specs.{Image.steps_of, Listing.task_of};
ghost use Rattle.im_c.specs.{Handing.Becomes, Handing.ShowsHeld, Image.Copies, Image.CopiesBytes, Image.step_told};

use crate::image::LtImage;
use crate::plain::{LtStep, NO_CALL};
use im_listed::Step;

// The number of steps.
fn count_of(steps: &[Step]) -> usize
    ensures { result ≡ length (map task_of steps.now) }
{
    steps.len()
}

// The step with this index, for C.
fn step_at(steps: &[Step], index: usize) -> LtStep
    ensures { result ≡ step_told (slice_get (map task_of steps.now) index) }
{
    match steps.get(index) {
        Some(Step::Write(place, bytes)) => LtStep {
            kind: 1,
            place: *place as u64,
            length: bytes.len() as u64,
        },
        Some(Step::Sync) => LtStep {
            kind: 2,
            place: 0,
            length: 0,
        },
        None => LtStep {
            kind: 0,
            place: 0,
            length: 0,
        },
    }
}

// Copies the bytes of the write with this index.
fn copy_step(steps: &[Step], index: usize, buffer: &mut [u8]) -> u8
    ensures { Copies (slice_get (map task_of steps.now) index) buffer.old result buffer.new }
{
    match steps.get(index) {
        Some(Step::Write(_, bytes)) => copy(bytes, buffer),
        _ => NO_CALL,
    }
}

// Copies bytes into a buffer of their length. Returns 0, or 255 if the lengths differ.
fn copy(bytes: &[u8], buffer: &mut [u8]) -> u8
    ensures { CopiesBytes bytes.now buffer.old result buffer.new }
{
    if bytes.len() != buffer.len() {
        return NO_CALL;
    }
    buffer.copy_from_slice(bytes);
    0
}

/// Says that a step couldn't be carried out. Each later call is answered with `Device`, and there are no steps.
#[unsafe(no_mangle)]
pub extern "C" fn lt_failed(image: LtImage, next: &mut LtImage)
    requires some { IsSome image.value }
    ensures lost { Becomes image.value next.new.value (λ i n. n ≡ record i { lost = true }) }
{
    let mut held = image.into_box();
    held.lose();
    *next = LtImage::of_box(held);
}

/// Returns how many steps the last call left to carry out. `lt_format`, `lt_open`, `lt_serve`, `lt_serve_group`,
/// `lt_turn` and `lt_sweep` leave steps.
#[unsafe(no_mangle)]
pub extern "C" fn lt_held_steps(image: LtImage, next: &mut LtImage) -> usize
    requires some { IsSome image.value }
    ensures count { ShowsHeld image.value next.new.value (λ i. result ≡ length (steps_of i)) }
{
    let held = image.into_box();
    let count = count_of(held.steps());
    *next = LtImage::of_box(held);
    count
}

/// Writes the step with this index, from 0, at `step`.
#[unsafe(no_mangle)]
pub extern "C" fn lt_held_step_at(
    image: LtImage,
    index: usize,
    next: &mut LtImage,
    step: &mut LtStep,
)
    requires some { IsSome image.value }
    ensures step { ShowsHeld image.value next.new.value (λ i. step.new ≡ step_told (slice_get (steps_of i) index)) }
{
    let held = image.into_box();
    *step = step_at(held.steps(), index);
    *next = LtImage::of_box(held);
}

/// Copies the bytes of the write with this index, from 0, into a buffer of just their length. Returns 0, or 255, and
/// then the buffer is as it was.
#[unsafe(no_mangle)]
pub extern "C" fn lt_held_step_bytes(
    image: LtImage,
    index: usize,
    next: &mut LtImage,
    buffer: &mut [u8],
) -> u8
    requires some { IsSome image.value }
    ensures bytes { ShowsHeld image.value next.new.value
        (λ i. Copies (slice_get (steps_of i) index) buffer.old result buffer.new) }
{
    let held = image.into_box();
    let number = copy_step(held.steps(), index, buffer);
    *next = LtImage::of_box(held);
    number
}
