//! An image for C serves commands, makes turns and sweeps. C calls these to change the image, and then carries out the
//! steps that they leave.
ghost use Rattle.std.specs.Prelude.{◌≡◌, IsSome};
ghost use Rattle.im_c.specs.Handing.{Becomes};
ghost use Rattle.im_c.specs.Image.{ServesOne, sweep_outcome, SweepsBy, turn_code, turn_outcome, turn_page, Turns};

use crate::image::LtImage;
use crate::plain::{LtCommand, LtOutcome, NO_CALL, meant, outcome_of, refused};
use im_checkpoint::TurnDone;
use im_listed::Image;
use im_types::Refusal;

// Serves one command. Returns its outcome for C.
fn serve(image: &mut Image, command: &LtCommand) -> LtOutcome
    ensures { ServesOne image.old command.now result image.new }
{
    match meant(command) {
        Some(command) => outcome_of(image.serve(&command)),
        None => {
            image.forget_steps();
            refused(NO_CALL)
        }
    }
}

// The tag for what a turn did.
fn turn_code(done: TurnDone) -> u8
    ensures { result ≡ turn_code done }
{
    match done {
        TurnDone::Idle => 0,
        TurnDone::Began => 1,
        TurnDone::Page(_) => 2,
        TurnDone::Synced => 3,
        TurnDone::InForce => 4,
        TurnDone::Swept => 5,
    }
}

// The number of the page that a turn wrote, or 0.
fn turn_page(done: TurnDone) -> u64
    ensures { result ≡ turn_page done }
{
    match done {
        TurnDone::Page(page) => page as u64,
        _ => 0,
    }
}

// The outcome of a turn.
fn turn_outcome(answer: Result<TurnDone, Refusal>) -> LtOutcome
    ensures { result ≡ turn_outcome answer }
{
    match answer {
        Ok(done) => LtOutcome {
            refusal: 0,
            tag: turn_code(done),
            value: turn_page(done),
        },
        Err(refusal) => refused(refusal.number()),
    }
}

// Makes one turn. Returns its outcome for C.
fn turn(image: &mut Image) -> LtOutcome
    ensures { Turns image.old result image.new }
{
    turn_outcome(image.turn())
}

// The outcome of a sweep.
fn sweep_outcome(answer: Result<u32, Refusal>) -> LtOutcome
    ensures { result ≡ sweep_outcome answer }
{
    match answer {
        Ok(swept) => LtOutcome {
            refusal: 0,
            tag: 5,
            value: swept as u64,
        },
        Err(refusal) => refused(refusal.number()),
    }
}

// Makes one sweep. Returns its outcome for C.
fn sweep(image: &mut Image, most: u32) -> LtOutcome
    ensures { SweepsBy image.old most result image.new }
{
    sweep_outcome(image.sweep(most))
}

/// Serves one command. Returns its refusal, and writes its outcome at `outcome`. The caller carries out the steps that
/// it leaves ([`lt_held_steps`]) before it passes the outcome on. The refusals are those of a request and of a
/// confirmation, `JournalFull`, `Device`, and 255 for an unknown tag, which changes nothing.
#[unsafe(no_mangle)]
pub extern "C" fn lt_serve(
    image: LtImage,
    command: &LtCommand,
    next: &mut LtImage,
    outcome: &mut LtOutcome,
) -> u8
    requires some { IsSome image.value }
    ensures served { Becomes image.value next.new.value (λ i n. ServesOne i command.now outcome.new n) }
    ensures refusal { result ≡ outcome.new.refusal }
{
    let mut held = image.into_box();
    let told = serve(&mut held, command);
    *next = LtImage::of_box(held);
    *outcome = told;
    told.refusal
}

/// Makes one turn of a checkpoint. Returns 0, or the number of `Device`. `outcome` says by its tag what the turn did: 0
/// nothing, 1 it began, 2 it wrote the page with the number in `value`, 3 it synced the pages, 4 the written area is in
/// force, 5 it freed slots. The caller carries out the steps that it leaves.
#[unsafe(no_mangle)]
pub extern "C" fn lt_turn(image: LtImage, next: &mut LtImage, outcome: &mut LtOutcome) -> u8
    requires some { IsSome image.value }
    ensures turned { Becomes image.value next.new.value (λ i n. Turns i outcome.new n) }
    ensures refusal { result ≡ outcome.new.refusal }
{
    let mut held = image.into_box();
    *outcome = turn(&mut held);
    *next = LtImage::of_box(held);
    outcome.refusal
}

/// Closes the gates of at most the given number of slots that are to be swept, with one sync. Returns 0, or the number
/// of `Device`. `outcome` has the tag 5, and as `value` the number of those slots, which is 0 while a checkpoint is
/// under way. The caller carries out the steps that it leaves.
#[unsafe(no_mangle)]
pub extern "C" fn lt_sweep(
    image: LtImage,
    most: u32,
    next: &mut LtImage,
    outcome: &mut LtOutcome,
) -> u8
    requires some { IsSome image.value }
    ensures swept { Becomes image.value next.new.value (λ i n. SweepsBy i most outcome.new n) }
    ensures refusal { result ≡ outcome.new.refusal }
{
    let mut held = image.into_box();
    *outcome = sweep(&mut held, most);
    *next = LtImage::of_box(held);
    outcome.refusal
}
