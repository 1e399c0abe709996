//! A chain of groups from what is asked of an image, for C.
ghost use Rattle.std.specs.Prelude.{◌≡◌, ◌≤◌, false, [], IfOk, IsSome};
ghost use Rattle.im_types.specs.Types.{MAX_GROUP};
ghost use Rattle.im_c.specs.{Asked.advanced, Asked.advanced_by, Asked.AdvancesBy, Asked.GoesOnBy, Handing.Becomes};

use crate::asked::{LtAdvanced, LtTold, tell_first};
use crate::image::LtImage;
use crate::plain::NO_CALL;
use arrayvec::ArrayVec;
use im_front::ToldAnswer;
use im_listed::Image;
use im_types::{MAX_GROUP, Refusal};

// Nothing was done, for this reason.
fn refused_with(number: u8) -> LtAdvanced
    ensures { result ≡ advanced number 0 0 }
{
    LtAdvanced {
        refusal: number,
        ahead: 0,
        answered: 0,
    }
}

// What a call did that told so many.
fn advanced_by(ahead: Result<usize, Refusal>, answered: usize) -> LtAdvanced
    requires few { answered ≤ MAX_GROUP }
    requires within { IfOk ahead (λ many. many ≤ MAX_GROUP) }
    ensures { result ≡ advanced_by ahead answered }
{
    match ahead {
        Ok(many) => LtAdvanced {
            refusal: 0,
            ahead: many as u8,
            answered: answered as u8,
        },
        Err(refusal) => LtAdvanced {
            refusal: refusal.number(),
            ahead: 0,
            answered: answered as u8,
        },
    }
}

// Goes on with the chain, or answers the first that is asked alone if nothing is ahead and there is no place.
fn go_on(image: &mut Image, told: &mut ArrayVec<ToldAnswer, MAX_GROUP>) -> Result<usize, Refusal>
    requires empty { told.old.items ≡ [] }
    requires works { image.old.lost ≡ false }
    ensures tells { GoesOnBy image.old result told.new.items image.new }
    ensures works { image.old.engine.failed ≡ false }
    ensures within { IfOk result (λ many. many ≤ MAX_GROUP) }
{
    if image.has_no_room() {
        image.answer_first(told);
        return Ok(0);
    }
    image.advance(told)
}

// Tells those that were ahead, at the first places, and puts the next ones ahead.
fn advance(image: &mut Image, places: &mut [LtTold]) -> LtAdvanced
    ensures { AdvancesBy image.old places.old result places.new image.new }
{
    if places.len() != MAX_GROUP {
        image.forget_steps();
        return refused_with(NO_CALL);
    }
    if image.is_lost() {
        return refused_with(Refusal::Device.number());
    }
    let mut told = ArrayVec::new();
    let ahead = go_on(image, &mut told);
    tell_first(told.as_slice(), places);
    advanced_by(ahead, told.len())
}

/// Lets those that are ahead act, tells them at the first of 16 places, and puts up to 16 of those ahead that are asked
/// behind them, by one sync for both. So a chain of n groups needs n + 1 syncs.
///
/// What is ahead has no effect yet, and stays asked until it is told. Those that are put are the first ones behind, as
/// many as there is room for, up to a confirmation of which it isn't known, before those that were ahead act, that each
/// entry that it would drop is answered. A call that serves commands acts before what is asked; if it puts some on the
/// disk, those that were ahead have to be put ahead again. A turn and a sweep keep what is ahead.
///
/// If nothing is ahead and there is no room, the first that is asked is told alone: a repeat as before, and
/// `JournalFull` if it would change the memory. If the list of steps can't grow, the refusal is the number of `Device`,
/// and so is each outcome that is told.
///
/// Returns 0, or the number of the refusal; `done` has it too. It is the number of `Device` if a step was lost before,
/// and 255 if there aren't 16 places. Then nobody is told.
#[unsafe(no_mangle)]
pub extern "C" fn lt_front_advance(
    image: LtImage,
    next: &mut LtImage,
    done: &mut LtAdvanced,
    told: &mut [LtTold],
) -> u8
    requires some { IsSome image.value }
    ensures advanced { Becomes image.value next.new.value (λ i n. AdvancesBy i told.old done.new told.new n) }
    ensures refusal { result ≡ done.new.refusal }
{
    let mut held = image.into_box();
    let did = advance(&mut held, told);
    *next = LtImage::of_box(held);
    *done = did;
    did.refusal
}
