//! A request that is sent again, over a crash of the caller.
ghost use Rattle.std.specs.Prelude.{◌≡◌, IfOk, IfErr, Ok};
ghost use Rattle.{im_types.specs.Types.Entry, im_types.specs.Types.Tells, im_laws.specs.Requests.after_request};
ghost use Rattle.im_listed.specs.Image.{IsWant, MayLeaveBetween};

use crate::image::Image;
use im_engine::files_mean_one_thing;
use im_laws::{accepted_where_changed, number_acts_once};
use im_types::{Command, Outcome, Refusal, Request};
use std::alloc::Global;

/// The image that a crash left, after the request was sent again.
#[derive(Drop)]
pub struct Resent {
    /// The answer to the request.
    pub answer: Result<Outcome, Refusal>,
    /// The image after it.
    pub image: Image,
}

/// Sends a request to an image, opens a file, and sends the request again. The first image is returned with the steps
/// of its call.
///
/// The clauses are about each file that a crash may leave on the way: after a beginning of those steps, or after all of
/// them. If the request is told an entry then, it has acted once, whatever its first answer was. No such file is
/// refused for a fault: a refusal is `NoMemory`, or `Device` if a list couldn't grow.
pub fn send_over_steps(
    alloc: Global,
    mut image: Image,
    request: Request,
    file: Vec<u8>,
) -> (Image, Result<Resent, Refusal>)
    ensures once { IfOk result.1 (λ r. MayLeaveBetween image result.0 file.items
        → (entry : Entry) → r.answer ≡ Ok (Tells entry)
        → r.image.engine.memory ≡ after_request image.engine.memory request) }
    ensures refused { IfErr result.1 (λ e. MayLeaveBetween image result.0 file.items → IsWant e) }
{
    files_mean_one_thing();
    number_acts_once();
    accepted_where_changed();
    let command = Command::Request(request);
    // A crash on the way leaves it in the file or not.
    let _first = image.serve(&command);
    match Image::open(alloc, file) {
        Ok(mut opened) => {
            let answer = opened.serve(&command);
            let resent = Resent {
                answer,
                image: opened,
            };
            (image, Ok(resent))
        }
        Err(refusal) => (image, Err(refusal)),
    }
}
