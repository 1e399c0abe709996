//! What receipts say together: they are of one trace, and those of one port are in its own order.
ghost use Rattle.std.specs.Prelude.{[], ◌∷◌, IfOk, Ok};
ghost use Rattle.im_types.specs.Types.{Asks, Commands, IsLegal};
ghost use Rattle.im_controller.specs.Lines.{AreInOrder, GoesOnTo, line_of};

use im_controller::{Controller, Name, Port, Receipt};
use im_disk::Disk;
use im_types::{Op, Refusal};
use std::sync::Wait;

/// Two receipts of a controller are of one trace, whichever threads were told them: their histories are legal, and one
/// is a prefix of the other. Contracts alone see what it says.
pub fn are_in_order<K: Name>(one: &Receipt<K>, two: &Receipt<K>)
    ensures order { AreInOrder one.now.history two.now.history }
    ensures legal { IsLegal K.origin.memory one.now.history × IsLegal K.origin.memory two.now.history }
{
    let _outcomes = (one.outcome(), two.outcome());
    one.history().order(two.history());
}

/// A port asks for two operations, one after the other, each under its number. Where both are answered, the second
/// one's line stands after the whole history of the first one's receipt.
pub fn ask_twice<D: Disk, K: Name, R: Wait>(
    rt: &R,
    controller: &Controller<D, K>,
    port: &mut Port<K>,
    first: (u64, Op),
    second: (u64, Op),
) -> Result<(Receipt<K>, Receipt<K>), Refusal>
    ensures order { IfOk result (λ r. GoesOnTo r.0.history
        (line_of (Commands (Asks (record { element = port.old.element; number = second.0; op = second.1 })))
        (Ok r.1.outcome) ∷ []) r.1.history) }
{
    let earlier = port.submit(rt, controller, first.0, first.1)?;
    let later = port.submit(rt, controller, second.0, second.1)?;
    Ok((earlier, later))
}
