//! The times of two receipts.
ghost use Rattle.im_receipts.specs.Timed.{AreInTime};

use im_controller::{Controller, Finished, Name, Port, Receipt, finish_kept};
use im_disk::Disk;
use std::sync::Wait;

/// Ends a controller as [`finish`] does, and says of two receipts that any of its threads were told: if the history of
/// the first one begins that of the second, the first one's time is no later. So no command is on the disk sooner, as
/// far as its receipt tells, than one before it in the trace. Contracts alone see it.
pub fn finish_with_two<D: Disk, K: Name, R: Wait>(
    rt: &R,
    controller: Controller<D, K>,
    ports: Vec<Port<K>>,
    one: &Receipt<K>,
    two: &Receipt<K>,
) -> Finished<D>
    ensures order { AreInTime D.Disk one.now two.now result.session.engine.disk }
{
    let Finished {
        session,
        mut trace,
        came,
        left,
        claimed,
    } = finish_kept(rt, controller, ports);
    trace.knows(two.history());
    trace.times(one.when());
    trace.times(two.when());
    Finished {
        session,
        trace,
        came,
        left,
        claimed,
    }
}
