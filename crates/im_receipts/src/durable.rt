//! What a receipt tells is on the disk from then on, and so is an entry that was found.
ghost use Rattle.std.specs.Prelude.{◌≡◌};
ghost use Rattle.im_controller.specs.{Chains.IsOpened, Kept.IsSessionOf, Kept.KeptSince, Lines.time_at};
ghost use Rattle.im_receipts.specs.Durable.{StaysDurable, StaysFound};
ghost use mathlib.Core.List.{IsPrefix};

use im_controller::{Controller, Finished, Found, Name, Port, Prefix, Receipt, When, finish_kept};
use im_disk::Disk;
use im_laws::{entry_lasts, repeat_is_told_again};
use std::sync::Wait;

// Ends a controller, and compares its trace with a history that one of its threads has seen, and with a line's time.
fn finish_with<D: Disk, K: Name, R: Wait>(
    rt: &R,
    controller: Controller<D, K>,
    ports: Vec<Port<K>>,
    history: &Prefix<K>,
    when: &When<K>,
) -> Finished<D>
    ensures begins { IsPrefix history.now result.trace.items }
    ensures time { when.now.time ≡ time_at result.trace.times when.now.lines }
    ensures put { IsSessionOf D.Disk K.origin result.trace.items result.session }
    ensures keeps { KeptSince D.Disk K.origin result.trace.items result.trace.times result.session }
    ensures memory { IsOpened K.origin.memory }
{
    let Finished {
        session,
        mut trace,
        came,
        left,
        claimed,
    } = finish_kept(rt, controller, ports);
    history.order(history);
    trace.knows(history);
    trace.times(when);
    Finished {
        session,
        trace,
        came,
        left,
        claimed,
    }
}

/// Ends a controller as [`finish`] does, and says of a receipt that any of its threads was told: each file that a crash
/// may have left from the receipt's time on means the memory after its history's accepted commands, and perhaps after
/// commands accepted later. In that memory a request that the receipt gives an entry is told it again, or the answer
/// that has come since, unless its element confirmed it. That holds whether the trace was recorded or not, and whether
/// a call of the disk failed later. Contracts alone see it.
pub fn finish_with_receipt<D: Disk, K: Name, R: Wait>(
    rt: &R,
    controller: Controller<D, K>,
    ports: Vec<Port<K>>,
    receipt: &Receipt<K>,
) -> Finished<D>
    ensures keeps { StaysDurable D.Disk K.origin result.trace.items receipt.now result.session }
{
    let _outcome = receipt.outcome();
    repeat_is_told_again();
    finish_with(rt, controller, ports, receipt.history(), receipt.when())
}

/// Ends a controller as [`finish`] does, and says of an entry that any of its threads found: each file that a crash may
/// have left from that collect's time on means the memory after its history's accepted commands, and perhaps after
/// commands accepted later. In that memory the number has the entry that was found, or the answer that has come since,
/// unless its element confirmed it. That holds as [`finish_with_receipt`] says. Contracts alone see it.
pub fn finish_with_found<D: Disk, K: Name, R: Wait>(
    rt: &R,
    controller: Controller<D, K>,
    ports: Vec<Port<K>>,
    found: &Found<K>,
) -> Finished<D>
    ensures keeps { StaysFound D.Disk K.origin result.trace.items found.now result.session }
{
    entry_lasts();
    let finished = finish_with(rt, controller, ports, found.history(), found.when());
    let _entry = found.entry();
    finished
}
