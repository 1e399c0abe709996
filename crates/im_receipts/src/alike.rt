//! Two receipts of one request.
ghost use Rattle.im_types.specs.Types.{Entry, Request};
ghost use Rattle.im_receipts.specs.Alike.{AreToldAlike, GivesEntry};

use im_controller::{Name, Receipt};
use im_promise::traces_tell_a_request_alike;

/// Two receipts of a controller that give one request an entry agree, whichever threads were told them. They are of one
/// line of the trace, or the one with the longer history has the same entry, or the answer that has come since. The
/// request isn't accepted at that later line, so it acted once. Nothing is asked of the memory that was opened.
/// Contracts alone see what the call says.
pub fn told_alike<K: Name>(one: &Receipt<K>, two: &Receipt<K>)
    ensures alike { (r : Request) (first second : Entry) → GivesEntry one.now r first → GivesEntry two.now r second
        → AreToldAlike K.origin.memory r one.now.history first two.now.history second }
{
    let _outcomes = (one.outcome(), two.outcome());
    one.history().order(two.history());
    traces_tell_a_request_alike();
}
