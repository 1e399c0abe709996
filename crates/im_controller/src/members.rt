//! What the members of a group are answered, and how their answers wait for their ports.
ghost use Rattle.std.specs.Prelude.{◌≡◌, ◌+◌, ◌≤◌, map, length};
ghost use Rattle.{im_types.specs.Types.end_of, im_session.specs.Serving.served_answer, im_trace.specs.Log.GoesOnAt};
ghost use Rattle.im_queue.specs.Members.{AreFreeFor, AreOneOfEach};
ghost use Rattle.im_controller.specs.Groups.{AreAnswersTo, lines_left, memory_after_all, with_all_unclaimed};

use im_disk::Disk;
use im_session::served_answer;
use im_trace::{Log, Name};
use im_types::{Command, Served};

// Keeps the answers of the members for their ports, in order, at the time of the disk. With the first one a group may
// begin.
pub(crate) fn keep_all<D: Disk, K: Name>(
    log: &mut Log<K>,
    members: &[Command],
    served: &[Served],
    begins: bool,
    disk: &D,
)
    requires whole { length served.now ≡ length members.now }
    requires are_so { AreAnswersTo (end_of K.origin.memory log.old.state.trace) members.now
        (map served_answer served.now) }
    requires apart { AreOneOfEach members.now }
    requires free { AreFreeFor log.old.state.places members.now }
    requires room { length log.old.state.trace + lines_left (map served_answer served.now) ≤ log.old.state.limit }
    ensures log { log.new.state ≡ with_all_unclaimed log.old.state members.now (map served_answer served.now) }
    ensures times { GoesOnAt (length (D.past disk.now)) log.old log.new }
    ensures end { end_of K.origin.memory log.new.state.trace
        ≡ memory_after_all (end_of K.origin.memory log.old.state.trace) members.now (map served_answer served.now) }
{
    for i in 0..members.len() {
        log.keep(
            &members[i],
            served_answer(served[i]),
            begins && i == 0,
            disk,
        );
    }
}
