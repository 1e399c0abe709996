//! Groups of commands that the session is lent to. Their answers wait for their ports.
ghost use Rattle.std.specs.Prelude.{◌≡◌, ◌+◌, ◌<◌, ◌≤◌, [], length, IfSome};
ghost use Rattle.{im_engine.specs.Commands.CommandsAnswered, im_trace.specs.Log.SeesAnswer};
ghost use Rattle.im_session.specs.{Keeping.KeepsPut, Keeping.MakesFewCalls, Serving.served_together};
ghost use Rattle.im_queue.specs.Members.{AreFreeFor, AreOneOfEach, AreSureBehind, IsCut};
ghost use Rattle.im_controller.specs.Groups.{CountsAnswer, LendsGroup, MembersAnswered, MembersPut};
ghost use Rattle.im_controller.specs.Planned.{TellsOf};

use crate::admitting::admit;
use crate::keeper::make_room;
use crate::members::keep_all;
use crate::panes::show_put;
use crate::ports::Port;
use crate::shared::Shared;
use arrayvec::ArrayVec;
use im_disk::Disk;
use im_engine::refuse_all;
use im_queue::Inbox;
use im_session::Session;
use im_trace::{Name, Receipt};
use im_types::{Command, MAX_GROUP, Refusal, Served};
use std::sync::{Mutex, Wait};

// Serves all of these: behind the first one, each is sure.
fn serve_each<D: Disk>(
    session: &mut Session<D>,
    members: &ArrayVec<Command, MAX_GROUP>,
    served: &mut ArrayVec<Served, MAX_GROUP>,
)
    requires sure { AreSureBehind session.old.engine.memory members.now.items }
    requires empty { served.old.items ≡ [] }
    ensures answered { CommandsAnswered session.old.engine members.now.items served.new.items session.new.engine }
    ensures put { session.new ≡ served_together session.old members.now.items session.new.engine }
    ensures keeps { KeepsPut D.Disk session.old session.new }
    ensures few { MakesFewCalls D.Disk session.old members.now.items session.new }
{
    // A crash in this call leaves on the disk all that the group puts there, or nothing of it. No answer is given
    // before.
    session.serve_commands_kept(members, served);
}

// Serves all members, if the trace has room for more lines. If it has none, each is refused with `TraceFull`.
fn serve_members<D: Disk>(
    session: &mut Session<D>,
    room: usize,
    members: &ArrayVec<Command, MAX_GROUP>,
    served: &mut ArrayVec<Served, MAX_GROUP>,
)
    requires sure { AreSureBehind session.old.engine.memory members.now.items }
    requires empty { served.old.items ≡ [] }
    ensures answered { MembersAnswered session.old.engine room members.now.items served.new.items session.new.engine }
    ensures put { MembersPut session.old room members.now.items session.new }
    ensures keeps { KeepsPut D.Disk session.old session.new }
    ensures few { MakesFewCalls D.Disk session.old members.now.items session.new }
{
    if !session.engine().failed() && room == 0 {
        return refuse_all(members.as_slice(), Refusal::TraceFull, served);
    }
    // A crash in this call leaves all of the group on the disk, or nothing of it.
    serve_each(session, members, served);
}

// Lends the session to the commands of a group. Each gets what `lend` would answer, one after another.
// The answers wait for their ports, and their lines are counted when the ports take them. What the members change is
// shown once, after all of them are on the disk.
//
// Errors, in this order:
//
// - `Failed` for all members if the engine has failed.
// - `TraceFull` for all members if the trace has no room left.
// - `OffPlan` for each member that a plan doesn't have with its operation under its number. It isn't lent.
// - `NoMemory` for each member for whose change the pane has no room. It isn't lent.
// - What `Engine::serve_commands` answers each: a refusal of numbers, `JournalFull`, or `Device` for all that are lent.
//   `Device` leaves no line. After it the engine has failed, and nothing more is shown.
pub(crate) fn lend_group<D: Disk, K: Name, R: Wait>(
    rt: &R,
    shared: &mut Shared<D, K>,
    members: &ArrayVec<Command, MAX_GROUP>,
)
    requires cut { IsCut members.now.items }
    requires apart { AreOneOfEach members.now.items }
    requires sure { AreSureBehind shared.old.session.engine.memory members.now.items }
    requires free { AreFreeFor shared.old.log.places members.now.items }
    requires room { length shared.old.log.trace < shared.old.log.limit
        → length shared.old.log.trace + length members.now.items ≤ shared.old.log.limit }
    ensures lends { LendsGroup D.Disk K.origin.plan shared.old members.now.items shared.new }
{
    let mut served = ArrayVec::new();
    let room = shared.log.room();
    let engine = shared.session.engine();
    let count = engine.count();
    let memory = engine.memory();
    let _cells = memory.cells(); // So that it is known that its lists of waiters agree with what waits.
    let lent = admit(
        engine,
        &shared.plan,
        &mut shared.log,
        &mut shared.pane,
        members.as_slice(),
    );
    serve_members(&mut shared.session, room, &lent, &mut served);
    let after = shared.session.engine();
    let _told = show_put(rt, &mut shared.pane, after.failed(), true);
    let put = count < after.count(); // Then it shares the syncs of a group.
    keep_all(
        &mut shared.log,
        lent.as_slice(),
        served.as_slice(),
        put,
        after.disk(),
    );
}

// Returns how many members a group may have: as many as the trace and the journal have room for. If one of them has
// none, each member is refused for that.
fn most_members<D: Disk, K: Name>(shared: &Shared<D, K>) -> usize
    ensures { length shared.now.log.trace < shared.now.log.limit
        → length shared.now.log.trace + result ≤ shared.now.log.limit }
{
    let lines = shared.log.room();
    let slots = shared.session.engine().room() as usize;
    if lines == 0 {
        return MAX_GROUP;
    }
    if slots > 0 && slots < lines {
        return slots;
    }
    lines
}

// Serves, group by group, each command that is asked and has a free place for its answer. Makes room before each group.
fn serve_asked<D: Disk, K: Name, R: Wait>(rt: &R, shared: &mut Shared<D, K>, inbox: &Mutex<Inbox>) {
    let asked = inbox.lock(rt).asked();
    let mut from = 0;
    for _ in 0..shared.log.elements() {
        make_room(shared, asked);
        let most = most_members(shared);
        let group = inbox
            .lock(rt)
            .next_group(&shared.log, shared.session.memory(), from, most);
        if group.next == from {
            break;
        }
        from = group.next;
        if !group.members.is_empty() {
            lend_group(rt, shared, &group.members);
        }
    }
}

// Gives a port the answer to its command, if it waits.
fn claim<D: Disk, K: Name>(
    shared: &mut Shared<D, K>,
    port: &mut Port<K>,
    command: &Command,
) -> Option<Result<Receipt<K>, Refusal>>
    ensures holds { CountsAnswer K.origin.marks port.old.told command.now result port.new.told }
    ensures planned { IfSome result (TellsOf K.origin.memory K.origin.plan) }
    ensures order { SeesAnswer port.old.history command.now result port.new.history }
    ensures element { port.new.element ≡ port.old.element }
{
    let told = shared.pane.told();
    shared
        .log
        .claim(told, &mut port.tally, &mut port.seen, command)
}

// Holds the lock once for a port that has asked. Returns the answer to its command if it waits; if it doesn't, serves
// all that is asked and looks again.
pub(crate) fn hold<D: Disk, K: Name, R: Wait>(
    rt: &R,
    shared: &mut Shared<D, K>,
    inbox: &Mutex<Inbox>,
    port: &mut Port<K>,
    command: &Command,
) -> Option<Result<Receipt<K>, Refusal>>
    ensures holds { CountsAnswer K.origin.marks port.old.told command.now result port.new.told }
    ensures planned { IfSome result (TellsOf K.origin.memory K.origin.plan) }
    ensures order { SeesAnswer port.old.history command.now result port.new.history }
    ensures element { port.new.element ≡ port.old.element }
{
    if let Some(answer) = claim(shared, port, command) {
        return Some(answer);
    }
    serve_asked(rt, shared, inbox);
    claim(shared, port, command)
}
