//! Which members of a group are lent: those that the plan has, if it is asked, and for whose changes the pane has room.
ghost use Rattle.std.specs.Prelude.{◌≡◌, ◌<◌, ◌≤◌, true, ◌++◌, length, OnOk, OnErr, MatchResult, Some, None};
ghost use Rattle.im_types.specs.Types.{Command, MAX_GROUP, Contents};
ghost use Rattle.im_groups.specs.Commands.{places_behind, takes_place};
ghost use Rattle.im_queue.specs.Members.{AreFreeFor, AreOneOfEach};
ghost use Rattle.im_controller.specs.Admitted.{Admits, free_lines, is_asked, is_off, IsVerdict, places_with};
ghost use Rattle.im_controller.specs.{Groups.changes_put_all, Lends.changes_put};

use crate::panes::put_ahead;
use crate::plans::has_command;
use arrayvec::ArrayVec;
use im_disk::Disk;
use im_engine::Engine;
use im_glass::{Pane, PaneName};
use im_memory::Memory;
use im_planning::Plan;
use im_trace::{Log, Name};
use im_types::{Command, MAX_GROUP, Refusal};

// Returns how many commands an engine takes, and 0 if it has failed or the trace has no room.
fn places_with<D: Disk>(engine: &Engine<D>, room: usize) -> u64
    ensures { result ≡ places_with engine.now room }
{
    if engine.failed() {
        return 0;
    }
    if room == 0 {
        return 0;
    }
    engine.places()
}

// Returns the places that are left after a member that is lent.
fn places_behind(taken: bool, left: u64) -> u64
    ensures { (m : Contents) (c : Command) → taken ≡ takes_place m left c → result ≡ places_behind m left c }
{
    if taken {
        return left.saturating_sub(1);
    }
    left
}

// Returns whether the plan is asked. It isn't if all members are refused for another reason.
fn is_asked<D: Disk>(engine: &Engine<D>, room: usize) -> bool
    ensures { result ≡ is_asked engine.now room }
{
    if engine.failed() {
        return false;
    }
    0 < room
}

// Returns whether the plan is asked and doesn't have a member.
fn is_off(plan: &Option<Plan>, asked: bool, member: &Command) -> bool
    ensures { result ≡ is_off plan.now asked member.now }
{
    asked && !has_command(plan, member)
}

// Judges a member by whether it is off the plan, and by whether the pane has room for its change, which is put ahead.
// Returns whether it is put on the disk, or why it isn't lent.
fn judge<J: PaneName>(
    is_off: bool,
    pane: &mut Pane<J>,
    memory: &Memory,
    left: u64,
    member: &Command,
) -> Result<bool, Refusal>
    requires cells { pane.old.cells ≡ length memory.now.contents.cells }
    ensures verdict { let takes = takes_place memory.now.contents left member.now in MatchResult result
        (λ taken. (taken ≡ takes) × IsVerdict is_off takes None)
        (λ refusal. IsVerdict is_off takes (Some refusal)) }
    ensures ahead { OnOk result (pane.new ≡ record pane.old {
      ahead = pane.old.ahead ++ changes_put memory.now.contents left member.now;
    }) }
    ensures same { OnErr result (pane.new ≡ pane.old) }
{
    if is_off {
        return Err(Refusal::OffPlan);
    }
    put_ahead(pane, memory, left, member)
}

// Judges the members of a group, one after another. Returns those that are lent. The refusals of the others wait for
// their ports, and leave no line.
pub(crate) fn admit<D: Disk, K: Name, J: PaneName>(
    engine: &Engine<D>,
    plan: &Option<Plan>,
    log: &mut Log<K>,
    pane: &mut Pane<J>,
    members: &[Command],
) -> ArrayVec<Command, MAX_GROUP>
    requires cells { pane.old.cells ≡ length engine.now.memory.cells }
    requires fits { length members.now ≤ MAX_GROUP }
    requires apart { AreOneOfEach members.now }
    requires free { AreFreeFor log.old.state.places members.now }
    ensures admits { Admits plan.now engine.now log.old.state members.now result.items log.new.state }
    ensures times { log.new.times ≡ log.old.times }
    ensures ahead { pane.new ≡ record pane.old {
      ahead = pane.old.ahead
          ++ changes_put_all engine.now.memory (places_with engine.now (free_lines log.old.state)) result.items;
    } }
{
    let room = log.room();
    let asked = is_asked(engine, room);
    let memory = engine.memory();
    let mut left = places_with(engine, room);
    let mut lent = ArrayVec::new();
    for i in 0..members.len() {
        let member = members[i];
        let is_off = is_off(plan, asked, &member);
        match judge(is_off, pane, memory, left, &member) {
            Ok(taken) => {
                left = places_behind(taken, left);
                lent.push(member);
            }
            Err(refusal) => log.keep(&member, Err(refusal), false, engine.disk()),
        }
    }
    lent
}
