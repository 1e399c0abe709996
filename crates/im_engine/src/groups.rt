//! The members of a group: what is put on the disk for them, how they act, and their answers.
ghost use Rattle.std.specs.Prelude.{◌≡◌, ℕ, ◌+◌, ◌≤◌, true, false, ◌⊎◌, ◌↔◌, [], map, length, OnOk, IsTrue};
ghost use Rattle.std.specs.Prelude.{MatchResult, Some, Ok};
ghost use Rattle.im_types.specs.Types.{Asks, MAX_GROUP, Contents, step, is_accepted, AreOthers, AreApart, as_served};
ghost use Rattle.{im_disk.specs.Moment.Faults, im_disk.specs.Moment.Moment, im_journal.specs.OnDisk.KnownOf};
ghost use Rattle.{im_memory.specs.Covering.most_pages, im_image.specs.Reading.HasSizes};
ghost use Rattle.{im_checkpoint.specs.Keeping.IsKept, im_checkpoint.specs.Keeping.paged};
ghost use Rattle.im_journal.specs.Holding.{AllHold, IsJournal, JournalState, longer};
ghost use Rattle.im_groups.specs.Commands.{answer_with, answers_with, contents_after_all, contents_with, most_pages_at};
ghost use Rattle.im_groups.specs.Commands.{most_pages_with, places, places_behind, takes_place};
ghost use Rattle.im_engine.specs.Commands.{AreJudged, AreParted, each_refused};
ghost use Rattle.im_engine.specs.Groups.{FitsGroup, GroupPut, KeepsAfter, LeavesAllOrNone, StaysBut};

use crate::whole::act_whole;
use arrayvec::ArrayVec;
use im_checkpoint::Checkpoint;
use im_disk::Disk;
use im_journal::Journal;
use im_memory::Memory;
use im_types::{Command, LAST, MAX_GROUP, Outcome, Refusal, Request, Served};
use std::cmp::min;

// Returns whether none of the requests is of this element.
fn are_others(element: u16, members: &[Request]) -> bool
    ensures { IsTrue result ↔ AreOthers element members.now }
{
    for member in members {
        if member.element == element {
            return false;
        }
    }
    true
}

/// Returns whether each element has at most one of the requests, as a group demands of its members.
pub fn are_apart(members: &[Request]) -> bool
    ensures { IsTrue result ↔ AreApart members.now }
{
    let mut rest = members;
    while let Some((first, later)) = rest.split_first() {
        if !are_others(first.element, later) {
            return false;
        }
        rest = later;
    }
    true
}

/// Answers each member with this refusal. (Own.)
pub fn refuse_all(members: &[Command], refusal: Refusal, served: &mut ArrayVec<Served, MAX_GROUP>)
    requires fits { length members.now ≤ MAX_GROUP }
    requires empty { served.old.items ≡ [] }
    ensures { served.new.items ≡ each_refused refusal members.now }
{
    for _member in members {
        served.push(Served::Refused(refusal));
    }
}

/// Returns how many more commands a journal takes. It is limited by the room and by the last count.
pub(crate) fn places_in(journal: &Journal) -> u64
    ensures places { result ≡ places journal.now.count journal.now.room }
    ensures known { IsJournal journal.now }
{
    min(journal.room() as u64, LAST - journal.count())
}

/// Turns the requests of a group into commands. (Own.)
pub fn commands_of(members: &[Request], commands: &mut ArrayVec<Command, MAX_GROUP>)
    requires fits { length members.now ≤ MAX_GROUP }
    requires empty { commands.old.items ≡ [] }
    ensures { commands.new.items ≡ map Asks members.now }
{
    for member in members {
        commands.push(Command::Request(*member));
    }
}

/// Puts the commands on the disk as one group. It does nothing if there are none.
pub(crate) fn put_on<D: Disk>(
    journal: &mut Journal,
    disk: &mut D,
    commands: &[Command],
) -> Result<(), Refusal>
    requires fits { FitsGroup journal.old commands.now }
    requires holds { KnownOf D.Disk disk.old (AllHold journal.old) }
    ensures leaves { D.honest disk.new → LeavesAllOrNone D.Disk journal.old commands.now disk.old disk.new }
    ensures kept { OnOk result (D.honest disk.new
        → KeepsAfter D.Disk journal.old commands.now disk.old disk.new journal.new) }
    ensures state { MatchResult result (λ _. journal.new ≡ longer (length commands.now) journal.old)
        (λ _. journal.new ≡ journal.old) }
    ensures calls { GroupPut D.past (D.honest disk.new) disk.old disk.new commands.now result }
    ensures faults { Faults (λ e. e ≡ Refusal.Device) result (D.failures disk.old) (D.failures disk.new) }
    ensures honest { D.honest disk.new → D.honest disk.old }
{
    if commands.is_empty() {
        return Ok(());
    }
    // A stop in it leaves all the commands on the disk, or none: no answer is given before.
    journal.append_group(disk, commands)
}

// Lets an accepted command act. The disk already has it.
fn act(
    checkpoint: &mut Checkpoint,
    memory: &mut Memory,
    command: &Command,
) -> Result<Outcome, Refusal>
    requires sizes { HasSizes checkpoint.old.state.header.sizes memory.old.contents }
    requires accepted { is_accepted memory.old.contents command.now ≡ true }
    ensures answer { result ≡ (step memory.old.contents command.now).answer }
    ensures contents { memory.new.contents ≡ (step memory.old.contents command.now).contents }
    ensures sizes { HasSizes checkpoint.new.state.header.sizes memory.new.contents }
    ensures stays { StaysBut (most_pages memory.old.contents command.now) checkpoint.old checkpoint.new }
    ensures kept { (m : Contents) (j : JournalState) (now : Moment)
        → IsKept checkpoint.old.state (paged checkpoint.old memory.old) m j now
        → IsKept checkpoint.new.state (paged checkpoint.new memory.new) m j now }
{
    // If a checkpoint still has to write a page, it needs the page as it was before the command.
    checkpoint.before(memory, command);
    memory.accept(command)
}

// Lets a member act that takes a place.
fn act_taken(
    checkpoint: &mut Checkpoint,
    memory: &mut Memory,
    left: &mut u64,
    command: &Command,
) -> Result<Outcome, Refusal>
    requires sizes { HasSizes checkpoint.old.state.header.sizes memory.old.contents }
    requires taken { takes_place memory.old.contents left.old command.now ≡ true }
    ensures answer { result ≡ answer_with memory.old.contents left.old command.now }
    ensures contents { memory.new.contents ≡ contents_with memory.old.contents left.old command.now }
    ensures left { left.new ≡ places_behind memory.old.contents left.old command.now }
    ensures sizes { HasSizes checkpoint.new.state.header.sizes memory.new.contents }
    ensures stays { StaysBut (most_pages_at memory.old.contents left.old command.now) checkpoint.old checkpoint.new }
    ensures kept { (m : Contents) (j : JournalState) (now : Moment)
        → IsKept checkpoint.old.state (paged checkpoint.old memory.old) m j now
        → IsKept checkpoint.new.state (paged checkpoint.new memory.new) m j now }
{
    let less = left.saturating_sub(1);
    *left = less;
    act(checkpoint, memory, command)
}

// Answers a member that takes no place. Nothing changes.
fn answer_alone(memory: &mut Memory, left: u64, command: &Command) -> Result<Outcome, Refusal>
    requires { takes_place memory.old.contents left command.now ≡ false }
    ensures answer { result ≡ answer_with memory.old.contents left command.now }
    ensures same { memory.new ≡ memory.old }
{
    match memory.judge(command) {
        Ok(true) => Err(Refusal::JournalFull),
        Ok(false) => memory.step(command),
        Err(refusal) => Err(refusal),
    }
}

// Lets one member act, or answers it without acting.
fn act_one(
    checkpoint: &mut Checkpoint,
    memory: &mut Memory,
    left: &mut u64,
    taken: bool,
    command: &Command,
) -> Result<Outcome, Refusal>
    requires sizes { HasSizes checkpoint.old.state.header.sizes memory.old.contents }
    requires taken { taken ≡ takes_place memory.old.contents left.old command.now }
    ensures answer { result ≡ answer_with memory.old.contents left.old command.now }
    ensures contents { memory.new.contents ≡ contents_with memory.old.contents left.old command.now }
    ensures left { left.new ≡ places_behind memory.old.contents left.old command.now }
    ensures sizes { HasSizes checkpoint.new.state.header.sizes memory.new.contents }
    ensures stays { StaysBut (most_pages_at memory.old.contents left.old command.now) checkpoint.old checkpoint.new }
    ensures kept { (m : Contents) (j : JournalState) (now : Moment)
        → IsKept checkpoint.old.state (paged checkpoint.old memory.old) m j now
        → IsKept checkpoint.new.state (paged checkpoint.new memory.new) m j now }
{
    if taken {
        act_taken(checkpoint, memory, left, command)
    } else {
        answer_alone(memory, *left, command)
    }
}

/// Turns an answer of the memory into a member's answer.
#[inline(always)]
pub(crate) fn as_served(answer: Result<Outcome, Refusal>) -> Served
    ensures { result ≡ as_served answer }
{
    match answer {
        Ok(outcome) => Served::Done(outcome),
        Err(refusal) => Served::Refused(refusal),
    }
}

/// The members of a group: whether all of them take places, and if not, of each whether it does.
#[derive(Clone, Copy)]
pub(crate) struct Members<'a> {
    pub(crate) all: &'a [Command],
    pub(crate) whole: bool,
    pub(crate) taken: &'a [bool],
}

// Lets members act in their order of which some take no place.
#[inline(never)]
fn act_each(
    checkpoint: &mut Checkpoint,
    memory: &mut Memory,
    places: u64,
    members: &Members,
    served: &mut ArrayVec<Served, MAX_GROUP>,
)
    requires told { AreParted memory.old.contents places members.now.all.now members.now.taken.now }
    requires empty { served.old.items ≡ [] }
    requires sizes { HasSizes checkpoint.old.state.header.sizes memory.old.contents }
    ensures answers { served.new.items
        ≡ map as_served (answers_with memory.old.contents places members.now.all.now) }
    ensures contents { memory.new.contents ≡ contents_after_all memory.old.contents places members.now.all.now }
    ensures sizes { HasSizes checkpoint.new.state.header.sizes memory.new.contents }
    ensures stays { StaysBut (most_pages_with memory.old.contents places members.now.all.now)
        checkpoint.old checkpoint.new }
    ensures kept { (m : Contents) (j : JournalState) (now : Moment)
        → IsKept checkpoint.old.state (paged checkpoint.old memory.old) m j now
        → IsKept checkpoint.new.state (paged checkpoint.new memory.new) m j now }
{
    let mut left = places;
    for i in 0..members.all.len() {
        let taken = members.taken[i];
        let answer = act_one(checkpoint, memory, &mut left, taken, &members.all[i]);
        served.push(as_served(answer));
    }
}

/// Lets all members act in their order. The disk already has the commands of those that are accepted and have a place.
pub(crate) fn act_all(
    checkpoint: &mut Checkpoint,
    memory: &mut Memory,
    places: u64,
    members: &Members,
    served: &mut ArrayVec<Served, MAX_GROUP>,
)
    requires judged { AreJudged memory.old.contents places
        members.now.all.now members.now.whole members.now.taken.now }
    requires empty { served.old.items ≡ [] }
    requires sizes { HasSizes checkpoint.old.state.header.sizes memory.old.contents }
    ensures answers { served.new.items
        ≡ map as_served (answers_with memory.old.contents places members.now.all.now) }
    ensures contents { memory.new.contents ≡ contents_after_all memory.old.contents places members.now.all.now }
    ensures sizes { HasSizes checkpoint.new.state.header.sizes memory.new.contents }
    ensures stays { StaysBut (most_pages_with memory.old.contents places members.now.all.now)
        checkpoint.old checkpoint.new }
    ensures kept { (m : Contents) (j : JournalState) (now : Moment)
        → IsKept checkpoint.old.state (paged checkpoint.old memory.old) m j now
        → IsKept checkpoint.new.state (paged checkpoint.new memory.new) m j now }
{
    if members.whole {
        act_whole(checkpoint, memory, places, members.all, served);
    } else {
        act_each(checkpoint, memory, places, members, served);
    }
}
