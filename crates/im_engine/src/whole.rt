//! How the members of a group act if all of them take places.
ghost use Rattle.std.specs.Prelude.{◌≡◌, ◌<◌, true, [], ◌∷◌, ◌++◌, map, length};
ghost use Rattle.im_types.specs.Types.{MAX_GROUP, Contents, step, is_accepted, as_served};
ghost use Rattle.{im_disk.specs.Moment.Moment, im_memory.specs.Covering.most_pages, im_image.specs.Reading.HasSizes};
ghost use Rattle.im_journal.specs.Holding.{JournalState};
ghost use Rattle.im_groups.specs.Commands.{answer_with, answers_with, contents_after_all, contents_with, most_pages_at};
ghost use Rattle.im_groups.specs.Commands.{most_pages_with, places_behind, takes_place};
ghost use Rattle.im_checkpoint.specs.Keeping.{IsKept, paged};
ghost use Rattle.im_engine.specs.{Commands.AreWhole, Groups.StaysBut};

use crate::groups::as_served;
use arrayvec::ArrayVec;
use im_checkpoint::Checkpoint;
use im_memory::Memory;
use im_types::{Command, MAX_GROUP, Outcome, Served};

// Lets an accepted command act, and adds its answer. The disk already has it. What a request is answered goes to its
// place at once, with no result between.
#[inline(always)]
fn tell(
    checkpoint: &mut Checkpoint,
    memory: &mut Memory,
    command: &Command,
    served: &mut ArrayVec<Served, MAX_GROUP>,
)
    requires room { length served.old.items < MAX_GROUP }
    requires sizes { HasSizes checkpoint.old.state.header.sizes memory.old.contents }
    requires accepted { is_accepted memory.old.contents command.now ≡ true }
    ensures answer { served.new.items
        ≡ served.old.items ++ as_served (step memory.old.contents command.now).answer ∷ [] }
    ensures contents { memory.new.contents ≡ (step memory.old.contents command.now).contents }
    ensures sizes { HasSizes checkpoint.new.state.header.sizes memory.new.contents }
    ensures stays { StaysBut (most_pages memory.old.contents command.now) checkpoint.old checkpoint.new }
    ensures kept { (m : Contents) (j : JournalState) (now : Moment)
        → IsKept checkpoint.old.state (paged checkpoint.old memory.old) m j now
        → IsKept checkpoint.new.state (paged checkpoint.new memory.new) m j now }
{
    // If a checkpoint still has to write a page, it needs the page as it was before the command.
    checkpoint.before(memory, command);
    match command {
        Command::Request(request) => {
            let entry = memory.accept_request(request);
            served.push(Served::Done(Outcome::Entry(entry)));
        }
        Command::Confirm { .. } => served.push(as_served(memory.accept(command))),
    }
}

// Lets a member act that takes a place, and adds its answer.
#[inline(always)]
fn tell_taken(
    checkpoint: &mut Checkpoint,
    memory: &mut Memory,
    left: &mut u64,
    command: &Command,
    served: &mut ArrayVec<Served, MAX_GROUP>,
)
    requires room { length served.old.items < MAX_GROUP }
    requires sizes { HasSizes checkpoint.old.state.header.sizes memory.old.contents }
    requires taken { takes_place memory.old.contents left.old command.now ≡ true }
    ensures answer { served.new.items
        ≡ served.old.items ++ as_served (answer_with memory.old.contents left.old command.now) ∷ [] }
    ensures behind { (memory.new.contents ≡ contents_with memory.old.contents left.old command.now)
        × (left.new ≡ places_behind memory.old.contents left.old command.now) }
    ensures sizes { HasSizes checkpoint.new.state.header.sizes memory.new.contents }
    ensures stays { StaysBut (most_pages_at memory.old.contents left.old command.now) checkpoint.old checkpoint.new }
    ensures kept { (m : Contents) (j : JournalState) (now : Moment)
        → IsKept checkpoint.old.state (paged checkpoint.old memory.old) m j now
        → IsKept checkpoint.new.state (paged checkpoint.new memory.new) m j now }
{
    let less = left.saturating_sub(1);
    *left = less;
    tell(checkpoint, memory, command, served);
}

/// Lets members act in their order that all take places. The disk already has their commands.
#[inline(always)]
pub(crate) fn act_whole(
    checkpoint: &mut Checkpoint,
    memory: &mut Memory,
    places: u64,
    members: &[Command],
    served: &mut ArrayVec<Served, MAX_GROUP>,
)
    requires whole { AreWhole memory.old.contents places members.now }
    requires empty { served.old.items ≡ [] }
    requires sizes { HasSizes checkpoint.old.state.header.sizes memory.old.contents }
    ensures answers { served.new.items ≡ map as_served (answers_with memory.old.contents places members.now) }
    ensures contents { memory.new.contents ≡ contents_after_all memory.old.contents places members.now }
    ensures sizes { HasSizes checkpoint.new.state.header.sizes memory.new.contents }
    ensures stays { StaysBut (most_pages_with memory.old.contents places members.now) checkpoint.old checkpoint.new }
    ensures kept { (m : Contents) (j : JournalState) (now : Moment)
        → IsKept checkpoint.old.state (paged checkpoint.old memory.old) m j now
        → IsKept checkpoint.new.state (paged checkpoint.new memory.new) m j now }
{
    let mut left = places;
    for i in 0..members.len() {
        tell_taken(checkpoint, memory, &mut left, &members[i], served);
    }
}
