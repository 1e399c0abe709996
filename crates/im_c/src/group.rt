//! A group of commands on an image, for C.
ghost use Rattle.std.specs.Prelude.{◌≡◌, ◌+◌, ◌<◌, ◌≤◌, ◌↔◌, [], ◌++◌, map, length, replicate, IsSome, IsTrue};
ghost use Rattle.im_types.specs.Types.{MAX_GROUP};
ghost use Rattle.im_c.specs.{Group.all_meant, Group.first_unknown, Group.IsGroup, Group.listed, Group.outcome_served};
ghost use Rattle.im_c.specs.{Group.outcomes_of, Group.ServesGroup, Group.unserved, Handing.Becomes, Plain.meant};

use crate::image::LtImage;
use crate::plain::{LtCommand, LtOutcome, NO_CALL, UNSERVED, meant, outcome_of, refused};
use arrayvec::ArrayVec;
use im_listed::Image;
use im_types::{Command, MAX_GROUP, Refusal, Served};

// Adds the command that is meant, if there is one.
fn add_command(command: &LtCommand, members: &mut ArrayVec<Command, MAX_GROUP>)
    requires room { length members.old.items < MAX_GROUP }
    ensures { members.new.items ≡ members.old.items ++ listed (meant command.now) }
{
    match meant(command) {
        Some(command) => members.push(command),
        None => {}
    }
}

// The commands that are meant.
fn gather(commands: &[LtCommand], members: &mut ArrayVec<Command, MAX_GROUP>)
    requires few { length commands.now ≤ MAX_GROUP }
    requires empty { members.old.items ≡ [] }
    ensures { members.new.items ≡ all_meant commands.now }
{
    let mut rest = commands;
    while let Some((command, later)) = rest.split_first() {
        add_command(command, members);
        rest = later;
    }
}

// Whether these are a group, with one place for each outcome. Then `members` are its commands.
fn gathered(
    commands: &[LtCommand],
    places: usize,
    members: &mut ArrayVec<Command, MAX_GROUP>,
) -> bool
    requires empty { members.old.items ≡ [] }
    ensures group { IsTrue result ↔ IsGroup commands.now places }
    ensures members { IsTrue result → members.new.items ≡ all_meant commands.now }
{
    if commands.is_empty() {
        return false;
    }
    if commands.len() > MAX_GROUP {
        return false;
    }
    if places != commands.len() {
        return false;
    }
    gather(commands, members);
    members.len() == commands.len()
}

// The index of the first that means no command.
fn first_unknown(commands: &[LtCommand]) -> usize
    ensures { result ≡ first_unknown commands.now }
{
    let mut rest = commands;
    let mut place = 0;
    while let Some((command, later)) = rest.split_first() {
        match meant(command) {
            Some(_) => place += 1,
            None => return place,
        }
        rest = later;
    }
    place
}

/// The outcome for a member's answer.
pub(crate) fn outcome_served(served: Served) -> LtOutcome
    ensures { result ≡ outcome_served served }
{
    match served {
        Served::Unserved => refused(UNSERVED),
        Served::Done(outcome) => outcome_of(Ok(outcome)),
        Served::Refused(refusal) => outcome_of(Err(refusal)),
    }
}

// The outcomes for the answers.
fn spell_all(served: &[Served], outcomes: &mut ArrayVec<LtOutcome, MAX_GROUP>)
    requires few { length served.now ≤ MAX_GROUP }
    requires empty { outcomes.old.items ≡ [] }
    ensures { outcomes.new.items ≡ map outcome_served served.now }
{
    for answer in served {
        outcomes.push(outcome_served(*answer));
    }
}

// Adds the outcomes of this many members that aren't served.
fn add_unserved(count: usize, outcomes: &mut ArrayVec<LtOutcome, MAX_GROUP>)
    requires room { length outcomes.old.items + count ≤ MAX_GROUP }
    ensures { outcomes.new.items ≡ outcomes.old.items ++ replicate count unserved }
{
    for _ in 0..count {
        outcomes.push(refused(UNSERVED));
    }
}

// Writes the outcomes of the members: of those that are served, and of the others.
fn tell_all(served: &[Served], places: &mut [LtOutcome])
    requires few { length served.now ≤ length places.old }
    requires most { length places.old ≤ MAX_GROUP }
    ensures { places.new ≡ outcomes_of (length places.old) served.now }
{
    let mut outcomes = ArrayVec::new();
    spell_all(served, &mut outcomes);
    add_unserved(places.len() - served.len(), &mut outcomes);
    places.copy_from_slice(outcomes.as_slice());
}

// Serves a group. Returns 0, or the number of the refusal.
fn serve_group(image: &mut Image, commands: &[LtCommand], outcomes: &mut [LtOutcome]) -> u8
    ensures { ServesGroup image.old commands.now outcomes.old result outcomes.new image.new }
{
    let mut members = ArrayVec::new();
    if !gathered(commands, outcomes.len(), &mut members) {
        image.forget_steps();
        return NO_CALL;
    }
    if image.is_lost() {
        return Refusal::Device.number();
    }
    let mut served = ArrayVec::new();
    image.serve_commands(&members, &mut served);
    tell_all(served.as_slice(), outcomes);
    0
}

/// Serves 1 to 16 commands together: requests, of one element or of several, and confirmations. Each is answered as
/// [`lt_serve`](crate::lt_serve) would answer it after those before it. All that are accepted are put on the disk
/// together. Returns 0, and writes the outcome of each command at its place in `outcomes`, which has one place for
/// each.
///
/// The first commands are served, at least one. The call ends before a confirmation if it isn't known, before the
/// commands ahead of it act, whether each entry that it would drop is answered. The outcome of each command from there
/// on is 254, `Unserved`: it changed nothing, and the caller puts it again. If the list of steps can't grow, each
/// outcome of a command that would be served is `Device`.
///
/// Returns the number of `Device` if a step was lost before, and 255 if a tag is unknown, there are no commands or more
/// than 16, or `outcomes` has another length. Then the memory doesn't change, and `outcomes` are as they were.
#[unsafe(no_mangle)]
pub extern "C" fn lt_serve_group(
    image: LtImage,
    commands: &[LtCommand],
    next: &mut LtImage,
    outcomes: &mut [LtOutcome],
) -> u8
    requires some { IsSome image.value }
    ensures served { Becomes image.value next.new.value (λ i n.
        ServesGroup i commands.now outcomes.old result outcomes.new n) }
{
    let mut held = image.into_box();
    let number = serve_group(&mut held, commands, outcomes);
    *next = LtImage::of_box(held);
    number
}

/// Returns the index, from 0, of the first of these with an unknown tag, which keeps them from being a group. Returns
/// how many there are if each is a command.
#[unsafe(no_mangle)]
pub extern "C" fn lt_first_unknown(commands: &[LtCommand]) -> usize
    ensures place { result ≡ first_unknown commands.now }
{
    first_unknown(commands)
}
