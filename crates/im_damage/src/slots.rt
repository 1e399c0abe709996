//! What is wrong with the slots of a journal, and which of them is older than any that may stand there.
//! [`crate::find_damage`] and [`crate::find_older`] ask it. It is only tested.

use crate::damage::{Damage, SlotFault};
use byteorder::{ByteOrder, LittleEndian};
use im_memory::Memory;
use im_types::layout::{OPEN, SLOT};
use im_types::{Command, LAST, MAX_GROUP};
use std::fmt;
use std::fmt::{Display, Formatter};

// The sequence number of a slot.
fn sequence_in(slot: &[u8]) -> u64 {
    if slot.len() == SLOT {
        LittleEndian::read_u64(&slot[8..16])
    } else {
        0
    }
}

// Whether a slot's gate is open.
fn is_open(slot: &[u8]) -> bool {
    slot.first() == Some(&OPEN)
}

// The group count of a slot.
fn count_in(slot: &[u8]) -> u8 {
    slot.get(1).copied().unwrap_or(0)
}

// The command that a slot spells. Its gate and its group count don't matter.
fn command_in(slot: &[u8]) -> Option<Command> {
    let mut bytes = *slot.as_array::<64>()?;
    bytes[1] = 1; // The group count is checked elsewhere.
    im_journal::read(&bytes)
}

// The slot in which a sequence number stands.
fn place_in(slots: usize, sequence: u64) -> usize {
    if slots == 0 {
        0
    } else {
        (sequence % slots as u64) as usize
    }
}

// The bytes of that slot, if the ring has it.
fn slot_in(ring: &[u8], slots: usize, sequence: u64) -> &[u8] {
    let at = place_in(slots, sequence).saturating_mul(SLOT);
    ring.get(at..at.saturating_add(SLOT)).unwrap_or(&[])
}

// The part of a journal that a slot is in.
#[derive(Clone, Copy, Debug, PartialEq, Eq)]
enum JournalPart {
    // In the run. The slot leads a group.
    Leads,
    // In the run, within a group. This many slots of the group are still to come, with this one.
    Follows(u8),
    // In the room behind the run.
    Room,
    // From the first open gate behind the run on.
    Rest,
}

// How many slots of a group are still to come behind a slot in this part.
fn due_behind(part: JournalPart, slot: &[u8]) -> u8 {
    match part {
        JournalPart::Leads => count_in(slot).saturating_sub(1),
        JournalPart::Follows(due) => due.saturating_sub(1),
        JournalPart::Room | JournalPart::Rest => 0,
    }
}

// Returns whether the run continues with this slot as the first of a group.
fn goes_on(slot: &[u8], sequence: u64) -> bool {
    is_open(slot) && sequence_in(slot) == sequence && sequence < LAST
}

// The part of a slot, by the part of the slot before it and the number of group slots still to come.
fn part_of(before: JournalPart, due: u8, slot: &[u8], sequence: u64) -> JournalPart {
    match before {
        JournalPart::Leads | JournalPart::Follows(_) if due > 0 => JournalPart::Follows(due),
        JournalPart::Leads | JournalPart::Follows(_) if goes_on(slot, sequence) =>
            JournalPart::Leads,
        JournalPart::Rest => JournalPart::Rest,
        _ => if is_open(slot) {
            JournalPart::Rest
        } else {
            JournalPart::Room
        },
    }
}

// What is wrong with the count of a slot that leads a group. `left` slots of the ring are left.
fn of_leader(slot: &[u8], sequence: u64, left: usize) -> Option<SlotFault> {
    let count = count_in(slot);
    if count == 0 || count as usize > MAX_GROUP {
        Some(SlotFault::Counts(sequence, count))
    } else if count as usize > left || count as u64 > LAST.saturating_sub(sequence) {
        Some(SlotFault::TooLong(sequence, count))
    } else {
        None
    }
}

// What is wrong with the count or the number of a later slot of a group.
fn of_follower(slot: &[u8], sequence: u64) -> Option<SlotFault> {
    let number = sequence_in(slot);
    let count = count_in(slot);
    if number != sequence {
        Some(SlotFault::NotNext(sequence, number))
    } else if count > 0 {
        Some(SlotFault::LeadsWithin(sequence, count))
    } else {
        None
    }
}

// What is wrong with the command of a slot of the run. The memory serves the command.
fn take_slot(memory: &mut Memory, slot: &[u8], sequence: u64) -> Option<SlotFault> {
    let Some(command) = command_in(slot) else {
        return Some(SlotFault::Unspelled(sequence));
    };
    if memory.judge(&command) != Ok(true) {
        return Some(SlotFault::Refused(sequence));
    }
    let _answer = memory.step(&command);
    None
}

// What is wrong with a slot in this part. `left` slots of the ring are left, including this one. The memory serves the
// command of a slot of the run.
fn of_slot(
    part: JournalPart,
    slot: &[u8],
    memory: &mut Memory,
    numbers: (u64, u64),
    left: usize,
) -> Option<SlotFault> {
    let (sequence, first) = numbers;
    let fault = match part {
        JournalPart::Leads => of_leader(slot, sequence, left),
        JournalPart::Follows(_) => of_follower(slot, sequence),
        JournalPart::Room => return None,
        JournalPart::Rest => {
            let number = sequence_in(slot);
            return if number < first {
                None
            } else {
                Some(SlotFault::NotStale(number, first))
            };
        }
    };
    match fault {
        Some(fault) => Some(fault),
        None => take_slot(memory, slot, sequence),
    }
}

/// Returns whether a gate is open among these last bytes of a file.
pub fn has_open_gate(ring: &[u8]) -> bool {
    ring.chunks(SLOT).any(is_open)
}

/// A slot outside the run that stands open, with a command so old that the ring can't hold it any longer. Only a header
/// that was lost or changed explains it.
#[derive(Clone, Copy, Debug, PartialEq, Eq)]
pub struct Older {
    /// The number of the slot.
    pub slot: usize,
    /// The sequence number of its command.
    pub sequence: u64,
    /// The smallest sequence number that may stand open there.
    pub least: u64,
}

impl Display for Older {
    fn fmt<W: fmt::Write>(&self, f: &mut Formatter<W>) -> fmt::Result {
        let Older {
            slot,
            sequence,
            least,
        } = *self;
        write!(
            f,
            "slot {slot} of the journal has command {sequence}, where none below {least} is left"
        )?;
        f.write_str(": the header in force was changed, or a later one was lost")
    }
}

// The number of commands in the run. `first` is the sequence number of its first one.
fn run_in(ring: &[u8], slots: usize, first: u64) -> usize {
    let mut part = JournalPart::Leads;
    let mut due = 0;
    for past in 0..slots {
        let sequence = first.saturating_add(past as u64);
        part = part_of(part, due, slot_in(ring, slots, sequence), sequence);
        if matches!(part, JournalPart::Room | JournalPart::Rest) {
            return past;
        }
        due = due_behind(part, slot_in(ring, slots, sequence));
    }
    slots
}

/// Returns the first slot outside the run that stands open with a command so old that the ring can't hold it any
/// longer. `first` is the sequence number of the run's first command. A later slot of a group counts 0 commands, so it
/// is never the one.
pub fn older_slot(ring: &[u8], slots: u32, first: u64) -> Option<Older> {
    let slots = slots as usize;
    let run = run_in(ring, slots, first);
    let least = first
        .saturating_add(run as u64)
        .saturating_sub(slots as u64);
    for past in run..slots {
        let sequence = first.saturating_add(past as u64);
        let slot = slot_in(ring, slots, sequence);
        if is_open(slot) && count_in(slot) > 0 && sequence_in(slot) < least {
            return Some(Older {
                slot: place_in(slots, sequence),
                sequence: sequence_in(slot),
                least,
            });
        }
    }
    None
}

/// Returns what is wrong with a journal. `memory` is the memory before its run, and `first` is the sequence number of
/// the run's first command.
pub fn of_journal(ring: &[u8], memory: &mut Memory, slots: u32, first: u64) -> Damage {
    let slots = slots as usize;
    let mut part = JournalPart::Leads;
    let mut due = 0;
    for past in 0..slots {
        let sequence = first.saturating_add(past as u64);
        let place = place_in(slots, sequence);
        let slot = slot_in(ring, slots, sequence);
        part = part_of(part, due, slot, sequence);
        due = due_behind(part, slot);
        if let Some(fault) = of_slot(part, slot, memory, (sequence, first), slots - past) {
            return Damage::Slot(place, fault);
        }
    }
    Damage::Unknown
}
