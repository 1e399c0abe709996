// The slots of a ring in memory: the run of commands, and what is behind it.
ghost use Rattle.std.specs.Prelude.{◌≡◌, ◌+◌, ◌-◌, ◌*◌, ◌^◌, ◌<◌, ◌≤◌, true, ◌⊎◌, length, IfOk, IfErr, if◌then◌else◌};
ghost use Rattle.std.specs.Prelude.{◌==◌, Some, None, IsErrOf};
ghost use Rattle.im_types.specs.Types.{open_gate, is_open, run_from, commands_in, closed_from, are_stale, slot};
ghost use Rattle.im_types.specs.Types.{continues, tail};
ghost use Rattle.im_journal.specs.Holding.{AreSlots, ring_alone};

use crate::slot::{due_after, member, sequence_in};
use im_types::layout::OPEN;
use im_types::{Command, LAST, Refusal};
use std::alloc::Global;

// The slot of the command with this sequence number.
#[tactic(auto, unfolding(im_types::specs::Journal::slot))]
fn slot_in(ring: &[u8], slots: usize, sequence: u64) -> [u8; 64]
    requires some { 0 < slots }
    requires size { length ring.now ≡ 64 * slots }
    ensures { result ≡ slot (ring_alone slots) sequence ring.now }
{
    let at = 64 * ((sequence % slots as u64) as usize);
    let mut bytes = [0; 64];
    bytes.copy_from_slice(&ring[at..at + 64]);
    bytes
}

// Returns whether the run continues with this slot.
#[tactic(auto, unfolding(im_types::specs::Journal::continues))]
fn continues(slot: &[u8; 64], sequence: u64) -> bool
    ensures { result ≡ continues slot.now sequence }
{
    slot[0] == OPEN && sequence_in(slot) == sequence && sequence < LAST
}

// The commands from a sequence number on, once round the ring at most.
fn run_in(alloc: Global, ring: &[u8], slots: usize, first: u64) -> Result<Vec<Command>, Refusal>
    requires slots { AreSlots slots ring.now }
    requires last { first ≤ LAST }
    ensures commands { IfOk result
        (λ v. commands_in 0 first (run_from (ring_alone slots) slots 0 first ring.now) ≡ Some v.items) }
    ensures few { IfOk result (λ v. length v.items ≤ slots) }
    ensures last { IfOk result (λ v. first + length v.items ≤ LAST) }
    ensures bad { IsErrOf result Refusal.BadRecord
        → commands_in 0 first (run_from (ring_alone slots) slots 0 first ring.now) ≡ None }
    ensures only { IfErr result (λ e. (e ≡ Refusal.BadRecord) ⊎ (e ≡ Refusal.NoMemory)) }
{
    let mut commands = Vec::new(alloc);
    let mut due = 0;
    for i in 0..slots {
        let sequence = first + i as u64;
        let slot = slot_in(ring, slots, sequence);
        if due == 0 {
            if !continues(&slot, sequence) {
                return Ok(commands);
            }
        }
        let Some(command) = member(due, sequence, &slot) else {
            return Err(Refusal::BadRecord);
        };
        if let Err(_) = commands.push(command) {
            return Err(Refusal::NoMemory);
        }
        due = due_after(due, &slot);
    }
    // A group continues past the ring's slots.
    if due > 0 {
        return Err(Refusal::BadRecord);
    }
    Ok(commands)
}

// How many of the next `count` gates are closed, before the first open one.
fn closed_in(ring: &[u8], slots: usize, from: u64, count: usize) -> usize
    requires some { 0 < slots }
    requires size { length ring.now ≡ 64 * slots }
    requires last { from + count < 2 ^ 64 }
    ensures closed { result ≡ closed_from (ring_alone slots) count from ring.now }
    ensures few { result ≤ count }
{
    for i in 0..count {
        let slot = slot_in(ring, slots, from + i as u64);
        if slot[0] == OPEN {
            return i;
        }
    }
    count
}

// Returns whether the next `count` slots are all of commands before `first`.
fn are_stale(ring: &[u8], slots: usize, from: u64, count: usize, first: u64) -> bool
    requires some { 0 < slots }
    requires size { length ring.now ≡ 64 * slots }
    requires last { from + count < 2 ^ 64 }
    ensures { result ≡ are_stale (ring_alone slots) count from first ring.now }
{
    for i in 0..count {
        let slot = slot_in(ring, slots, from + i as u64);
        if sequence_in(&slot) >= first {
            return false;
        }
    }
    true
}

// The room behind a run with this many closed gates. There is none at the last count.
fn room_behind(next: u64, closed: usize) -> usize
    ensures room { result ≡ (if next == LAST then 0 else closed) }
    ensures few { result ≤ closed }
    ensures full { next ≡ LAST → result ≡ 0 }
{
    if next == LAST { 0 } else { closed }
}

/// Returns the commands from a sequence number on, and the room behind them. Returns `BadRecord` only in three cases: a
/// slot of the run isn't spelled as it should be, a group goes too far, or a slot isn't stale from the first open gate
/// behind the run on. Any other refusal is `NoMemory`.
pub(crate) fn tail_in(
    alloc: Global,
    ring: &[u8],
    slots: usize,
    first: u64,
) -> Result<(Vec<Command>, usize), Refusal>
    requires slots { AreSlots slots ring.now }
    requires last { first ≤ LAST }
    ensures tail { IfOk result
        (λ r. tail (ring_alone slots) first ring.now ≡ Some (record { commands = r.0.items; room = r.1 })) }
    ensures once_round { IfOk result (λ r. length r.0.items + r.1 ≤ slots) }
    ensures last { IfOk result (λ r. first + length r.0.items ≤ LAST) }
    ensures full { IfOk result (λ r. first + length r.0.items ≡ LAST → r.1 ≡ 0) }
    ensures bad { IsErrOf result Refusal.BadRecord → tail (ring_alone slots) first ring.now ≡ None }
    ensures only { IfErr result (λ e. (e ≡ Refusal.BadRecord) ⊎ (e ≡ Refusal.NoMemory)) }
{
    let commands = match run_in(alloc, ring, slots, first) {
        Ok(commands) => commands,
        Err(refusal) => return Err(refusal),
    };
    let next = first + commands.len() as u64;
    let left = slots - commands.len();
    let closed = closed_in(ring, slots, next, left);
    if !are_stale(ring, slots, next + closed as u64, left - closed, first) {
        return Err(Refusal::BadRecord);
    }
    Ok((commands, room_behind(next, closed)))
}
