// A command as the 64 bytes of a slot.
ghost use Rattle.std.specs.Prelude.{◌≡◌, ◌^◌, ◌<◌, ◌≤◌, ◌∷◌, drop, IfSome, Some};
ghost use Rattle.im_types.specs.Types.{open_gate, slot_fields, slot_body, command_of, read_slot, FitsCommand};
ghost use Rattle.im_types.specs.Types.{sequence_of, command_in, read_in, leads, member, due_after};

use byteorder::{ByteOrder, LittleEndian};
use im_types::codes::{address_of, op_code, op_of, op_value};
use im_types::layout::OPEN;
use im_types::{Command, LAST, MAX_GROUP, Op, Request};

/// The code of a confirmation.
const CONFIRM: u8 = 8;

/// The fields of a slot. All other bytes are zero.
#[derive(Clone, Copy)]
struct SlotFields {
    group: u8,
    code: u8,
    element: u16,
    sequence: u64,
    number: u64,
    address: u32,
    value: u64,
}

// Spells the fields of a slot behind an open gate.
fn spell_fields(slot: &mut [u8; 64], f: SlotFields)
    ensures bytes { slot.new
        ≡ open_gate ∷ slot_fields f.group f.code f.element f.sequence f.number f.address f.value }
    ensures fits { (f.element < 2 ^ 16) × (f.sequence < 2 ^ 64) × (f.number < 2 ^ 64) × (f.address < 2 ^ 32) ×
        (f.value < 2 ^ 64) }
{
    *slot = [0; 64];
    slot[0] = OPEN;
    slot[1] = f.group;
    slot[2] = f.code;
    LittleEndian::write_u16(&mut slot[4..6], f.element);
    LittleEndian::write_u64(&mut slot[8..16], f.sequence);
    LittleEndian::write_u64(&mut slot[16..24], f.number);
    LittleEndian::write_u32(&mut slot[24..28], f.address);
    LittleEndian::write_u64(&mut slot[32..40], f.value);
}

/// Spells a command as a slot with this group count and sequence number, over whatever the slot has. [`spell`] does the
/// same for a command alone in its group. [`read_in`] gives the command back.
pub(crate) fn spell_in(slot: &mut [u8; 64], group: u8, command: &Command, sequence: u64)
    ensures bytes { slot.new ≡ open_gate ∷ slot_body group sequence command.now }
    ensures fits { FitsCommand command.now }
    ensures sequence { sequence_of slot.new ≡ sequence }
    ensures reads_back { read_in group slot.new ≡ Some command.now }
{
    match *command {
        Command::Request(r) => spell_fields(
            slot,
            SlotFields {
                group,
                code: op_code(r.op),
                element: r.element,
                sequence,
                number: r.number,
                address: address_of(r.op),
                value: op_value(r.op),
            },
        ),
        Command::Confirm { element, upto } => spell_fields(
            slot,
            SlotFields {
                group,
                code: CONFIRM,
                element,
                sequence,
                number: upto,
                address: 0,
                value: 0,
            },
        ),
    }
}

/// Spells a command alone in its group as a slot with this sequence number: an open gate and the command's fields. All
/// numbers are little endian, and bytes outside the fields are zero. [`read`] gives the command back.
pub fn spell(command: &Command, sequence: u64) -> [u8; 64]
    ensures bytes { result ≡ open_gate ∷ slot_body 1 sequence command.now }
    ensures fits { FitsCommand command.now }
    ensures sequence { sequence_of result ≡ sequence }
    ensures reads_back { read_slot result ≡ Some command.now }
{
    let mut slot = [0; 64];
    spell_in(&mut slot, 1, command, sequence);
    slot
}

fn command_of(code: u8, element: u16, number: u64, op: Option<Op>) -> Option<Command>
    ensures { result ≡ command_of code element number op }
{
    match op {
        Some(op) => Some(Command::Request(Request {
            element,
            number,
            op,
        })),
        None if code == CONFIRM => Some(Command::Confirm {
            element,
            upto: number,
        }),
        None => None,
    }
}

/// The sequence number of a slot.
#[tactic(auto, unfolding(im_types::specs::Slot::sequence_of))]
pub(crate) fn sequence_in(slot: &[u8; 64]) -> u64
    ensures { result ≡ sequence_of slot.now }
{
    LittleEndian::read_u64(&slot[8..16])
}

// The command that the fields stand for. It ignores all other bytes.
#[tactic(auto, unfolding(im_types::specs::Slot::command_in))]
fn command_in(slot: &[u8; 64]) -> Option<Command>
    ensures { result ≡ command_in slot.now }
{
    let address = LittleEndian::read_u32(&slot[24..28]);
    let value = LittleEndian::read_u64(&slot[32..40]);
    let op = op_of(slot[2], address, value);
    let element = LittleEndian::read_u16(&slot[4..6]);
    command_of(slot[2], element, LittleEndian::read_u64(&slot[16..24]), op)
}

/// Returns the command of a slot, whatever its gate is. Returns `None` if the bytes behind the gate aren't those that
/// [`spell_in`] gives with this group count.
pub(crate) fn read_in(group: u8, slot: &[u8; 64]) -> Option<Command>
    ensures found { result ≡ read_in group slot.now }
    ensures spelled { IfSome result (λ c. drop 1 slot.now ≡ slot_body group (sequence_of slot.now) c) }
{
    let command = command_in(slot)?;
    let mut spelled = [0; 64];
    spell_in(&mut spelled, group, &command, sequence_in(slot));
    if spelled[1..] == slot[1..] {
        Some(command)
    } else {
        None
    }
}

/// Returns the command of a slot, whatever its gate is. Returns `None` if the bytes behind the gate aren't those that
/// [`spell`] gives: the group count isn't 1, the code is none of the eight, or a byte that has to be zero isn't.
pub fn read(slot: &[u8; 64]) -> Option<Command>
    ensures found { result ≡ read_slot slot.now }
    ensures spelled { IfSome result (λ c. drop 1 slot.now ≡ slot_body 1 (sequence_of slot.now) c) }
{
    read_in(1, slot)
}

// Returns whether a slot's count is that of a group with no command past the last number.
fn leads(slot: &[u8; 64], sequence: u64) -> bool
    requires low { sequence ≤ LAST }
    ensures { result ≡ leads sequence slot.now }
{
    0 < slot[1] && slot[1] as usize <= MAX_GROUP && sequence + slot[1] as u64 <= LAST
}

// The command of a slot that leads a group.
fn leader(slot: &[u8; 64], sequence: u64) -> Option<Command>
    requires low { sequence ≤ LAST }
    ensures { result ≡ member 0 sequence slot.now }
{
    if leads(slot, sequence) {
        read_in(slot[1], slot)
    } else {
        None
    }
}

// The command of a slot that is a later member of a group.
fn follower(slot: &[u8; 64], sequence: u64) -> Option<Command>
    ensures { result ≡ member 1 sequence slot.now }
{
    if sequence_in(slot) == sequence {
        read_in(0, slot)
    } else {
        None
    }
}

/// Returns the command of a slot of the run. `due` slots of a group are still to come from this one on; with 0, the
/// slot leads a group. Returns `None` if the slot isn't spelled as it should be.
pub(crate) fn member(due: u8, sequence: u64, slot: &[u8; 64]) -> Option<Command>
    requires low { sequence ≤ LAST }
    ensures { result ≡ member due sequence slot.now }
{
    if due == 0 {
        leader(slot, sequence)
    } else {
        follower(slot, sequence)
    }
}

/// Returns how many slots of the group are still to come after this one. `due` is the number from this one on; with 0,
/// the slot leads a group.
pub(crate) fn due_after(due: u8, slot: &[u8; 64]) -> u8
    ensures { result ≡ due_after due slot.now }
{
    if due == 0 {
        slot[1].saturating_sub(1)
    } else {
        due - 1
    }
}
