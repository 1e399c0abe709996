//! A memory with no disk, for C.
ghost use Rattle.std.specs.Prelude.{◌≡◌, ◌≢◌, ◌⊎◌, IfSome, IfOk, IfErr, IsSome, Some};
ghost use Rattle.std.specs.declared.option.Option.{Option};
ghost use Rattle.im_types.specs.Types.{AreLimits, empty_contents, ask, op_of};
ghost use Rattle.im_memory.specs.State.{MemoryState};
ghost use Rattle.im_c.specs.{Handing.Becomes, Handing.ShowsHeld, Held.holds_memory, Memory.Steps, Plain.entry_outcome};

use crate::parts::BoxParts;
use crate::plain::{
    LtCommand, LtOutcome, NO_CALL, entry_outcome, meant, request_of, tell, tell_read, tell_refused,
    tell_write,
};
use im_memory::Memory;
use im_types::codes::op_of;
use im_types::{Limits, Op, Refusal};
use std::alloc::Global;
use std::marker::Model;

/// A handle of a memory, or of none: a struct of zero bytes holds none. A call that takes the handle hands it out again
/// at `next`, which may be the place that it came from. A handle that is overwritten is lost.
#[repr(C)]
#[derive(Drop)]
pub struct LtMemory {
    ptr: *mut u8,
    alloc: Global,
    /// The memory, as contracts see it, or none.
    pub ghost value: { Option MemoryState },
}

impl Model for LtMemory {
    ghost also_owns = { λ h. holds_memory h.alloc h.ptr h.value };
}

// A handle may go to another thread, because its block may.
unsafe impl Send for LtMemory {}

impl LtMemory {
    fn of_parts(parts: BoxParts<Memory, Global>) -> LtMemory
        ensures { result.value ≡ Some parts.value }
    {
        let BoxParts { ptr, alloc } = parts;
        LtMemory {
            ptr: ptr as *mut u8,
            alloc,
        }
    }

    fn into_parts(self) -> BoxParts<Memory, Global>
        requires { IsSome self.value }
        ensures { self.value ≡ Some result.value }
    {
        let LtMemory { ptr, alloc } = self;
        BoxParts {
            ptr: ptr as *mut Memory,
            alloc,
        }
    }

    pub(crate) fn into_box(self) -> Box<Memory>
        requires { IsSome self.value }
        ensures { self.value ≡ Some result.value }
    {
        self.into_parts().into_box()
    }

    pub(crate) fn of_box(held: Box<Memory>) -> LtMemory
        ensures { result.value ≡ Some held.value }
    {
        LtMemory::of_parts(BoxParts::of(held))
    }
}

// A memory of these sizes, in a block of its own.
fn made(alloc: Global, limits: Limits) -> Result<Box<Memory>, Refusal>
    ensures empty { IfOk result (λ b. b.value.contents ≡ empty_contents limits.cells limits.elements) }
    ensures only { IfErr result (λ e. e ≡ Refusal.NoMemory) }
{
    let memory = Memory::new(alloc, limits)?;
    match Box::new(alloc, memory) {
        Ok(memory) => Ok(memory),
        Err(_) => Err(Refusal::NoMemory),
    }
}

// Serves one command, and writes its outcome for C. Two tests find the tag of an access, in place of a table of tags.
fn step(memory: &mut Memory, command: &LtCommand, outcome: &mut LtOutcome)
    ensures { Steps memory.old command.now outcome.new memory.new }
{
    if command.tag % 2 == 0 {
        step_even(memory, command, outcome);
    } else {
        step_odd(memory, command, outcome);
    }
}

// Serves a command with an even tag, as those of reads and confirmations are. The memory's step stands in each arm, and
// is laid out for its operation alone.
#[inline(never)]
fn step_even(memory: &mut Memory, command: &LtCommand, outcome: &mut LtOutcome)
    ensures { Steps memory.old command.now outcome.new memory.new }
{
    match command.tag {
        4 => {
            let asked = request_of(command, Op::Fetch(command.address));
            tell_read(memory.step(&asked), outcome);
        }
        6 => {
            let asked = request_of(command, Op::Take(command.address));
            tell_read(memory.step(&asked), outcome);
        }
        8 => step_rest(memory, command, outcome),
        _ => step_any(memory, command, outcome),
    }
}

// Serves a command with an odd tag, as those of writes are.
#[inline(never)]
fn step_odd(memory: &mut Memory, command: &LtCommand, outcome: &mut LtOutcome)
    ensures { Steps memory.old command.now outcome.new memory.new }
{
    let (a, value) = (command.address, command.value);
    match command.tag {
        5 => {
            let asked = request_of(command, Op::Store(a, value));
            tell_write(memory.step(&asked), outcome);
        }
        7 => {
            let asked = request_of(command, Op::Put(a, value));
            tell_write(memory.step(&asked), outcome);
        }
        _ => step_any(memory, command, outcome),
    }
}

// Serves any command, or tells that it is none. It is a call of its own, so that an access isn't laid out with it.
#[inline(never)]
fn step_any(memory: &mut Memory, command: &LtCommand, outcome: &mut LtOutcome)
    ensures { Steps memory.old command.now outcome.new memory.new }
{
    match op_of(command.tag, command.address, command.value) {
        Some(op) => {
            let asked = request_of(command, op);
            tell(memory.step(&asked), outcome);
        }
        None => step_rest(memory, command, outcome),
    }
}

// Serves a command that need not be a request, or tells that it is none.
#[inline(always)]
fn step_rest(memory: &mut Memory, command: &LtCommand, outcome: &mut LtOutcome)
    ensures { Steps memory.old command.now outcome.new memory.new }
{
    match meant(command) {
        Some(command) => tell(memory.step(&command), outcome),
        None => tell_refused(NO_CALL, outcome),
    }
}

/// Makes a memory with the given number of cells, 1 to 1,048,576, and elements, 1 to 64, with no block and no entry.
/// Returns 0, and `next` holds the memory. Else returns the number of the refusal, and `next` is as it was: `BadLimits`
/// if a number is out of its range, or `NoMemory`. No later call on the memory needs more memory.
#[unsafe(no_mangle)]
pub extern "C" fn lt_memory_new(alloc: Global, cells: u32, elements: u16, next: &mut LtMemory) -> u8
    ensures bad { (AreLimits cells elements 16 → ⊥) → result ≡ 17 }
    ensures only { AreLimits cells elements 16 → (result ≡ 0) ⊎ (result ≡ 10) }
    ensures made { result ≡ 0 → IsSome next.new.value }
    ensures empty { result ≡ 0 → IfSome next.new.value (λ m. m.contents ≡ empty_contents cells elements) }
    ensures same { result ≢ 0 → next.new ≡ next.old }
{
    let Some(limits) = Limits::new(cells, elements, 16) else {
        return Refusal::BadLimits.number();
    };
    match made(alloc, limits) {
        Ok(memory) => {
            *next = LtMemory::of_box(memory);
            0
        }
        Err(refusal) => refusal.number(),
    }
}

/// Serves one command. Returns its refusal, and writes its outcome at `outcome`. The refusals are those of a request
/// and of a confirmation, and 255 for an unknown tag; then nothing changes. The call needs no memory.
#[unsafe(no_mangle)]
pub extern "C" fn lt_memory_step(
    memory: LtMemory,
    command: &LtCommand,
    next: &mut LtMemory,
    outcome: &mut LtOutcome,
) -> u8
    requires some { IsSome memory.value }
    ensures stepped { Becomes memory.value next.new.value (λ m n. Steps m command.now outcome.new n) }
    ensures refusal { result ≡ outcome.new.refusal }
{
    let mut held = memory.into_box();
    step(&mut held, command, outcome);
    *next = LtMemory::of_box(held);
    outcome.refusal
}

/// Writes the entry that is kept under an element's number at `outcome`. It is refused with `NoElement`, with
/// `Forgotten` below the window, and with `Gap` if the number isn't used yet. Nothing changes.
#[unsafe(no_mangle)]
pub extern "C" fn lt_held_memory_collect(
    memory: LtMemory,
    element: u16,
    number: u64,
    next: &mut LtMemory,
    outcome: &mut LtOutcome,
)
    requires some { IsSome memory.value }
    ensures answer { ShowsHeld memory.value next.new.value (λ m. outcome.new
        ≡ entry_outcome (ask m.contents.windows (record { element = element; number = number }))) }
{
    let held = memory.into_box();
    *outcome = entry_outcome(held.collect(element, number));
    *next = LtMemory::of_box(held);
}

/// Frees the memory.
#[unsafe(no_mangle)]
pub extern "C" fn lt_memory_free(memory: LtMemory)
    requires some { IsSome memory.value }
{
    drop(memory.into_box());
}
