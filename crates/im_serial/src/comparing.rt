//! Compares a script with what an image has of it.
ghost use Rattle.std.specs.Prelude.{◌≡◌, ℕ, true, false, [], length, IfSome, IfErr, OnOk, nat_lt, slice_get};
ghost use Rattle.im_types.specs.Types.{Refusal, Mismatch, BadScript};
ghost use Rattle.im_text.specs.declared.Reason.TheVariants.{Request};
ghost use Rattle.im_serial.specs.{Asked.wanted_by, Asked.wanted_of, Had.left_of, Had.met, Had.met_all};
ghost use Rattle.im_serial.specs.Fitting.{bases_with, BeginsWithin, behind_script, Compares, fits, fits_as, fits_from};
ghost use Rattle.im_serial.specs.Fitting.{is_base, keeps_as, keeps_base, keeps_op};

use crate::hearing::hear;
use crate::past::Past;
use im_memory::Memory;
use im_script::{Allocation, Reader, Said, Script, ScriptFault, ScriptLine, split_line};
use im_text::Reason;
use im_types::{Entry, Kept, Op, Refusal, Reply};
use std::alloc::Global;

// Whether an operation is kept, if there is one.
fn keeps_op(op: Option<Op>, kept: Op) -> bool
    ensures { result ≡ keeps_op op kept }
{
    match op {
        Some(op) => op == kept,
        None => false,
    }
}

// Whether a base is this one, unless there is none to compare it with.
fn is_base(there: u32, base: Option<u32>) -> bool
    ensures { result ≡ is_base there base }
{
    match base {
        Some(base) => there == base,
        None => true,
    }
}

// Whether an entry tells no other base.
fn keeps_base(base: Option<u32>, entry: Entry) -> bool
    ensures { result ≡ keeps_base base entry }
{
    match entry {
        Entry::Answered(Reply::Base(there)) => is_base(there, base),
        _ => true,
    }
}

// Whether what is kept, if anything is, is of this operation and tells no other base.
fn keeps_as(op: Option<Op>, base: Option<u32>, kept: Option<Kept>) -> bool
    ensures { result ≡ keeps_as op base kept }
{
    match kept {
        Some(kept) => keeps_op(op, kept.op) && keeps_base(base, kept.entry),
        None => true, // It was confirmed, or is new.
    }
}

// Compares an element's next request with the one that is kept under its number, if there is one.
fn compare(
    memory: &Memory,
    past: &mut Past,
    element: u16,
    op: Option<Op>,
    base: Option<u32>,
) -> Result<(), Reason>
    ensures many { past.new.many.items ≡ met past.old.many.items element }
    ensures end { past.new.end ≡ past.old.end }
    ensures fits { OnOk result (fits_as memory.now.contents past.old.many.items element op base ≡ true) }
    ensures wrong { IfErr result (λ reason. (e : ℕ) → reason ≡ Request e Mismatch
        → fits_as memory.now.contents past.old.many.items element op base ≡ false) }
    ensures only { IfErr result (λ reason. (e : ℕ) → reason ≡ Request e BadScript → ⊥) }
{
    let left = past.meet(element);
    if left == 0 {
        return Ok(());
    }
    let number = match memory.window(element) {
        Ok((_base, next)) => next.saturating_sub(left),
        Err(refusal) => return Err(Reason::Request(element, refusal)),
    };
    let fits = keeps_as(op, base, memory.kept(element, number));
    if fits {
        Ok(())
    } else {
        Err(Reason::Request(element, Refusal::Mismatch))
    }
}

// Keeps the base of a block, if it has one.
fn add_base(bases: &mut Vec<u32>, base: Option<u32>) -> Result<(), Reason>
    ensures bases { OnOk result (bases.new.items ≡ bases_with bases.old.items base) }
    ensures only { IfErr result (λ reason. (e : ℕ) (refusal : Refusal) → reason ≡ Request e refusal → ⊥) }
{
    let Some(base) = base else {
        return Ok(());
    };
    match bases.push(base) {
        Ok(()) => Ok(()),
        Err(_) => Err(Reason::Memory),
    }
}

// Compares a block of the setup.
fn compare_block(
    memory: &Memory,
    past: &mut Past,
    bases: &mut Vec<u32>,
    block: Allocation,
) -> Result<(), Reason>
    ensures compared { Compares memory.now.contents past.old.many.items bases.old.items past.old.end
        (wanted_by (Said.Block block)) result past.new.many.items bases.new.items past.new.end }
{
    let base = past.place(block.length);
    match add_base(bases, base) {
        Ok(()) => {}
        Err(reason) => return Err(reason),
    }
    compare(
        memory,
        past,
        0,
        Some(Op::Alloc(block.kind, block.length)),
        base,
    )
}

// Compares a request of a part.
fn compare_line(
    memory: &Memory,
    past: &mut Past,
    bases: &[u32],
    line: ScriptLine,
) -> Result<(), Reason>
    ensures compared { Compares memory.now.contents past.old.many.items bases.now past.old.end
        (wanted_by (Said.Asks line)) result past.new.many.items bases.now past.new.end }
{
    let op = line.action.op(bases);
    compare(memory, past, line.element, op, None)
}

// Compares what a line says.
fn compare_said(
    memory: &Memory,
    past: &mut Past,
    bases: &mut Vec<u32>,
    said: Said,
) -> Result<(), Reason>
    ensures compared { Compares memory.now.contents past.old.many.items bases.old.items past.old.end
        (wanted_by said) result past.new.many.items bases.new.items past.new.end }
{
    match said {
        Said::Nothing => Ok(()),
        Said::Begins(_element) => Ok(()),
        Said::Block(block) => compare_block(memory, past, bases, block),
        Said::Asks(line) => compare_line(memory, past, bases.as_slice(), line),
    }
}

// Compares all lines of a script.
fn compare_all(
    alloc: Global,
    memory: &Memory,
    past: &mut Past,
    script: &Script<'_>,
) -> Result<(), Reason>
    ensures fits { OnOk result (fits_from memory.now.contents past.old.many.items [] past.old.end (wanted_of script.now)
        ≡ true) }
    ensures behind { OnOk result (past.new.many.items ≡ met_all past.old.many.items (wanted_of script.now)) }
    ensures wrong { IfErr result (λ reason. (e : ℕ) → reason ≡ Request e Mismatch
        → fits_from memory.now.contents past.old.many.items [] past.old.end (wanted_of script.now) ≡ false) }
    ensures only { IfErr result (λ reason. (e : ℕ) → reason ≡ Request e BadScript → ⊥) }
{
    let mut reader = Reader::new(alloc);
    let mut bases = Vec::new(alloc);
    let mut rest = Some(script.text());
    for number in 1..usize::MAX {
        let text = match rest {
            Some(text) => text,
            None => return Ok(()),
        };
        let (line, behind) = split_line(text);
        rest = behind;
        let said = match hear(&mut reader, alloc, number, line) {
            Ok(said) => said,
            Err(fault) => return Err(Reason::Script(fault)), // There was no memory for it.
        };
        match compare_said(memory, past, &mut bases, said) {
            Ok(()) => {}
            Err(reason) => return Err(reason),
        }
    }
    Err(Reason::Script(ScriptFault::TooLarge)) // No script has so many lines.
}

// Whether an element's window begins beyond the script: more of its requests are left than are kept.
fn is_beyond(memory: &Memory, past: &Past, element: u16) -> bool
    ensures { IfSome (slice_get memory.now.contents.windows element) (λ w. result
        ≡ nat_lt (length w.kept) (left_of past.now.many.items element)) }
{
    match memory.window(element) {
        Ok((base, next)) => past.left(element) > next.saturating_sub(base),
        Err(_) => false,
    }
}

/// Compares a script with what a memory has of it. Changes nothing.
///
/// Errors: `Mismatch` if under a number of the script another operation is kept, or for a block of the setup another
/// base than the script's setup has in a new image; `BadScript` if a window begins beyond the script. Another script
/// used this image then. `NoMemory`.
pub fn compare_script(alloc: Global, memory: &Memory, script: &Script<'_>) -> Result<(), Reason>
    ensures fits { OnOk result (fits memory.now.contents (wanted_of script.now) ≡ true) }
    ensures within { OnOk result (BeginsWithin memory.now.contents (behind_script memory.now.contents
        (wanted_of script.now))) }
    ensures wrong { IfErr result (λ reason. (e : ℕ) → reason ≡ Request e Mismatch
        → fits memory.now.contents (wanted_of script.now) ≡ false) }
    ensures beyond { IfErr result (λ reason. (e : ℕ) → reason ≡ Request e BadScript
        → BeginsWithin memory.now.contents (behind_script memory.now.contents (wanted_of script.now)) → ⊥) }
{
    let mut past = match Past::new(alloc, memory) {
        Ok(past) => past,
        Err(_) => return Err(Reason::Memory),
    };
    match compare_all(alloc, memory, &mut past, script) {
        Ok(()) => {}
        Err(reason) => return Err(reason),
    }
    for element in 0..memory.elements() {
        if is_beyond(memory, &past, element) {
            return Err(Reason::Request(element, Refusal::BadScript));
        }
    }
    Ok(())
}
