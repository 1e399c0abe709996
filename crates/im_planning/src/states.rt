//! Whether a cell is as a plan that is under way has it.
ghost use Rattle.std.specs.Prelude.{◌≡◌, Option, option_map};
ghost use Rattle.im_types.specs.Types.{Held, held_at, waiters_at, presence_in, same_waiter, address_of, asker};
ghost use Rattle.im_planning.specs.Progress.{all_fetch, empty_fits, first_fits, full_fits, held_fits, is_done};
ghost use Rattle.im_planning.specs.Progress.{is_fetch_in, is_planned_value, may_be_empty, may_be_full, tag_fits};

use crate::fitting::address;
use crate::plan::Plan;
use im_memory::Memory;
use im_types::{Block, Cell, Kind, Op, Request, Waiter};

// Returns whether a request's cell is as a plan that is under way has it.
pub(crate) fn is_cell_so(plan: &Plan, request: &Request, memory: &Memory) -> bool
    ensures { let m = memory.now.contents in
        result ≡ held_fits m plan.now request.now (held_at m.cells (address_of request.now.op)) }
{
    let a = address(&request.op);
    is_held_so(plan, request, memory, memory.block(a), memory.cell(a))
}

// Returns the same, by the cell's block and its presence tag.
fn is_held_so(
    plan: &Plan,
    request: &Request,
    memory: &Memory,
    block: Option<Block>,
    cell: Option<Cell>,
) -> bool
    ensures { (held : Option Held) → block ≡ option_map (λ h. h.block) held → cell ≡ presence_in held
        → result ≡ held_fits memory.now.contents plan.now request.now held }
{
    match block {
        None => true,
        Some(block) => match block.kind {
            Kind::I => match cell {
                None => true,
                Some(tag) => is_tag_so(plan, request, memory, &tag),
            },
            Kind::M => true,
        },
    }
}

// Returns the same of an I cell with this tag.
fn is_tag_so(plan: &Plan, request: &Request, memory: &Memory, tag: &Cell) -> bool
    ensures { result ≡ tag_fits memory.now.contents plan.now request.now tag.now }
{
    match tag {
        Cell::Empty => is_empty_so(plan, request, memory),
        Cell::Waiting => is_empty_so(plan, request, memory),
        Cell::Full(w) => is_full_so(plan, request, memory, *w),
        Cell::Clashed(_) => false,
    }
}

// Returns whether a request's cell may be empty, with those who wait for it.
fn is_empty_so(plan: &Plan, request: &Request, memory: &Memory) -> bool
    ensures { result ≡ empty_fits memory.now.contents plan.now request.now }
{
    if may_be_empty(is_done(request, memory), &request.op) {
        let first = memory.waiter(address(&request.op), 0);
        is_first_so(plan, request, memory, first)
    } else {
        false
    }
}

// Returns whether a request's cell may be full, with this value.
fn is_full_so(plan: &Plan, request: &Request, memory: &Memory, w: u64) -> bool
    ensures { result ≡ full_fits memory.now.contents plan.now request.now w }
{
    if may_be_full(is_done(request, memory), &request.op) {
        is_planned_value(w, plan.stored_at(address(&request.op)))
    } else {
        false
    }
}

// Returns whether an operation may have been served while its cell is empty.
fn may_be_empty(served: bool, op: &Op) -> bool
    ensures { result ≡ may_be_empty served op.now }
{
    match op {
        Op::Store(_, _) => !served,
        _ => true,
    }
}

// Returns whether an operation was served, or needn't be for its cell to be full.
fn may_be_full(served: bool, op: &Op) -> bool
    ensures { result ≡ may_be_full served op.now }
{
    match op {
        Op::Store(_, _) => served,
        _ => true,
    }
}

// Returns whether a value is the one that the plan stores.
fn is_planned_value(w: u64, stored: Option<u64>) -> bool
    ensures { result ≡ is_planned_value w stored }
{
    match stored {
        None => false,
        Some(v) => v == w,
    }
}

// Returns whether the first of those who wait for a request's cell is a fetch of the plan; if that is the request, all
// of them.
fn is_first_so(plan: &Plan, request: &Request, memory: &Memory, first: Option<Waiter>) -> bool
    ensures { let a = address_of request.now.op in
        result ≡ first_fits plan.now a (asker request.now) (waiters_at memory.now.contents.cells a) first }
{
    let a = address(&request.op);
    match first {
        None => true,
        Some(first) => {
            if !is_fetch(plan, a, first) {
                return false;
            }
            if !is_own(first, request) {
                return true;
            }
            do_fetch(plan, a, memory)
        }
    }
}

// Returns whether a request is under this number.
fn is_own(who: Waiter, request: &Request) -> bool
    ensures { result ≡ same_waiter who (asker request.now) }
{
    who.element == request.element && who.number == request.number
}

// Returns whether the plan has a fetch of an address under this number.
fn is_fetch(plan: &Plan, a: u32, who: Waiter) -> bool
    ensures { result ≡ is_fetch_in plan.now a who }
{
    plan.has(&Request {
        element: who.element,
        number: who.number,
        op: Op::Fetch(a),
    })
}

// Returns whether all those who wait for a cell are fetches of the plan.
fn do_fetch(plan: &Plan, a: u32, memory: &Memory) -> bool
    ensures { result ≡ all_fetch plan.now a (waiters_at memory.now.contents.cells a) }
{
    for waiter in memory.waiters(a) {
        if !is_fetch(plan, a, waiter) {
            return false;
        }
    }
    true
}

// Returns whether a request's number was used.
fn is_done(request: &Request, memory: &Memory) -> bool
    ensures { result ≡ is_done memory.now.contents request.now }
{
    match memory.window(request.element) {
        Ok((_, next)) => request.number < next,
        Err(_) => false,
    }
}
