//! Whether a plan fits a memory.
ghost use Rattle.std.specs.Prelude.{◌≡◌, ◌↔◌, IsTrue, Option, option_map};
ghost use Rattle.im_types.specs.Types.{Held, held_at, presence_in, address_of, bounds, FitsPlan};
ghost use Rattle.im_planning.specs.Fitting.{all_fit, cell_fits, number_fits, request_fits};

use crate::plan::Plan;
use im_memory::Memory;
use im_types::{Block, Cell, Kind, LAST, Op, Request};

/// Returns whether a plan fits a memory. Each of its requests is still to come and is of an element that exists. Each I
/// cell that the plan names is empty, and nobody waits for it.
#[tactic(auto, using(crate::proofs::FittingLemmas::plan_fits))]
pub fn fits(plan: &Plan, memory: &Memory) -> bool
    ensures { IsTrue result ↔ FitsPlan memory.now.contents plan.now }
{
    do_fit(plan.requests(), memory)
}

// Returns whether each request fits.
fn do_fit(requests: &[Request], memory: &Memory) -> bool
    ensures { result ≡ all_fit memory.now.contents requests.now }
{
    let mut rest = requests;
    while let Some((first, later)) = rest.split_first() {
        if !does_fit(first, memory) {
            return false;
        }
        rest = later;
    }
    true
}

// Returns whether a request fits.
fn does_fit(request: &Request, memory: &Memory) -> bool
    ensures { result ≡ request_fits memory.now.contents request.now }
{
    if is_to_come(request, memory) {
        is_for_cell(
            memory.block(address(&request.op)),
            memory.cell(address(&request.op)),
        )
    } else {
        false
    }
}

// Returns whether a request's number is still to come.
fn is_to_come(request: &Request, memory: &Memory) -> bool
    ensures { result ≡ number_fits request.now.number (bounds memory.now.contents.windows request.now.element) }
{
    match memory.window(request.element) {
        Ok((_, next)) => {
            if request.number < next {
                false
            } else {
                request.number <= LAST
            }
        }
        Err(_) => false,
    }
}

// Returns an operation's address, or its length.
pub(crate) fn address(op: &Op) -> u32
    ensures { result ≡ address_of op.now }
{
    match op {
        Op::Alloc(_, n) => *n,
        Op::Release(a) | Op::Reset(a) | Op::Fetch(a) | Op::Take(a) => *a,
        Op::Store(a, _) | Op::Put(a, _) => *a,
    }
}

// Returns whether a cell is empty or isn't an I cell.
fn is_for_cell(block: Option<Block>, cell: Option<Cell>) -> bool
    ensures { (held : Option Held) → block ≡ option_map (λ h. h.block) held → cell ≡ presence_in held
        → result ≡ cell_fits held }
{
    match block {
        None => true,
        Some(block) => match block.kind {
            Kind::I => matches!(cell, Some(Cell::Empty)),
            Kind::M => true,
        },
    }
}
