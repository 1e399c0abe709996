//! Whether a plan is under way in a memory.
//!
//! Each request is tested by itself, against the memory and the values that the plan stores. So the test takes no
//! memory (decision 530).
ghost use Rattle.std.specs.Prelude.{◌≡◌, ◌↔◌, IsTrue, Some, Option, option_map};
ghost use Rattle.im_types.specs.Types.{Held, same_op, bounds};
ghost use Rattle.im_plans.specs.UnderWay.{IsPlanUnderWay};
ghost use Rattle.im_planning.specs.Progress.{all_go_on, entry_fits, goes_on, is_answer, is_result, is_value, kept_fits};
ghost use Rattle.im_planning.specs.Progress.{number_may_be};

use crate::fitting::address;
use crate::plan::Plan;
use crate::states::is_cell_so;
use im_memory::Memory;
use im_types::{Block, Entry, Kept, Kind, LAST, Op, Reply, Request};

/// Returns whether a plan is under way in a memory: nothing of it is done there, or a part, or all.
///
/// - Each element exists, and no number is past the last one.
/// - What is kept under a number of the plan is the plan's operation. Its answer, if it has one, is the result.
/// - Each I cell that the plan names is empty, with only fetches of the plan waiting for it, or full with the value of
///   the plan's store to it. It is full if and only if the number of that store was used.
///
/// Nothing is kept of what was confirmed, so its operation isn't compared. For n requests it takes time n log n.
#[tactic(auto, using(crate::proofs::ProgressLemmas::plan_goes_on))]
pub fn is_under_way(plan: &Plan, memory: &Memory) -> bool
    ensures { IsTrue result ↔ IsPlanUnderWay memory.now.contents plan.now }
{
    let requests = plan.requests(); // By this call it is known to be a plan.
    do_go_on(plan, requests, memory)
}

// Returns whether each of these requests goes on.
fn do_go_on(plan: &Plan, requests: &[Request], memory: &Memory) -> bool
    ensures { result ≡ all_go_on memory.now.contents plan.now requests.now }
{
    let mut rest = requests;
    while let Some((first, later)) = rest.split_first() {
        if !goes_on(plan, first, memory) {
            return false;
        }
        rest = later;
    }
    true
}

// Returns whether a request goes on.
fn goes_on(plan: &Plan, request: &Request, memory: &Memory) -> bool
    ensures { result ≡ goes_on memory.now.contents plan.now request.now }
{
    if !may_be(request, memory) {
        return false;
    }
    if !is_kept_so(plan, request, memory) {
        return false;
    }
    is_cell_so(plan, request, memory)
}

// Returns whether a request's number may be one.
fn may_be(request: &Request, memory: &Memory) -> bool
    ensures { result ≡ number_may_be request.now.number (bounds memory.now.contents.windows request.now.element) }
{
    match memory.window(request.element) {
        Ok(_) => request.number <= LAST,
        Err(_) => false,
    }
}

// Returns whether what is kept for a request, if there is anything, is of its operation, and has its result or waits.
fn is_kept_so(plan: &Plan, request: &Request, memory: &Memory) -> bool
    ensures { result ≡ entry_fits memory.now.contents plan.now request.now }
{
    let a = address(&request.op);
    match memory.kept(request.element, request.number) {
        None => true,
        Some(kept) => is_entry_so(&request.op, plan.stored_at(a), memory.block(a), &kept),
    }
}

// Returns whether this is kept for an operation, by the block of its cell.
fn is_entry_so(op: &Op, stored: Option<u64>, block: Option<Block>, kept: &Kept) -> bool
    ensures { (held : Option Held) → block ≡ option_map (λ h. h.block) held
        → result ≡ kept_fits op.now stored held (Some kept.now) }
{
    if !is_same(&kept.op, op) {
        return false;
    }
    match &kept.entry {
        Entry::Waiting => true,
        Entry::Answered(reply) => is_result(op, stored, block, reply),
    }
}

// Returns whether two operations are the same.
fn is_same(op: &Op, other: &Op) -> bool
    ensures { result ≡ same_op op.now other.now }
{
    op == other
}

// Returns whether a reply is an operation's result, by the block of its cell.
fn is_result(op: &Op, stored: Option<u64>, block: Option<Block>, reply: &Reply) -> bool
    ensures { (held : Option Held) → block ≡ option_map (λ h. h.block) held
        → result ≡ is_result op.now stored held reply.now }
{
    match block {
        None => matches!(reply, Reply::NoCell),
        Some(block) => match block.kind {
            Kind::I => is_answer(op, stored, reply),
            Kind::M => matches!(reply, Reply::WrongKind),
        },
    }
}

// Returns whether a reply is that to an operation on an I cell that the plan stores this value to.
fn is_answer(op: &Op, stored: Option<u64>, reply: &Reply) -> bool
    ensures { result ≡ is_answer op.now stored reply.now }
{
    match op {
        Op::Fetch(_) => is_value(stored, reply),
        Op::Store(_, _) => matches!(reply, Reply::Stored),
        _ => false,
    }
}

// Returns whether a reply is this value.
fn is_value(stored: Option<u64>, reply: &Reply) -> bool
    ensures { result ≡ is_value stored reply.now }
{
    match stored {
        None => false,
        Some(value) => match reply {
            Reply::Value(other) => value == *other,
            _ => false,
        },
    }
}
