//! The beginning of a run, before any thread starts.
ghost use Rattle.std.specs.Prelude.{◌≡◌, ◌≤◌, true, false, map, length, IfSome, IfNone, IfOk, IfErr, OnOk, Some};
ghost use Rattle.{im_types.specs.Types.FitsPlan, im_controller.specs.State.is_recorded};
ghost use Rattle.im_run.specs.{Orders.ask_of, Orders.asks_in, Running.AreThere};
ghost use Rattle.im_run.specs.Planned.{FitsIfNew, plan_of, planned_orders};

use crate::planned::{make_plan, plan_fault};
use crate::sheet::{Order, Workload};
use im_controller::{
    Opening, resume_planned, resume_planned_unrecorded, start, start_planned,
    start_planned_unrecorded, start_unrecorded,
};
use im_disk::Disk;
use im_memory::Memory;
use im_planning::Plan;
use im_session::Session;
use im_text::Reason;
use im_types::{Refusal, WINDOW};
use std::alloc::Global;
use std::sync::Wait;

// Returns the element of an order that doesn't exist, if there is one.
fn missing_element(memory: &Memory, orders: &[Order]) -> Option<u16>
    ensures none { IfNone result (AreThere memory.now.contents orders.now) }
    ensures some { IfSome result (λ element. length memory.now.contents.windows ≤ element) }
{
    for order in orders {
        if order.element >= memory.elements() {
            return Some(order.element);
        }
    }
    None
}

// How a plan is begun: with room for a trace or without a record of one, and whether it goes on with what was done of
// it before.
#[derive(Clone, Copy)]
struct PlanStart {
    room: Option<usize>,
    resumed: bool,
}

// Starts under a plan.
fn start_by<D: Disk + Drop, R: Wait>(
    rt: &R,
    alloc: Global,
    session: Session<D>,
    plan: Plan,
    start: PlanStart,
) -> Result<Opening<D>, (Refusal, Session<D>)>
    ensures found { IfOk result (λ o. (o.session ≡ session) × (o.plan ≡ Some plan)) }
    ensures recorded { IfOk result (λ o. o.book.recorded ≡ is_recorded start.room) }
    ensures fits { OnOk result (start.resumed ≡ false → FitsPlan session.engine.memory plan) }
    ensures same { IfErr result (λ e. e.1 ≡ session) }
{
    match start.room {
        Some(room) => {
            if start.resumed {
                return resume_planned(rt, alloc, session, plan, room);
            }
            start_planned(rt, alloc, session, plan, room)
        }
        None => {
            if start.resumed {
                return resume_planned_unrecorded(rt, alloc, session, plan);
            }
            start_planned_unrecorded(rt, alloc, session, plan)
        }
    }
}

// The same without a plan.
fn start_freely<D: Disk + Drop, R: Wait>(
    rt: &R,
    alloc: Global,
    session: Session<D>,
    room: Option<usize>,
) -> Result<Opening<D>, (Refusal, Session<D>)>
    ensures found { IfOk result (λ o. o.session ≡ session) }
    ensures recorded { IfOk result (λ o. o.book.recorded ≡ is_recorded room) }
    ensures same { IfErr result (λ e. e.1 ≡ session) }
{
    match room {
        Some(room) => start(rt, alloc, session, room),
        None => start_unrecorded(rt, alloc, session),
    }
}

// Opens for a run under the plan of these orders.
fn begin_planned<D: Disk + Drop, R: Wait>(
    rt: &R,
    alloc: Global,
    session: Session<D>,
    orders: &[Order],
    start: PlanStart,
) -> Result<Opening<D>, (Reason, Session<D>)>
    ensures found { IfOk result (λ o. (o.session ≡ session) × (o.plan ≡ Some (plan_of (map ask_of orders.now)))) }
    ensures recorded { IfOk result (λ o. o.book.recorded ≡ is_recorded start.room) }
    ensures fits { OnOk result (start.resumed ≡ false
        → FitsPlan session.engine.memory (plan_of (map ask_of orders.now))) }
    ensures same { IfErr result (λ e. e.1 ≡ session) }
{
    let plan = match make_plan(alloc, orders) {
        Ok(plan) => plan,
        Err(refusal) => {
            let reason = plan_fault(alloc, session.memory(), orders, refusal);
            return Err((reason, session));
        }
    };
    match start_by(rt, alloc, session, plan, start) {
        Ok(opening) => Ok(opening),
        Err((refusal, session)) => {
            let reason = plan_fault(alloc, session.memory(), orders, refusal);
            Err((reason, session))
        }
    }
}

// Opens for a run without a plan.
fn begin_free<D: Disk + Drop, R: Wait>(
    rt: &R,
    alloc: Global,
    session: Session<D>,
    room: Option<usize>,
) -> Result<Opening<D>, (Reason, Session<D>)>
    ensures found { IfOk result (λ o. o.session ≡ session) }
    ensures recorded { IfOk result (λ o. o.book.recorded ≡ is_recorded room) }
    ensures same { IfErr result (λ e. e.1 ≡ session) }
{
    match start_freely(rt, alloc, session, room) {
        Ok(opening) => Ok(opening),
        Err((_, session)) => Err((Reason::Memory, session)),
    }
}

// How many lines the trace has room for: as many as servers leave at most. A request leaves one line when it is asked
// for and one when it is found answered. If its window is full, there are two more before it: a confirmation, and an
// entry that still waits. Each entry that an element's window had before leaves one line when it is found answered.
// Glances leave none, but are counted too.
fn trace_room(orders: &[Order], elements: u16) -> usize {
    let mut room = (elements as usize).saturating_mul(WINDOW as usize);
    for order in orders {
        room = room.saturating_add(order.intents.len().saturating_mul(4));
    }
    room
}

// Returns the room for a trace, if it is recorded.
fn room_if(recorded: bool, orders: &[Order], elements: u16) -> Option<usize>
    ensures { is_recorded result ≡ recorded }
{
    if recorded {
        Some(trace_room(orders, elements))
    } else {
        None
    }
}

// Opens for a run under the plan of these orders, or of all that the script asks for, if that is known.
fn begin_by<D: Disk + Drop, R: Wait>(
    rt: &R,
    alloc: Global,
    session: Session<D>,
    work: &Workload,
    room: Option<usize>,
) -> Result<Opening<D>, (Reason, Session<D>)>
    ensures found { IfOk result (λ o. (o.session ≡ session)
        × (o.plan ≡ Some (plan_of (planned_orders (asks_in work.now.whole) (map ask_of work.now.orders.items))))) }
    ensures recorded { IfOk result (λ o. o.book.recorded ≡ is_recorded room) }
    ensures fits { OnOk result (FitsIfNew (asks_in work.now.whole) session.engine.memory
        (plan_of (planned_orders (asks_in work.now.whole) (map ask_of work.now.orders.items)))) }
    ensures same { IfErr result (λ e. e.1 ≡ session) }
{
    match &work.whole {
        Some(whole) => {
            let start = PlanStart {
                room,
                resumed: true,
            };
            begin_planned(rt, alloc, session, whole.orders.as_slice(), start)
        }
        None => {
            let start = PlanStart {
                room,
                resumed: false,
            };
            begin_planned(rt, alloc, session, work.orders.as_slice(), start)
        }
    }
}

/// Makes room for what the elements ask for, and for the trace if it is recorded, before any thread starts. Returns
/// `NoElement` if one of the elements doesn't exist.
///
/// If the run is planned, its plan is of all requests of the orders. It then returns `BadPlan` if they make no plan:
/// a request is no fetch or store, two requests store to one address, a cell that a request names isn't empty or has a
/// waiter, or a number lies past the last one. If all that the script asks for is known, the plan is of that, and goes
/// on with what was done of it: it then returns `BadPlan` if the plan isn't under way in the memory.
pub fn begin<D: Disk + Drop, R: Wait>(
    rt: &R,
    alloc: Global,
    session: Session<D>,
    work: &Workload,
    recorded: bool,
) -> Result<Opening<D>, (Reason, Session<D>)>
    ensures found { IfOk result (λ o. o.session ≡ session) }
    ensures plan { IfOk result (λ o. work.now.planned ≡ true
        → o.plan ≡ Some (plan_of (planned_orders (asks_in work.now.whole) (map ask_of work.now.orders.items)))) }
    ensures fits { OnOk result (work.now.planned ≡ true → FitsIfNew (asks_in work.now.whole) session.engine.memory
        (plan_of (planned_orders (asks_in work.now.whole) (map ask_of work.now.orders.items)))) }
    ensures recorded { IfOk result (λ o. o.book.recorded ≡ recorded) }
    ensures there { IfOk result (λ _. AreThere session.engine.memory work.now.orders.items) }
    ensures same { IfErr result (λ e. e.1 ≡ session) }
{
    let orders = work.orders.as_slice();
    if let Some(element) = missing_element(session.memory(), orders) {
        return Err((Reason::Request(element, Refusal::NoElement), session));
    }
    let room = room_if(recorded, orders, session.memory().elements());
    if work.planned {
        return begin_by(rt, alloc, session, work, room);
    }
    begin_free(rt, alloc, session, room)
}
