//! A session becomes a controller's, with room for its trace or for a trace that isn't recorded.
ghost use Rattle.std.specs.Prelude.{◌≡◌, true, false, ◌⊎◌, ◌↔◌, length, IfOk, IfErr, OnOk, Some, None};
ghost use Rattle.im_types.specs.Types.{NoMemory, BadPlan, FitsPlan};
ghost use Rattle.im_plans.specs.UnderWay.{IsPlanUnderWay, PlanGoesOn};
ghost use Rattle.im_controller.specs.State.{OpensAs};

use crate::opening::{AskedPlan, Opening, begin, begin_planned};
use im_disk::Disk;
use im_planning::Plan;
use im_session::Session;
use im_types::Refusal;
use std::alloc::Global;
use std::sync::Wait;

/// Makes room for a trace of `trace_room` lines, 48 bytes each, for the server, the request and the answer of each
/// element, and for the ledgers that count the lines. It shows the full cells on a pane with a reader for each element.
/// Returns `NoMemory`, with the session as it was, if `alloc` refuses the memory.
pub fn start<D: Disk + Drop, R: Wait>(
    rt: &R,
    alloc: Global,
    session: Session<D>,
    trace_room: usize,
) -> Result<Opening<D>, (Refusal, Session<D>)>
    ensures found { IfOk result (λ o. (o.session ≡ session) × (o.limit ≡ trace_room) × (o.plan ≡ None)) }
    ensures recorded { IfOk result (λ o. o.book.recorded ≡ true) }
    ensures ports { IfOk result (λ o. o.ports ≡ length session.engine.memory.windows) }
    ensures refused { IfErr result (λ e. (e.0 ≡ NoMemory) × (e.1 ≡ session)) }
{
    begin(rt, alloc, session, Some(trace_room))
}

/// Does what [`start`] does, for a trace that isn't recorded. No line of it is kept at run time, and it may have as
/// many lines as a `usize` counts. All that contracts say of the trace holds as well. So any number of requests is
/// served in the same memory.
pub fn start_unrecorded<D: Disk + Drop, R: Wait>(
    rt: &R,
    alloc: Global,
    session: Session<D>,
) -> Result<Opening<D>, (Refusal, Session<D>)>
    ensures found { IfOk result (λ o. (o.session ≡ session) × (o.limit ≡ 18446744073709551615) × (o.plan ≡ None)) }
    ensures recorded { IfOk result (λ o. o.book.recorded ≡ false) }
    ensures ports { IfOk result (λ o. o.ports ≡ length session.engine.memory.windows) }
    ensures refused { IfErr result (λ e. (e.0 ≡ NoMemory) × (e.1 ≡ session)) }
{
    begin(rt, alloc, session, None)
}

/// Does what [`start`] does, under a plan. From then on a request is refused with `OffPlan` if the plan doesn't have it
/// with its operation under its number.
///
/// Returns `BadPlan` exactly if the plan doesn't fit the engine's memory, and else `NoMemory` as [`start`] does. The
/// session is then as it was, and the plan is dropped.
pub fn start_planned<D: Disk + Drop, R: Wait>(
    rt: &R,
    alloc: Global,
    session: Session<D>,
    plan: Plan,
    trace_room: usize,
) -> Result<Opening<D>, (Refusal, Session<D>)>
    ensures found { IfOk result (λ o. (o.session ≡ session) × (o.limit ≡ trace_room) × (o.plan ≡ Some plan)) }
    ensures recorded { IfOk result (λ o. o.book.recorded ≡ true) }
    ensures ports { IfOk result (λ o. o.ports ≡ length session.engine.memory.windows) }
    ensures fits { OnOk result (FitsPlan session.engine.memory plan) }
    ensures bad { IfErr result (λ e. (e.0 ≡ BadPlan) ↔ (FitsPlan session.engine.memory plan → ⊥)) }
    ensures refused { IfErr result (λ e. ((e.0 ≡ NoMemory) ⊎ (e.0 ≡ BadPlan)) × (e.1 ≡ session)) }
{
    begin_planned(
        rt,
        alloc,
        session,
        AskedPlan { plan, begun: false },
        Some(trace_room),
    )
}

/// Does what [`start_planned`] does, for a trace that isn't recorded, as [`start_unrecorded`] has it.
pub fn start_planned_unrecorded<D: Disk + Drop, R: Wait>(
    rt: &R,
    alloc: Global,
    session: Session<D>,
    plan: Plan,
) -> Result<Opening<D>, (Refusal, Session<D>)>
    ensures found { IfOk result (λ o. (o.session ≡ session) × (o.limit ≡ 18446744073709551615)
        × (o.plan ≡ Some plan)) }
    ensures recorded { IfOk result (λ o. o.book.recorded ≡ false) }
    ensures ports { IfOk result (λ o. o.ports ≡ length session.engine.memory.windows) }
    ensures fits { OnOk result (FitsPlan session.engine.memory plan) }
    ensures bad { IfErr result (λ e. (e.0 ≡ BadPlan) ↔ (FitsPlan session.engine.memory plan → ⊥)) }
    ensures refused { IfErr result (λ e. ((e.0 ≡ NoMemory) ⊎ (e.0 ≡ BadPlan)) × (e.1 ≡ session)) }
{
    let asked = AskedPlan { plan, begun: false };
    begin_planned(rt, alloc, session, asked, None)
}

/// Goes on with a planned run that was stopped, however often it was, in any way: does what [`start_planned`] does, for
/// a plan of which nothing is done in the engine's memory, or a part, or all. All that contracts say of a planned run
/// holds of it too. A request that was served before is answered as it was then, or since.
///
/// Returns `BadPlan` exactly if the plan isn't under way in the engine's memory, and else `NoMemory` as [`start`] does.
/// The session is then as it was, and the plan is dropped.
pub fn resume_planned<D: Disk + Drop, R: Wait>(
    rt: &R,
    alloc: Global,
    session: Session<D>,
    plan: Plan,
    trace_room: usize,
) -> Result<Opening<D>, (Refusal, Session<D>)>
    ensures found { IfOk result (λ o. OpensAs (Some trace_room) (Some plan) session o) }
    ensures ports { IfOk result (λ o. o.ports ≡ length session.engine.memory.windows) }
    ensures goes_on { OnOk result (PlanGoesOn session.engine.memory plan) }
    ensures bad { IfErr result (λ e. (e.0 ≡ BadPlan) ↔ (IsPlanUnderWay session.engine.memory plan → ⊥)) }
    ensures refused { IfErr result (λ e. ((e.0 ≡ NoMemory) ⊎ (e.0 ≡ BadPlan)) × (e.1 ≡ session)) }
{
    begin_planned(
        rt,
        alloc,
        session,
        AskedPlan { plan, begun: true },
        Some(trace_room),
    )
}

/// Does what [`resume_planned`] does, for a trace that isn't recorded, as [`start_unrecorded`] has it.
pub fn resume_planned_unrecorded<D: Disk + Drop, R: Wait>(
    rt: &R,
    alloc: Global,
    session: Session<D>,
    plan: Plan,
) -> Result<Opening<D>, (Refusal, Session<D>)>
    ensures found { IfOk result (λ o. OpensAs None (Some plan) session o
        × (o.ports ≡ length session.engine.memory.windows)) }
    ensures goes_on { OnOk result (PlanGoesOn session.engine.memory plan) }
    ensures bad { IfErr result (λ e. (e.0 ≡ BadPlan) ↔ (IsPlanUnderWay session.engine.memory plan → ⊥)) }
    ensures refused { IfErr result (λ e. ((e.0 ≡ NoMemory) ⊎ (e.0 ≡ BadPlan)) × (e.1 ≡ session)) }
{
    begin_planned(rt, alloc, session, AskedPlan { plan, begun: true }, None)
}
