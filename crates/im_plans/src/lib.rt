//! Laws of planned runs. A planned run is a trace that requests only what a plan has, on a memory that the plan fits.
//! Each function here does nothing, and its contract is a law. The laws hold for every order of the requests, with any
//! questions and confirmations between them.
#![tactic(auto)]

mod under_way;

ghost use Rattle.std.specs.Prelude.{◌≡◌, ◌↔◌, List, [], ◌∷◌, ◌++◌, Some, None};
ghost use Rattle.std.specs.List.{AllByRecursion};
ghost use Rattle.im_types.specs.Types.{Entry, Waiting, Value, Stored, NoCell, Request, Line, Asks, Tells, Commands};
ghost use Rattle.im_types.specs.Types.{Contents, result_of, IsLegal, end_of};
ghost use Rattle.im_plans.specs.Example.{a_plan, results_of, two_cells};
ghost use Rattle.im_plans.specs.Runs.{end_entry, EndsWith, HasServed, IsPlannedCall, IsPlannedRun, IsResultOrWaits};
ghost use Rattle.im_plans.specs.Runs.{Starts, TellsResults};

pub use under_way::{plan_stays_under_way, stopped_plan_has_one_end, stopped_runs_tell_results};

/// Each answer to a planned request in a legal planned run is the request's result by the plan, which names no order.
/// This holds for the answer at once, the answer when it is sent again, and the answer when its entry is collected. It
/// also holds for each answer that is kept at the end.
pub fn planned_answers_are_results()
    ensures told { (m : Contents) (plan : List Request) (trace : List Line) → Starts m plan
        → IsLegal m trace → IsPlannedRun plan trace → AllByRecursion (TellsResults m plan) trace }
    ensures last { (m : Contents) (plan : List Request) (trace : List Line) (line : Line)
        → Starts m plan → IsLegal m (trace ++ line ∷ []) → IsPlannedRun plan (trace ++ line ∷ [])
        → TellsResults m plan line }
    ensures kept { (m : Contents) (plan : List Request) (trace : List Line) (r : Request)
        (entry : Entry) → EndsWith m plan trace r entry
        → IsResultOrWaits (result_of m.cells plan r.op) entry }
{}

/// A fetch of an I cell that the plan doesn't store to stays waiting.
pub fn fetch_with_no_store_waits()
    ensures { (m : Contents) (plan : List Request) (trace : List Line) (r : Request)
        (entry : Entry) → EndsWith m plan trace r entry → result_of m.cells plan r.op ≡ None
        → entry ≡ Waiting }
{}

/// Once the whole plan is served, the memory at the start and the plan alone give the entry that is kept for each of
/// its requests. It is the request's result, or Waiting if there is no result.
pub fn served_plan_has_one_end()
    ensures { (m : Contents) (plan : List Request) (trace : List Line) (r : Request)
        (entry : Entry) → EndsWith m plan trace r entry → HasServed (end_of m trace).windows plan
        → entry ≡ end_entry m plan r }
{}

/// A planned run with one more line is planned if and only if that line is.
pub fn planned_run_grows()
    ensures { (plan : List Request) (trace : List Line) (line : Line) → IsPlannedRun plan trace
        → IsPlannedRun plan (trace ++ line ∷ []) ↔ IsPlannedCall plan line.call }
{}

/// An example. A fetch has the value that the plan stores, before and after the store. A fetch of an address in no
/// block has the result `NoCell`.
pub fn plan_has_results()
    ensures { results_of two_cells a_plan
        ≡ Some (Value 5) ∷ Some (Value 6) ∷ Some Stored ∷ Some Stored ∷ Some (Value 5) ∷ Some NoCell
        ∷ [] }
{}
