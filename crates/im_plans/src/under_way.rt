//! Laws of planned runs that were stopped and gone on with: runs of one plan, each from the memory where the one before
//! stopped. Each function here does nothing, and its contract is a law.
ghost use Rattle.std.specs.{Prelude.◌≡◌, Prelude.ℕ, Prelude.◌↔◌, Prelude.List, Prelude.None, List.AllByRecursion};
ghost use Rattle.im_types.specs.Types.{Entry, Op, Waiting, Request, Command, Call, Commands, Contents, held_at};
ghost use Rattle.im_types.specs.Types.{full_at, WaitingAgrees, after, planned_value, result_of, FitsPlan};
ghost use Rattle.im_types.specs.Types.{contents_after};
ghost use Rattle.im_plans.specs.Runs.{end_entry, IsPlannedCall, IsResultOrWaits, TellsResults};
ghost use Rattle.im_plans.specs.UnderWay.{AreLegal, AreRunsOf, end_of_runs, HaveServed, IsKeptAfter, IsPlanUnderWay};
ghost use Rattle.im_plans.specs.UnderWay.{IsPlanUnserved, PlanGoesOn, Traces, value_in_end};

/// A plan that fits a memory is one that is under way there, with nothing of it served yet. It stays under way after
/// each call of a planned run, so in each memory that a stop leaves, and over any number of runs. Its results stay as
/// they are.
pub fn plan_stays_under_way()
    ensures begins { (m : Contents) (plan : List Request) → WaitingAgrees m
        → FitsPlan m plan ↔ (IsPlanUnderWay m plan × IsPlanUnserved m.windows plan) }
    ensures step { (m : Contents) (plan : List Request) (call : Call) → PlanGoesOn m plan → IsPlannedCall plan call
        → PlanGoesOn (contents_after m call) plan }
    ensures after { (m : Contents) (plan : List Request) (cs : List Command) → PlanGoesOn m plan
        → AllByRecursion (λ (c : Command). IsPlannedCall plan (Commands c)) cs → PlanGoesOn (after m cs) plan }
    ensures stays { (m : Contents) (plan : List Request) (runs : Traces) → AreRunsOf plan m runs
        → PlanGoesOn (end_of_runs m runs) plan }
    ensures results { (m : Contents) (plan : List Request) (runs : Traces) (op : Op) → AreRunsOf plan m runs
        → result_of (end_of_runs m runs).cells plan op ≡ result_of m.cells plan op }
{}

/// Each answer to a planned request is the request's result by the plan, whatever was done before and however often the
/// runs were stopped. So is each answer that is kept at the end. A fetch that has no result stays waiting.
pub fn stopped_runs_tell_results()
    ensures told { (m : Contents) (plan : List Request) (runs : Traces) → AreRunsOf plan m runs → AreLegal m runs
        → AllByRecursion (AllByRecursion (TellsResults m plan)) runs }
    ensures kept { (m : Contents) (plan : List Request) (runs : Traces) (r : Request) (entry : Entry)
        → IsKeptAfter m plan runs r entry → IsResultOrWaits (result_of m.cells plan r.op) entry }
    ensures waits { (m : Contents) (plan : List Request) (runs : Traces) (r : Request) (entry : Entry)
        → IsKeptAfter m plan runs r entry → result_of m.cells plan r.op ≡ None → entry ≡ Waiting }
{}

/// Once the whole plan is served, the plan and the memory at the start alone give the entry that is kept for each of
/// its requests, and the value of each full I cell. So a plan has one end, wherever its runs were stopped.
pub fn stopped_plan_has_one_end()
    ensures entries { (m : Contents) (plan : List Request) (runs : Traces) (r : Request) (entry : Entry)
        → HaveServed m plan runs → IsKeptAfter m plan runs r entry → entry ≡ end_entry m plan r }
    ensures cells { (m : Contents) (plan : List Request) (runs : Traces) (a : ℕ) → HaveServed m plan runs
        → full_at (end_of_runs m runs) a ≡ value_in_end (planned_value a plan) (held_at m.cells a) }
{}
