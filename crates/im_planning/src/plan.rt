//! A plan: fetches and stores that may be served in any order.
ghost use Rattle.std.specs.Prelude.{◌≡◌, ℕ, ◌⊎◌, ◌↔◌, List, [], ◌∷◌, IfOk, IfErr, OnOk, IsTrue};
ghost use Rattle.std.specs.{BTreeMap.get, Ordering.nat_cmp};
ghost use Rattle.im_types.specs.Types.{Request as Asked, NoMemory, BadPlan, same_op, planned_value, is_planned, IsPlan};
ghost use Rattle.im_plans.specs.Runs.{IsInPlan};
ghost use Rattle.im_planning.specs.Begins.{IndexesPlan, StandsBefore, StandsFirst};
ghost use Rattle.im_planning.specs.Making.{is_op, key_cmp, op_under};

use im_types::{Op, Refusal, Request};
use std::alloc::Global;
use std::collections::BTreeMap;
use std::marker::Model;

/// The requests of a plan. They are fetches and stores, each under its own element's number, with at most one store to
/// an address. Contracts see their list.
#[derive(Drop)]
pub struct Plan {
    requests: Vec<Request>,
    under: BTreeMap<(u16, u64), Op>,
    stored: BTreeMap<u32, u64>,
}

impl Model for Plan {
    ghost use Rattle.std.specs.{Prelude.◌≡◌, Prelude.ℕ, Prelude.List, BTreeMap.get, Ordering.nat_cmp};
    ghost use Rattle.im_types.specs.Types.{Request, planned_value, IsPlan};
    ghost use Rattle.im_planning.specs.Making.{Key, key_cmp, op_under};

    ghost Value = { List Request };

    ghost view = { λ p. p.requests.items };

    ghost invariant = { λ p. IsPlan p.requests.items
        × ((key : Key) → get key_cmp p.under key ≡ op_under key p.requests.items)
        × ((a : ℕ) → get nat_cmp p.stored a ≡ planned_value a p.requests.items) };
}

impl Plan {
    /// Makes a plan of n requests, in time n log n. Returns `BadPlan` if a request is no fetch or store, two requests
    /// have one element and number, or two store to one address. Returns `NoMemory` if `alloc` refuses its index.
    pub fn new(alloc: Global, requests: Vec<Request>) -> Result<Plan, Refusal>
        ensures found { IfOk result (λ plan. plan ≡ requests.items) }
        ensures plan { OnOk result (IsPlan requests.items) }
        ensures bad { IfErr result (λ e. e ≡ BadPlan → IsPlan requests.items → ⊥) }
        ensures only { IfErr result (λ e. (e ≡ NoMemory) ⊎ (e ≡ BadPlan)) }
    {
        let mut under = BTreeMap::new(alloc);
        let mut stored = BTreeMap::new(alloc);
        let mut at = requests.len();
        while at > 0 {
            at -= 1;
            if let Err(refusal) = add(&mut under, &mut stored, &requests[at]) {
                return Err(refusal);
            }
        }
        Ok(Plan {
            requests,
            under,
            stored,
        })
    }

    /// Returns whether the plan has this request, with its operation, under its element's number. It takes logarithmic
    /// time.
    #[tactic(auto, using(crate::proofs::MakingLemmas::in_plan))]
    pub fn has(&self, request: &Request) -> bool
        ensures has { IsTrue result ↔ IsInPlan self.now request.now }
        ensures found { result ≡ is_op request.now.op (op_under (request.now.element, request.now.number) self.now) }
    {
        self.has_under(request)
    }

    /// Returns the plan's requests, in the order in which they were given.
    pub fn requests(&self) -> &[Request]
        ensures all { result.now ≡ self.now }
        ensures plan { IsPlan self.now }
    {
        self.requests.as_slice()
    }

    /// Returns the value that the plan stores at an address, or `None` if it has no store to it. It takes logarithmic
    /// time.
    pub fn stored_at(&self, address: u32) -> Option<u64>
        ensures { result ≡ planned_value address self.now }
    {
        self.stored.get(&address).copied()
    }

    // Returns the same by the index.
    fn has_under(&self, request: &Request) -> bool
        ensures found { result ≡ is_op request.now.op (op_under (request.now.element, request.now.number) self.now) }
        ensures plan { IsPlan self.now }
    {
        match self.under.get(&(request.element, request.number)) {
            Some(op) => op == &request.op,
            None => false,
        }
    }
}

// Returns whether an operation may stand in a plan.
fn is_for_plans(op: &Op) -> bool
    ensures { result ≡ is_planned op.now }
{
    matches!(op, Op::Fetch(_) | Op::Store(_, _))
}

// Puts a request before others, in the index and among the values that are stored.
fn add(
    under: &mut BTreeMap<(u16, u64), Op>,
    stored: &mut BTreeMap<u32, u64>,
    request: &Request,
) -> Result<(), Refusal>
    ensures begins { (plan : List Asked) → IndexesPlan (get key_cmp under.old) (get nat_cmp stored.old) plan
        → IfOk result (λ u. StandsFirst request.now plan (get key_cmp under.new) (get nat_cmp stored.new)) }
    ensures bad { (plan : List Asked) → IndexesPlan (get key_cmp under.old) (get nat_cmp stored.old) plan
        → IfErr result (λ e. e ≡ BadPlan → StandsBefore request.now plan → ⊥) }
    ensures only { IfErr result (λ e. (e ≡ NoMemory) ⊎ (e ≡ BadPlan)) }
{
    if !is_for_plans(&request.op) {
        return Err(Refusal::BadPlan);
    }
    match under.insert((request.element, request.number), request.op) {
        Ok(None) => {}
        Ok(Some(_)) => return Err(Refusal::BadPlan),
        Err(_) => return Err(Refusal::NoMemory),
    }
    if let Op::Store(address, value) = request.op {
        match stored.insert(address, value) {
            Ok(None) => {}
            Ok(Some(_value)) => return Err(Refusal::BadPlan),
            Err(_) => return Err(Refusal::NoMemory),
        }
    }
    Ok(())
}
