//! Waiting requests and their entries.
ghost use Rattle.std.specs.Prelude.{◌≡◌, ℕ, ◌≤◌, ◌↔◌, List, IsTrue};
ghost use Rattle.im_types.specs.Types.{Waiter, Kept, Command, Contents, waiters_at, kept_for, empty_contents, times};
ghost use Rattle.im_types.specs.Types.{address_of, WaitingAgrees, is_waiting, step, after};
ghost use Rattle.im_laws.specs.Agreement.{WaitsAt};

/// The requests in a cell's list are those with a waiting entry for that cell. Each command keeps this agreement, and
/// it holds after any commands on an empty memory.
pub fn waiting_agrees()
    ensures step { (m : Contents) (command : Command) → WaitingAgrees m
        → WaitingAgrees (step m command).contents }
    ensures run { (cells elements : ℕ) (commands : List Command)
        → WaitingAgrees (after (empty_contents cells elements) commands) }
{}

/// The meaning of the agreement. A request stands in a cell's list if and only if it has a waiting entry for that cell.
/// It stands there once, and in no other list. Each waiting entry waits for the cell that its operation names.
pub fn waiting_entries_are_listed_once()
    ensures listed { (m : Contents) → WaitingAgrees m → (who : Waiter) (a : ℕ)
        → (1 ≤ times who (waiters_at m.cells a)) ↔ WaitsAt m who a }
    ensures once { (m : Contents) → WaitingAgrees m → (who : Waiter) (a : ℕ)
        → times who (waiters_at m.cells a) ≤ 1 }
    ensures in_one_list { (m : Contents) (who : Waiter) (a b : ℕ) → WaitsAt m who a
        → WaitsAt m who b → a ≡ b }
    ensures somewhere { (m : Contents) → WaitingAgrees m → (who : Waiter) (k : Kept)
        → kept_for m.windows who ≡ Some k → IsTrue (is_waiting k)
        → WaitsAt m who (address_of k.op) }
{}
