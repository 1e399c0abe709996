//! Windows of request numbers.
ghost use Rattle.std.specs.Prelude.{◌≡◌, ℕ, ◌+◌, ◌<◌, ◌≤◌, ◌⊎◌, ◌↔◌, List, IsErr, IsTrue};
ghost use Rattle.im_types.specs.Types.{Waiter, Kept, Request, Command, Asks, Confirm, Confirmed, Gap, Forgotten};
ghost use Rattle.im_types.specs.Types.{WindowFull, NoElement, NotAnswered, WINDOW, LAST, Window, Contents, kept_for};
ghost use Rattle.im_types.specs.Types.{ask, bounds, asker, step, is_accepted, after};
ghost use Rattle.im_laws.specs.Entries.{IsRefused};
ghost use Rattle.im_laws.specs.Windows.{AreNoLess, DropsEntries, IsConfirmable, IsForgotten, IsNextRequest, MovesBase};
ghost use Rattle.im_laws.specs.Windows.{TakesNextNumber, WaitsBelow};

/// An accepted request takes its element's next number, and moves no other bound of a window.
pub fn request_takes_the_next_number()
    ensures { (m : Contents) (r : Request) → IsTrue (is_accepted m (Asks r)) → TakesNextNumber m r }
{}

/// An accepted confirmation raises its window's base to the confirmed number, and moves no other bound.
pub fn confirmation_moves_the_base()
    ensures { (m : Contents) (element upto : ℕ) → IsTrue (is_accepted m (Confirm element upto))
        → MovesBase m element upto }
{}

/// Neither bound of a window ever falls.
pub fn bounds_never_fall()
    ensures { (m : Contents) (commands : List Command) (element base next : ℕ)
        → bounds m.windows element ≡ Ok (base, next)
        → AreNoLess base next (bounds (after m commands).windows element) }
{}

/// The bounds of a window decide about a request whose number isn't kept. It is accepted if and only if it has the next
/// number, that number isn't past the last one of all, and the window has room. A number past the next one or past the
/// last one is a gap. The next number at a full window is refused as `WindowFull`. A refusal changes nothing.
pub fn requests_are_judged_by_bounds()
    ensures accepted { (m : Contents) (r : Request)
        → IsTrue (is_accepted m (Asks r)) ↔ IsNextRequest m.windows r }
    ensures no_element { (m : Contents) (r : Request) → IsErr (bounds m.windows r.element)
        → IsRefused m r NoElement }
    ensures gap { (m : Contents) (r : Request) (base next : ℕ)
        → bounds m.windows r.element ≡ Ok (base, next) → next ≤ r.number
        → (next < r.number) ⊎ (LAST < r.number) → IsRefused m r Gap }
    ensures full { (m : Contents) (r : Request) (base : ℕ)
        → bounds m.windows r.element ≡ Ok (base, r.number) → r.number ≤ LAST
        → base + WINDOW ≤ r.number → IsRefused m r WindowFull }
{
    // A law has no steps.
}

/// A confirmation succeeds if and only if its number isn't past the next one and no entry below it waits. It drops the
/// entries below that number, and leaves all other entries and all cells.
pub fn confirmations_drop_what_is_answered()
    ensures confirmed { (m : Contents) (element upto : ℕ)
        → ((step m (Confirm element upto)).answer ≡ Ok Confirmed)
        ↔ IsConfirmable m.windows element upto }
    ensures dropped { (m : Contents) (element upto : ℕ)
        → (step m (Confirm element upto)).answer ≡ Ok Confirmed → DropsEntries m element upto }
    ensures cells { (m : Contents) (element upto : ℕ)
        → (step m (Confirm element upto)).contents.cells ≡ m.cells }
    ensures no_element { (m : Contents) (element upto : ℕ) → IsErr (bounds m.windows element)
        → (step m (Confirm element upto)).answer ≡ Err NoElement }
    ensures gap { (m : Contents) (element upto base next : ℕ)
        → bounds m.windows element ≡ Ok (base, next) → next < upto
        → (step m (Confirm element upto)).answer ≡ Err Gap }
    ensures waits { (m : Contents) (element upto : ℕ) → WaitsBelow m.windows element upto
        → (step m (Confirm element upto)).answer ≡ Err NotAnswered }
{}

/// An entry is kept for exactly the numbers within the window's bounds, and a question for it is answered with that
/// entry. Below the bounds the question is refused as forgotten, and past them as a gap.
pub fn entries_are_kept_within_bounds()
    ensures below { (windows : List Window) (who : Waiter) (base next : ℕ)
        → bounds windows who.element ≡ Ok (base, next) → who.number < base
        → ask windows who ≡ Err Forgotten }
    ensures within { (windows : List Window) (who : Waiter) (base next : ℕ)
        → bounds windows who.element ≡ Ok (base, next) → base ≤ who.number → who.number < next
        → (k : Kept) × (kept_for windows who ≡ Some k) }
    ensures told { (windows : List Window) (who : Waiter) (k : Kept) → kept_for windows who ≡ Some k
        → ask windows who ≡ Ok k.entry }
    ensures past { (windows : List Window) (who : Waiter) (base next : ℕ)
        → bounds windows who.element ≡ Ok (base, next) → next ≤ who.number
        → ask windows who ≡ Err Gap }
    ensures no_element { (windows : List Window) (who : Waiter) → IsErr (bounds windows who.element)
        → ask windows who ≡ Err NoElement }
{}

/// A confirmed number stays forgotten, whatever commands come later. A request under it is refused as forgotten and
/// changes nothing. So is a question for its entry.
pub fn forgotten_for_ever()
    ensures stays { (m : Contents) (commands : List Command) (who : Waiter)
        → IsForgotten m.windows who → IsForgotten (after m commands).windows who }
    ensures refused { (m : Contents) (r : Request) → IsForgotten m.windows (asker r)
        → IsRefused m r Forgotten }
    ensures told { (windows : List Window) (who : Waiter)
        → IsForgotten windows who ↔ (ask windows who ≡ Err Forgotten) }
{}
