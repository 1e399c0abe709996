//! The places of blocks.
ghost use Rattle.std.specs.Prelude.{◌≡◌, ℕ, ◌+◌, ◌<◌, ◌≤◌, ◌↔◌, List, length, IsFalse, Option};
ghost use Rattle.im_types.specs.Types.{Held, held_at, is_free, place, IsLeastFree};

/// A block of at least one cell is placed at the least base from which enough cells are free. It has no place if and
/// only if no base is free. Its cells lie below the cell count and are in no block.
pub fn place_is_the_least()
    ensures least { (cells : List (Option Held)) (n base : ℕ) → 1 ≤ n
        → (place n cells ≡ Some base) ↔ IsLeastFree cells n base }
    ensures none { (cells : List (Option Held)) (n : ℕ) → 1 ≤ n
        → (place n cells ≡ None) ↔ ((base : ℕ) → IsFalse (is_free cells base n)) }
    ensures within { (cells : List (Option Held)) (n base : ℕ) → place n cells ≡ Some base
        → base + n ≤ length cells }
    ensures free { (cells : List (Option Held)) (n base a : ℕ) → place n cells ≡ Some base
        → base ≤ a → a < base + n → held_at cells a ≡ None }
{}
