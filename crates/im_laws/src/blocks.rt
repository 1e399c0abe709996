//! Blocks.
ghost use Rattle.std.specs.Prelude.{◌≡◌, ℕ, List, [], IsFalse, Option};
ghost use Rattle.im_types.specs.Types.{Kind, Answered, Alloc, Release, Reset, Base, NoSpace, Released, Cleared};
ghost use Rattle.im_types.specs.Types.{Request, Command, Held, Contents, held_at, waiters_at, HasBlocks, is_free};
ghost use Rattle.im_types.specs.Types.{IsLeastFree, step, after};
ghost use Rattle.im_laws.specs.Blocks.{BlocksAreApart, EachCellOf, HasEmptyBlock};
ghost use Rattle.im_laws.specs.{Cells.empty_cell, Requests.after_request, Requests.IsServed};

/// Blocks stay whole and below the cell count, after each command and after any commands.
pub fn blocks_stay_whole()
    ensures step { (m : Contents) (command : Command) → HasBlocks m.cells
        → HasBlocks (step m command).contents.cells }
    ensures run { (m : Contents) (commands : List Command) → HasBlocks m.cells
        → HasBlocks (after m commands).cells }
{}

/// Two blocks that share an address are one block.
pub fn blocks_are_apart()
    ensures { (cells : List (Option Held)) → HasBlocks cells → BlocksAreApart cells }
{}

/// A new request that is answered with a base has the least free base. From there on its block's cells follow, all
/// empty. If a new request is answered that there is no space, no base is free.
pub fn allocation_takes_the_least_place()
    ensures least { (m : Contents) (r : Request) (kind : Kind) (n base : ℕ)
        → IsServed m r (Alloc kind n) (Answered (Base base)) → IsLeastFree m.cells n base }
    ensures made { (m : Contents) (r : Request) (kind : Kind) (n base : ℕ)
        → IsServed m r (Alloc kind n) (Answered (Base base))
        → HasEmptyBlock (after_request m r).cells (record { base = base; length = n; kind = kind }) }
    ensures no_space { (m : Contents) (r : Request) (kind : Kind) (n base : ℕ)
        → IsServed m r (Alloc kind n) (Answered NoSpace) → IsFalse (is_free m.cells base n) }
{}

/// A new release that succeeds frees each cell of the block with that base. No request waited for any of them.
pub fn release_frees_the_block()
    ensures freed { (m : Contents) (r : Request) (a : ℕ)
        → HasBlocks m.cells → IsServed m r (Release a) (Answered Released)
        → EachCellOf m.cells a (λ b block. held_at (after_request m r).cells b ≡ None) }
    ensures nobody { (m : Contents) (r : Request) (a : ℕ)
        → HasBlocks m.cells → IsServed m r (Release a) (Answered Released)
        → EachCellOf m.cells a (λ b block. waiters_at m.cells b ≡ []) }
{}

/// A new reset that succeeds empties each cell of the block with that base. No request waited for any of them.
pub fn reset_empties_the_block()
    ensures emptied { (m : Contents) (r : Request) (a : ℕ)
        → HasBlocks m.cells → IsServed m r (Reset a) (Answered Cleared)
        → EachCellOf m.cells a (λ b block. held_at (after_request m r).cells b ≡ Some (empty_cell block)) }
    ensures nobody { (m : Contents) (r : Request) (a : ℕ)
        → HasBlocks m.cells → IsServed m r (Reset a) (Answered Cleared)
        → EachCellOf m.cells a (λ b block. waiters_at m.cells b ≡ []) }
{}
