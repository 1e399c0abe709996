//! Cells that stay as they are.
ghost use Rattle.std.specs.Prelude.{◌≡◌, ℕ};
ghost use Rattle.im_types.specs.Types.{Request, Contents, held_at, HasBlocks};
ghost use Rattle.im_laws.specs.{Cells.MayChange, Requests.after_request};

/// A request leaves each cell that its operation may not change. An allocation leaves all cells that are in a block. A
/// release and a reset leave all cells of other blocks. Each other operation leaves all cells but the one at its
/// address.
pub fn other_cells_stay()
    ensures { (m : Contents) (r : Request) (b : ℕ) → HasBlocks m.cells
        → ¬ (MayChange r.op m.cells b)
        → held_at (after_request m r).cells b ≡ held_at m.cells b }
{}
