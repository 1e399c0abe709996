//! What stays true of a memory.
ghost use Rattle.std.specs.Prelude.{ℕ, List};
ghost use Rattle.im_types.specs.Types.{Command, Contents, empty_contents, IsMemory, step, after};

/// The empty memory is a memory. A memory stays one after each command and after any commands. So its numbers of cells
/// and windows stay, its blocks are whole and its windows within their bounds. Each request in a cell's list has a
/// waiting entry.
pub fn memory_stays_one()
    ensures empty { (cells elements : ℕ) → IsMemory cells elements (empty_contents cells elements) }
    ensures step { (cells elements : ℕ) (m : Contents) (command : Command)
        → IsMemory cells elements m → IsMemory cells elements (step m command).contents }
    ensures run { (cells elements : ℕ) (m : Contents) (commands : List Command)
        → IsMemory cells elements m → IsMemory cells elements (after m commands) }
    ensures reached { (cells elements : ℕ) (commands : List Command)
        → IsMemory cells elements (after (empty_contents cells elements) commands) }
{}
