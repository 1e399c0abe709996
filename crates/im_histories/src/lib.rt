//! Laws over whole histories of requests. They hold for every list of commands on an empty memory. They count the
//! requests of a block's life and use no states of cells.
#![tactic(auto)]

ghost use Rattle.std.specs.Prelude.{ℕ, List};
ghost use Rattle.im_types.specs.Types.{Command, empty_contents, ValueLaw, MatchingLaw};
ghost use Rattle.im_histories.specs.Entries.{EntryLaw};

/// The value law of I cells. Each fetch of a cell in a block's life has, in the end, the first value that is stored
/// there in that life, earlier or later than the fetch. If no value is stored, it waits. A fetch after the second store
/// to its cell has a clash.
pub fn value_law()
    ensures { (cells elements : ℕ) (commands : List Command) → ValueLaw (empty_contents cells elements) commands }
{}

/// The matching law of M cells. In the end the k-th take of a cell in a block's life has the value of the k-th put to
/// that cell. If there is no k-th put, it waits. A put clashes if more puts than takes of its cell came before it. From
/// that put on, each take and each put of the cell has a clash.
pub fn matching_law()
    ensures { (cells elements : ℕ) (commands : List Command) → MatchingLaw (empty_contents cells elements) commands }
{}

/// Each accepted request has an entry in the end, or had one when it was dropped. An answer that was given at once is
/// that entry.
pub fn entry_law()
    ensures { (cells elements : ℕ) (commands : List Command) → EntryLaw (empty_contents cells elements) commands }
{}
