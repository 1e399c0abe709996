//! Worked traces. The definitions compute each answer.
ghost use Rattle.std.specs.Prelude.{◌≡◌, [], ◌∷◌, length, take};
ghost use Rattle.im_types.specs.Types.{Waiting, Answered, I, M, Value, Stored, Clash, Empty, Full, Clashed, held_at};
ghost use Rattle.im_types.specs.Types.{waiters_at, accepted, IsLegal, end_of};
ghost use Rattle.im_laws.specs.Examples.{block_reset, edges, entries_of_block_reset, entries_of_takes_and_puts};
ghost use Rattle.im_laws.specs.Examples.{fetches, full_window, in_lives, lawful, least_hole, least_memory, one_cell};
ghost use Rattle.im_laws.specs.Examples.{one_store, second_put, second_store, sent_again, sixteen_cells};
ghost use Rattle.im_laws.specs.Examples.{takes_and_puts, three_readers, three_takers, two_lives, unsaid, waiter};
ghost use Rattle.im_laws.specs.Examples.{waiting_block};
ghost use Rattle.im_laws.specs.Traces.{commands_of};

/// Three readers wait in the order of their arrival, and one store answers all of them.
pub fn readers_wait_for_one_store()
    ensures legal { IsLegal sixteen_cells one_store }
    ensures in_order { waiters_at (end_of sixteen_cells three_readers).cells 0
        ≡ waiter 1 1 ∷ waiter 2 1 ∷ waiter 1 2 ∷ [] }
    ensures full { held_at (end_of sixteen_cells one_store).cells 0
        ≡ Some (record { block = record { base = 0; length = 1; kind = I }; state = Full 7 }) }
{}

/// A second store clashes, even with the same value, and so does each fetch after it.
pub fn second_store_clashes()
    ensures legal { IsLegal sixteen_cells second_store }
    ensures clashed { held_at (end_of sixteen_cells second_store).cells 0
        ≡ Some (record { block = record { base = 0; length = 1; kind = I }; state = Clashed 5 }) }
{}

/// Takers are served in the order in which they came, and the cell stays empty.
pub fn takers_are_served_in_order()
    ensures legal { IsLegal sixteen_cells three_takers }
    ensures emptied { held_at (end_of sixteen_cells three_takers).cells 0
        ≡ Some (record { block = record { base = 0; length = 1; kind = M }; state = Empty [] }) }
{}

/// A put on a full cell clashes, and so does each take after it.
pub fn second_put_clashes()
    ensures legal { IsLegal sixteen_cells second_put }
    ensures clashed { held_at (end_of sixteen_cells second_put).cells 0
        ≡ Some (record { block = record { base = 0; length = 1; kind = M }; state = Clashed 1 }) }
{}

/// A block may fill all cells. It can have neither 0 cells nor more cells than there are. No cell lies past the last
/// one.
pub fn lengths_and_addresses_have_edges()
    ensures { IsLegal sixteen_cells edges }
{}

/// A block is placed in the least hole that is large enough.
pub fn least_hole_is_taken()
    ensures { IsLegal sixteen_cells least_hole }
{
    // A law has no steps.
}

/// A block with a waiting cell isn't released. That answer is kept even after the block is released later.
pub fn waiting_block_stays()
    ensures { IsLegal sixteen_cells waiting_block }
{}

/// A request that comes again acts once. The reader stands in the list once, and only three commands are accepted.
pub fn repeat_acts_once()
    ensures legal { IsLegal sixteen_cells sent_again }
    ensures once { waiters_at (end_of sixteen_cells (take 3 sent_again)).cells 0 ≡ waiter 1 1 ∷ [] }
    ensures accepts { length (accepted sixteen_cells (commands_of sent_again)) ≡ 3 }
{}

/// A window of sixty-four waiting entries takes no more, and none can be confirmed before it is answered.
pub fn full_window_is_answered_first()
    ensures legal { IsLegal sixteen_cells full_window }
    ensures accepts { length (accepted sixteen_cells (commands_of full_window)) ≡ 68 }
{}

/// The smallest memory serves one element on one cell.
pub fn least_memory_serves()
    ensures { IsLegal one_cell least_memory }
{}

/// The value law, worked. The fetch before the store and the fetch after it have its value. The fetch after the second
/// store clashes.
pub fn fetches_have_the_first_value()
    ensures legal { IsLegal sixteen_cells fetches }
    ensures law { in_lives sixteen_cells (commands_of fetches) 0
        ≡ (lawful (Answered (Value 7)) ∷ unsaid (Answered Stored) ∷ lawful (Answered (Value 7))
        ∷ unsaid (Answered Clash) ∷ lawful (Answered Clash) ∷ []) ∷ [] }
{}

/// The matching law, worked. Each take has the value of its put, until a put comes that finds the cell full.
pub fn takes_match_puts()
    ensures legal { IsLegal sixteen_cells takes_and_puts }
    ensures law { in_lives sixteen_cells (commands_of takes_and_puts) 0 ≡ entries_of_takes_and_puts }
{}

/// Two blocks that had one address in turn have a life each. An entry that was dropped counts as it was last.
pub fn lives_are_apart()
    ensures legal { IsLegal sixteen_cells two_lives }
    ensures law { in_lives sixteen_cells (commands_of two_lives) 0
        ≡ (unsaid (Answered Stored) ∷ lawful (Answered (Value 5)) ∷ [])
        ∷ (lawful Waiting ∷ unsaid Waiting ∷ []) ∷ [] }
{}

/// A reset begins a new life of its block. The store before it is forgotten, and the fetch after it has the store of
/// its own life. A block that a request waits for isn't reset, and an address inside a block resets nothing.
pub fn a_reset_begins_a_life()
    ensures legal { IsLegal sixteen_cells block_reset }
    ensures law { in_lives sixteen_cells (commands_of block_reset) 0 ≡ entries_of_block_reset }
{}
