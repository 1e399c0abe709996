//! Laws of the full I cells that are shown, stated over the definitions alone. Each function here does nothing, and its
//! contract is a law. A law holds for every memory, every command and every trace.
#![tactic(auto)]

ghost use Rattle.std.specs.Prelude.{◌≡◌, ℕ, true, List, [], ◌∷◌, ◌++◌, length, None};
ghost use Rattle.std.specs.List.{AllByRecursion};
ghost use Rattle.im_types.specs.Types.{Request, Command, Line, Asks, Contents, full_at, HasBlocks, step, accepted};
ghost use Rattle.im_types.specs.Types.{IsLegal, end_of, value_after, is_below, change_by, changes_at, changes_in};
ghost use Rattle.im_types.specs.Types.{changes_of, opening, shown_by};
ghost use Rattle.im_laws.specs.{Examples.sixteen_cells, Traces.commands_of};
ghost use Rattle.im_fulls.specs.Examples.{seven_changes, stored_and_released};
ghost use Rattle.im_fulls.specs.Groups.{after_requests, AreBefore};

/// The full cells after a command, or after a trace, are the full cells before it with its changes, applied in order.
pub fn changes_give_the_full_cells()
    ensures step { (m : Contents) (command : Command) (a : ℕ)
        → full_at (step m command).contents a ≡ value_after a (full_at m a) (changes_at m command) }
    ensures run { (m : Contents) (trace : List Line) (a : ℕ)
        → full_at (end_of m trace) a ≡ value_after a (full_at m a) (changes_of m trace) }
{}

/// The opening of a memory shows its full cells, and the trace's changes follow. At each address they give the value of
/// the full cell at the trace's end, or none if that cell isn't full.
pub fn shown_changes_are_the_full_cells()
    ensures { (m : Contents) (trace : List Line) (a : ℕ)
        → value_after a None (shown_by m trace) ≡ full_at (end_of m trace) a }
{}

/// A trace has one change for each accepted command. One more line adds its own change, if it has one.
pub fn each_accepted_command_has_a_change()
    ensures count { (m : Contents) (trace : List Line)
        → length (changes_of m trace) ≡ length (accepted m (commands_of trace)) }
    ensures grows { (m : Contents) (trace : List Line) (line : Line)
        → changes_of m (trace ++ line ∷ []) ≡ changes_of m trace ++ changes_in (end_of m trace) line.call }
{}

/// The changes of a command and of an opening name only the memory's own cells.
pub fn changes_are_of_the_cells()
    ensures step { (m : Contents) (command : Command) → HasBlocks m.cells
        → is_below (length m.cells) (change_by m command) ≡ true }
    ensures opening { (m : Contents) → AllByRecursion (λ change. is_below (length m.cells) change ≡ true) (opening m) }
{}

/// A request changes the same after earlier requests of other elements as before them, under two conditions. It is no
/// release and no reset. If it is a store, no earlier request is an allocation, a release, a reset, or a store to its
/// address. So the changes of a group of such requests are known before the group is served.
pub fn group_changes_are_known_before()
    ensures { (m : Contents) (earlier : List Request) (r : Request) → AreBefore earlier r
        → changes_at (after_requests m earlier) (Asks r) ≡ changes_at m (Asks r) }
{}

/// A worked trace. A store fills a cell, and a second store of the same value makes it no longer full. A reset and a
/// release empty its block.
pub fn second_store_shows_nothing()
    ensures legal { IsLegal sixteen_cells stored_and_released }
    ensures changes { changes_of sixteen_cells stored_and_released ≡ seven_changes }
{}
