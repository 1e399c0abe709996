//! Laws of turns that follow each other, stated over the table of turns. Each function here does nothing, and its
//! contract is a law. Programs make room in the journal by turns, and say by these definitions how far they came.
#![tactic(auto)]

ghost use Rattle.std.specs.Prelude.{◌≡◌, ℕ, ◌+◌, ◌*◌, ◌<◌, ◌≤◌, ◌⊎◌, List, length};
ghost use Rattle.im_types.specs.Types.{LAST, layout_in_use, area_pages};
ghost use Rattle.im_journal.specs.Holding.{IsJournal};
ghost use Rattle.im_checkpoint.specs.{declared.TurnDone.TheVariants.Idle, declared.TurnDone.TurnDone, Step.turns_left};
ghost use Rattle.im_turning.specs.Turning.{enough_turns, HasPageLeft, IsAtRest, Point, point_journal, TurnsInto};
ghost use Rattle.im_turning.specs.Turning.{TurnsLead};

use im_types::layout::MOST_AREA_PAGES;

/// The most turns that are taken to make room: as many as two checkpoints take at the largest sizes. Each has a
/// beginning, pages, a sync, a header and a sweep.
pub const MOST_TURNS: usize = 2 * (MOST_AREA_PAGES + 4);

/// Where nothing is left to do, all slots of the journal are room, unless the count of commands or the generation of
/// the header is the last one that there is. So a full journal is emptied by turns until they have nothing to do.
pub fn rest_leaves_all_room()
    ensures room { (p : Point) → IsAtRest p → IsJournal (point_journal p) → p.count < LAST → p.header.generation < LAST
        → p.room ≡ p.header.sizes.slots }
{}

/// A turn that has nothing to do leads to where nothing is left to do.
pub fn idle_turn_is_at_rest()
    ensures { (p q : Point) → HasPageLeft p.step → TurnsInto p Idle q → IsAtRest q }
{}

/// How many turns are enough: after so many turns there is room for `least` commands, or nothing is left to do. They
/// are at most `least` sweeps and two checkpoints.
pub fn turns_make_room()
    ensures room { (least : ℕ) (p q : Point) (turns : List TurnDone) → HasPageLeft p.step → TurnsLead turns p q
        → enough_turns least p ≤ length turns → (least ≤ q.room) ⊎ IsAtRest q }
    ensures few { (least : ℕ) (p : Point) → turns_left p.step ≤ area_pages layout_in_use p.header.sizes + 2
        → enough_turns least p ≤ least + (2 * area_pages layout_in_use p.header.sizes + 5) }
{}
