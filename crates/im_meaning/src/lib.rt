//! Laws of images: which writes to a file keep its image, and which put another header in force.
//!
//! A checkpoint writes pages that nobody reads and closes an old header's gate. It writes a new header behind that gate
//! and opens it. It also closes the gates of slots whose commands the pages hold. Each law here covers one such write,
//! torn or whole. It is the contract of a function that does nothing.
#![tactic(auto)]

ghost use Rattle.std.specs.Prelude.{◌≡◌, ℕ, ◌+◌, ◌*◌, ◌<◌, ◌≤◌, true, false, ◌⊎◌, List, length, drop, Some, Ok};
ghost use Rattle.im_types.specs.Types.{LAST, Layout, journal_at, ring_of, Header, header_place, is_open_header};
ghost use Rattle.im_types.specs.Types.{generation_in, Ring, IsBoundary, behind, room_of, Tail, tail, Reached, Reads};
ghost use Rattle.{im_disk.specs.Since.SameBut, im_journal.specs.Holding.KeepsBoundaries};
ghost use Rattle.im_meaning.specs.Images.{IsRead, IsTurned, KeepsImage, LieBehindOtherGate, LieInOtherArea, other};
ghost use Rattle.im_meaning.specs.Images.{StaysInForce, Turnover};
ghost use Rattle.im_meaning.specs.Rings.{IsStaleBehind, IsTailSwept};

/// An image reads as the memory that its pages show, after the commands of its journal.
pub fn images_are_read()
    ensures { (l : Layout) (c : List ℕ) (reached : Reached) → IsRead l c reached → Reads l c (Ok reached) }
{}

/// A file that reads as a memory is an image.
pub fn what_is_read_is_an_image()
    ensures { (l : Layout) (c : List ℕ) (reached : Reached) → Reads l c (Ok reached) → IsRead l c reached }
{}

/// A write to the area that isn't in force keeps the image.
pub fn other_area_is_not_read()
    ensures { (l : Layout) (h : Header) (c d : List ℕ) (at n : ℕ)
        → SameBut at n c d → 0 < h.sizes.slots → LieInOtherArea l h at n → KeepsImage l h c d }
{}

/// A write behind the closed gate of the other header keeps the image.
pub fn closed_headers_are_not_read()
    ensures { (l : Layout) (h : Header) (c d : List ℕ) (at n : ℕ)
        → SameBut at n c d → 0 < h.sizes.slots → LieBehindOtherGate h at n
        → is_open_header (header_place (other h) c) ≡ false → KeepsImage l h c d }
{}

/// The image stays, whatever the gate of a header of a lower generation becomes.
pub fn lower_gates_may_be_anything()
    ensures { (l : Layout) (h : Header) (c d : List ℕ)
        → SameBut (4096 * other h) 1 c d → 0 < h.sizes.slots → generation_in (header_place (other h) c) < h.generation
        → KeepsImage l h c d }
{
    // A law has no steps.
}

/// A prepared header takes effect once its gate is open: after a write to its gate, the old header or the prepared one
/// is in force. Under the prepared one, the commands that its area holds are no longer in the journal.
pub fn next_header_takes_over()
    ensures { (l : Layout) (h next : Header) (c d : List ℕ) → (t : Turnover l h next c)
        → SameBut (4096 * other h) 1 c d → StaysInForce l h next c t d ⊎ IsTurned l h next c t d }
{}

/// Once the prepared header's gate is open, that header is in force.
pub fn open_header_is_in_force()
    ensures { (l : Layout) (h next : Header) (c d : List ℕ) → (t : Turnover l h next c)
        → SameBut (4096 * other h) 1 c d → is_open_header (header_place (other h) d) ≡ true
        → IsTurned l h next c t d }
{}

/// The tail of a journal can begin at a later command, if that is the first of its group. It then has the rest of the
/// commands and the same room.
pub fn tails_may_begin_later()
    ensures { (r : Ring) (first k : ℕ) (c : List ℕ) (t : Tail) → tail r first c ≡ Some t
        → IsBoundary r first k c
        → tail r (first + k) c ≡ Some (record t { commands = drop k t.commands }) }
{}

/// A run may begin anew where it ends, and nowhere behind that.
pub fn runs_end_at_boundaries()
    ensures end { (r : Ring) (first : ℕ) (c : List ℕ) (t : Tail) → tail r first c ≡ Some t
        → IsBoundary r first (length t.commands) c }
    ensures low { (r : Ring) (first k : ℕ) (c : List ℕ) (t : Tail) → tail r first c ≡ Some t
        → IsBoundary r first k c → k ≤ length t.commands }
{}

/// A write before the journal, in a header or an area, keeps the places where the journal's run may begin anew.
pub fn boundaries_are_of_the_journal()
    ensures { (l : Layout) (h : Header) (c d : List ℕ) (at n : ℕ) → SameBut at n c d → 0 < h.sizes.slots
        → at + n ≤ journal_at l h.sizes → KeepsBoundaries (ring_of l h.sizes) h.count c d }
{}

/// The tail of a journal keeps its commands and its known room under three conditions. Each slot of the run stays, the
/// gates of the known room are closed, and each slot behind them has a sequence number below the run's first.
pub fn stale_gates_may_be_closed()
    ensures tail { (r : Ring) (first known : ℕ) (t : Tail) (c d : List ℕ) → IsTailSwept r first known t c d
        → tail r first d ≡ Some (record t { room = room_of r first (length t.commands) d }) }
    ensures room { (r : Ring) (first known : ℕ) (t : Tail) (c d : List ℕ) → IsTailSwept r first known t c d
        → known ≤ behind r first (length t.commands) d }
    ensures boundaries { (r : Ring) (first known : ℕ) (t : Tail) (c d : List ℕ) → IsTailSwept r first known t c d
        → KeepsBoundaries r first c d }
{}

/// Behind its room, a tail has only stale slots.
pub fn slots_behind_the_room_are_stale()
    ensures { (r : Ring) (first : ℕ) (c : List ℕ) (t : Tail) → tail r first c ≡ Some t
        → first + length t.commands < LAST → IsStaleBehind r first t c }
{}
