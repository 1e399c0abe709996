// The numbers of a journal, each by a function of its own, so that an equation is known of it.
ghost use Rattle.std.specs.Prelude.{◌≡◌, ◌+◌, ◌≤◌, min, ◌&&◌, nat_le};
ghost use Rattle.im_journal.specs.Holding.{room_after};

use im_types::{LAST, MAX_GROUP};
use std::cmp::min;

// Whether there is room for so many commands, and a count. A group may come behind another one.
pub(crate) fn has_room(count: u64, room: u32, many: usize) -> bool
    requires few { many ≤ MAX_GROUP + MAX_GROUP }
    requires last { count ≤ LAST }
    ensures { result ≡ (nat_le many room && nat_le (count + many) LAST) }
{
    many <= room as usize && count + many as u64 <= LAST
}

// The room behind so many commands, the first of them with this sequence number.
pub(crate) fn room_after(count: u64, group: usize, room: u32) -> u32
    requires enough { group ≤ room }
    requires last { count + group ≤ LAST }
    ensures { result ≡ room_after count group room }
{
    if count + group as u64 == LAST {
        0
    } else {
        room - group as u32
    }
}

// How many of so many slots are swept with one sync.
pub(crate) fn at_once(slots: u32, most: u32) -> u32
    ensures { result ≡ min most slots }
{
    min(most, slots)
}
