//! Laws of sessions. Each function does nothing, and its contract is a law.
ghost use Rattle.std.specs.Prelude.{◌≡◌, ◌<◌, true, false, List, [], map, length};
ghost use Rattle.im_types.specs.Types.{Request, Asks, Refusal, Device, Failed, Contents, as_served, answers_of};
ghost use Rattle.im_types.specs.Types.{puts_of, Reached};
ghost use Rattle.im_engine.specs.Groups.{all_refused};
ghost use Rattle.im_session.specs.{Carrying.PrefixesCarry, Kept.SessionState};
ghost use Rattle.im_session.specs.Events.{acknowledged_members, has_device};

use im_disk::Disk;

/// A property of commands, and of the memory to which they lead.
pub trait Property {
    ghost use Rattle.std.specs.Prelude.{List};
    ghost use Rattle.im_types.specs.Types.{Command, Contents};

    /// It holds of these commands and this memory.
    ghost holds: { List Command → Contents → Type 0 };
}

/// A property that prefixes of a session's commands keep is carried from each file that could be left before the
/// session to each file that is left since, and at its end.
pub fn prefixes_carry<D: Disk, P: Property>()
    ensures leaves { (s : SessionState D) → PrefixesCarry D.Disk P.holds s }
{}

/// The commands that a group acknowledges. If its members are answered one after another, it acknowledges just the
/// commands that it puts on the disk, and no answer says that the disk failed. If it is refused as a whole, it
/// acknowledges none. Refused with `Device`, it says that the disk failed if it would have put any command there; with
/// `Failed`, it never does.
pub fn groups_acknowledge_what_they_put()
    ensures put { (s : Reached) (members : List Request)
        → acknowledged_members s.contents (map Asks members) (map as_served (answers_of s members))
        ≡ puts_of s members }
    ensures works { (s : Reached) (members : List Request)
        → has_device (map as_served (answers_of s members)) ≡ false }
    ensures refused { (m : Contents) (refusal : Refusal) (members : List Request)
        → acknowledged_members m (map Asks members) (all_refused refusal members) ≡ [] }
    ensures fault { (s : Reached) (members : List Request)
        → 0 < length (puts_of s members) → has_device (all_refused Device members) ≡ true }
    ensures dead { (members : List Request) → has_device (all_refused Failed members) ≡ false }
{}
