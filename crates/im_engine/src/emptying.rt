//! Disks that keep a list for their owner.
ghost use Rattle.std.specs.Prelude.{◌≡◌};

use im_disk::Disk;

/// A disk that keeps a list for its owner beside the file. The list is emptied between two calls of an engine
/// ([`Engine::empty_list`](crate::Engine::empty_list)).
pub trait Empties: Disk {
    /// The disk with an empty list.
    ghost emptied: { Self → Self };

    /// Empties the list. The file stays, and so does what is in doubt in it.
    fn empty(&mut self)
        ensures emptied { self.new ≡ emptied self.old }
        ensures now { Self.now self.new ≡ Self.now self.old }
        ensures honest { Self.honest self.new → Self.honest self.old };
}
