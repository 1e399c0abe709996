//! The answers to the members of a group of requests.
ghost use Rattle.std.specs.Prelude.{◌≡◌};

use crate::commands::Outcome;
use crate::refusals::Refusal;

/// The state of a member of a group.
#[derive(Clone, Copy, Debug, PartialEq, Eq)]
pub enum Served {
    /// It isn't served yet.
    Unserved,
    /// It is served, with this outcome.
    Done(Outcome),
    /// It is refused, for this reason.
    Refused(Refusal),
}

impl Default for Served {
    fn default() -> Served
        ensures { result ≡ Served.Unserved }
    {
        Served::Unserved
    }
}
