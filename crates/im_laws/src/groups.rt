//! Groups of requests.
ghost use Rattle.std.specs.Prelude.{◌≡◌, ◌+◌, ◌-◌, ◌≢◌, List, length, if◌then◌else◌, ◌==◌, Some};
ghost use Rattle.im_types.specs.Types.{Request, Asks, LAST, Contents, step, is_accepted, after, AreOthers, is_new};
ghost use Rattle.im_types.specs.Types.{reached_by_all, puts_of, Reached, accept_each};
ghost use Rattle.im_laws.specs.Groups.{IsCounted};

/// Whether a request is accepted doesn't depend on requests of other elements that are served before it, be it one
/// request or a group.
pub fn others_leave_acceptance()
    ensures one { (m : Contents) (r q : Request) → q.element ≢ r.element
        → is_accepted (step m (Asks r)).contents (Asks q) ≡ is_accepted m (Asks q) }
    ensures group { (s : Reached) (members : List Request) (q : Request) → AreOthers q.element members
        → is_new (reached_by_all s members) q ≡ is_new s q }
{}

/// A group has the effect of the commands that its members put into the journal. Each of them is accepted in its turn.
/// The count rises by their number, and the room falls by it. At the last count of all the room is 0.
pub fn groups_are_runs()
    ensures memory { (s : Reached) (members : List Request)
        → (reached_by_all s members).contents ≡ after s.contents (puts_of s members) }
    ensures accepted { (s : Reached) (members : List Request)
        → accept_each s.contents (puts_of s members) ≡ Some (reached_by_all s members).contents }
    ensures count { (s : Reached) (members : List Request)
        → (reached_by_all s members).count ≡ s.count + length (puts_of s members) }
    ensures room { (s : Reached) (members : List Request) → IsCounted s
        → let many = length (puts_of s members) in
        (reached_by_all s members).room ≡ (if s.count + many == LAST then 0 else s.room - many) }
{}
