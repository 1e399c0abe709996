//! One command.
ghost use Rattle.std.specs.Prelude.{◌≡◌, ◌≤◌, true, false, ◌≢◌, ◌↔◌, List, IsOk, IsTrue, IsFalse};
ghost use Rattle.im_types.specs.Types.{Waiter, Kept, Request, Command, Asks, Refusal, Mismatch, number_of, Window};
ghost use Rattle.im_types.specs.Types.{Contents, kept_for, ask, asker, step, is_accepted, acceptance};
ghost use Rattle.im_laws.specs.Entries.{IsRefused, IsTold};

/// A command is accepted if and only if it changes the memory. An accepted command isn't refused.
pub fn accepted_where_changed()
    ensures accepted { (m : Contents) (command : Command)
        → IsTrue (is_accepted m command) ↔ ((step m command).contents ≢ m) }
    ensures unaccepted { (m : Contents) (command : Command)
        → IsFalse (is_accepted m command) ↔ ((step m command).contents ≡ m) }
    ensures answered { (m : Contents) (command : Command) → IsTrue (is_accepted m command)
        → IsOk (step m command).answer }
{}

/// The acceptance of a command, asked before the command is served. It is the refusal that the command would meet, if
/// there is one. Otherwise it says whether the command would change the memory.
pub fn acceptance_tells()
    ensures refused { (m : Contents) (command : Command) (refusal : Refusal)
        → (acceptance m command ≡ Err refusal) ↔ ((step m command).answer ≡ Err refusal) }
    ensures changes { (m : Contents) (command : Command)
        → (acceptance m command ≡ Ok true) ↔ ((step m command).contents ≢ m) }
    ensures leaves { (m : Contents) (command : Command) → (acceptance m command ≡ Ok false)
        ↔ (IsOk (step m command).answer × ((step m command).contents ≡ m)) }
{}

/// A request under a number that is kept changes nothing. The same operation is answered with the kept entry, and
/// another one is refused as a mismatch.
pub fn repeat_changes_nothing()
    ensures same { (m : Contents) (r : Request) (k : Kept) → kept_for m.windows (asker r) ≡ Some k
        → k.op ≡ r.op → IsTold m r k.entry }
    ensures other { (m : Contents) (r : Request) (k : Kept) → kept_for m.windows (asker r) ≡ Some k
        → k.op ≢ r.op → IsRefused m r Mismatch }
    ensures unaccepted { (m : Contents) (r : Request) (k : Kept)
        → kept_for m.windows (asker r) ≡ Some k → IsFalse (is_accepted m (Asks r)) }
{}

/// A command and a question for an entry can meet only the first six refusals, those of request numbers.
pub fn refusals_are_of_numbers()
    ensures command { (m : Contents) (command : Command) (refusal : Refusal)
        → (step m command).answer ≡ Err refusal → number_of refusal ≤ 6 }
    ensures question { (windows : List Window) (who : Waiter) (refusal : Refusal)
        → ask windows who ≡ Err refusal → number_of refusal ≤ 6 }
{}
