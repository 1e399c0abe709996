//! The entries that are kept for requests.
ghost use Rattle.std.specs.Prelude.{◌≡◌, List, IsTrue, IsFalse};
ghost use Rattle.im_types.specs.Types.{Entry, Waiter, Kept, Request, Command, Asks, Contents, kept_for, WaitingAgrees};
ghost use Rattle.im_types.specs.Types.{StaysOrIsAnswered, KeepsEntries, is_waiting, ask, asker, step, is_accepted};
ghost use Rattle.im_types.specs.Types.{after};
ghost use Rattle.im_laws.specs.Entries.{IsKeptFor, IsKeptOrForgotten, IsToldAgainOrForgotten, LastsOrIsForgotten};
ghost use Rattle.im_laws.specs.Entries.{NoneDrops};
ghost use Rattle.im_laws.specs.Requests.{after_request, IsAnswered};

/// The entry of a request stays kept until it is confirmed. Only a waiting entry may change, to an answer. An answered
/// entry never changes.
pub fn entry_lasts()
    ensures step { (m : Contents) (command : Command) → WaitingAgrees m
        → KeepsEntries m command (step m command).contents }
    ensures run { (m : Contents) (commands : List Command) (who : Waiter) (k : Kept)
        → IsKeptFor m who k → LastsOrIsForgotten (after m commands) who k }
    ensures unconfirmed { (m : Contents) (commands : List Command) (who : Waiter) (k : Kept)
        → IsKeptFor m who k → NoneDrops m commands who
        → StaysOrIsAnswered k (kept_for (after m commands).windows who) }
    ensures answered { (m : Contents) (commands : List Command) (who : Waiter) (k : Kept)
        → IsKeptFor m who k → IsFalse (is_waiting k) → IsKeptOrForgotten (after m commands) who k }
{}

/// Right after a request is answered, its kept entry is the entry that it was answered with.
pub fn read_back()
    ensures { (m : Contents) (r : Request) (entry : Entry) → WaitingAgrees m → IsAnswered m r entry
        → ask (after_request m r).windows (asker r) ≡ Ok entry }
{}

/// A request that was answered with its entry may be sent again, after any commands. Unless it was confirmed, it has
/// the same entry, or the answer that has come since. The repeat changes nothing.
pub fn repeat_is_told_again()
    ensures { (m : Contents) (r : Request) (entry : Entry) (commands : List Command)
        → WaitingAgrees m → IsAnswered m r entry
        → IsToldAgainOrForgotten (after (after_request m r) commands) r entry }
{}

/// A request under a number that was accepted once is never accepted again, whatever it asks and whatever commands came
/// between.
pub fn number_acts_once()
    ensures { (m : Contents) (r again : Request) (commands : List Command)
        → IsTrue (is_accepted m (Asks r)) → asker again ≡ asker r
        → IsFalse (is_accepted (after (after_request m r) commands) (Asks again)) }
{}
