//! The order in which waiting requests are answered.
ghost use Rattle.std.specs.Prelude.{◌≡◌, ℕ, List, [], ◌∷◌, ◌++◌};
ghost use Rattle.im_types.specs.Types.{Op, Waiter, Waiting, Fetch, Store, Take, Put, Request, Contents, waiters_at};
ghost use Rattle.im_types.specs.Types.{address_of, WaitingAgrees, asker};
ghost use Rattle.im_laws.specs.Requests.{after_request, IsNew, IsServed};
ghost use Rattle.im_laws.specs.Waiters.{HasValue, TakersWait, WaitsWith};

/// A new request that is told to wait stands behind all requests that wait at its cell.
pub fn later_request_waits_behind()
    ensures { (m : Contents) (r : Request) (op : Op) → IsServed m r op Waiting
        → waiters_at (after_request m r).cells (address_of op)
        ≡ waiters_at m.cells (address_of op) ++ asker r ∷ [] }
{}

/// A new store answers each fetch that waits for its cell, with the stored value.
pub fn store_answers_every_reader()
    ensures { (m : Contents) (r : Request) (a v : ℕ) (reader : Waiter)
        → WaitingAgrees m → IsNew m r (Store a v)
        → WaitsWith m reader (Fetch a) → HasValue (after_request m r) reader (Fetch a) v }
{}

/// A new put answers the first take that waits for its cell, with the put's value. The others wait on in their order.
pub fn put_answers_the_first_taker()
    ensures answered { (m : Contents) (r : Request) (a v : ℕ) (first : Waiter)
        (others : List Waiter) → WaitingAgrees m → IsNew m r (Put a v)
        → TakersWait m a first others → HasValue (after_request m r) first (Take a) v }
    ensures others { (m : Contents) (r : Request) (a v : ℕ) (first : Waiter)
        (rest : List Waiter) → WaitingAgrees m → IsNew m r (Put a v)
        → TakersWait m a first rest → waiters_at (after_request m r).cells a ≡ rest }
{}
