//! A law of traces, as the contract of a function that does nothing.
ghost use Rattle.std.specs.Prelude.{◌≡◌, false, List};
ghost use Rattle.im_types.specs.Types.{Entry, Request, Line, Asks, Contents, is_accepted};
ghost use Rattle.im_laws.specs.Entries.{IsSameOrAnswer};
ghost use Rattle.im_promise.specs.Traces.{AskTwice, at_other, ToldTwice};

use im_laws::{
    accepted_where_changed, forgotten_for_ever, number_acts_once, repeat_is_told_again,
    trace_is_a_run, traces_join, waiting_agrees,
};

/// If two lines of a legal trace tell a request an entry, they agree: the later line has the same entry, or the answer
/// that has come since, and doesn't accept the request. If a trace has two requests under one number and accepts the
/// earlier one, it doesn't accept the later one. So a number acts once.
pub fn traces_tell_a_request_alike()
    ensures alike { (m : Contents) (trace : List Line) (r : Request) (first second : Entry)
        → ToldTwice m trace r first second → IsSameOrAnswer first second }
    ensures still { (m : Contents) (trace : List Line) (r : Request) (first second : Entry)
        → (it : ToldTwice m trace r first second) → is_accepted (at_other m it.stand) (Asks r) ≡ false }
    ensures once { (m : Contents) (trace : List Line) (r again : Request)
        → (it : AskTwice m trace r again) → is_accepted (at_other m it.stand) (Asks again) ≡ false }
{
    accepted_where_changed();
    forgotten_for_ever();
    number_acts_once();
    repeat_is_told_again();
    trace_is_a_run();
    traces_join();
    waiting_agrees();
}
