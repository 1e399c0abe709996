//! The rule of a pipe: what was sent is what was received, followed by what the pipe holds.

use crossbeam_channel::protocol::{Join, Lesson, Outcome, Protocol, Split};
use std::collections::LinkedList;

/// What a pass may do, and what it has sent and received, end marks included. It is for contracts alone: no value of it
/// is made.
pub struct PassLog<T> {
    /// Whether it may send.
    pub sends: bool,
    /// Whether it may receive.
    pub receives: bool,
    /// The messages that it has sent. An end mark is `None`.
    pub sent: LinkedList<Option<T>>,
    /// The messages that it has received.
    pub received: LinkedList<Option<T>>,
}

// The rule.
pub struct SentInOrder;

impl<T> Protocol<Option<T>, PassLog<T>> for SentInOrder {
    ghost use Rattle.std.specs.Prelude.{true, []};
    ghost use Rattle.im_pipes.specs.Rule.{IsRelayed, log};

    ghost holds = { IsRelayed };

    ghost first = { log true true [] [] };
}

// One pass for each end, and the two joined again.
pub struct TwoEnds;

impl<T> Split<PassLog<T>> for TwoEnds {
    ghost use Rattle.std.specs.Prelude.{true, false, []};
    ghost use Rattle.im_pipes.specs.Rule.{log};

    ghost left = { λ l. log true false l.sent [] };

    ghost right = { λ l. log false true [] l.received };
}

impl<T> Join<PassLog<T>> for TwoEnds {
    ghost use Rattle.std.specs.Prelude.{true, false, []};
    ghost use Rattle.im_pipes.specs.Rule.{log};

    ghost both = { λ l m. log true true l.sent m.received };

    ghost spent = { log false false [] [] };
}

// A message was sent.
pub struct SentOne;

impl<T> Outcome<Option<T>, PassLog<T>> for SentOne {
    ghost use Rattle.std.specs.Prelude.{◌≡◌};
    ghost use Rattle.im_pipes.specs.Rule.{with_sent};

    ghost then = { λ l message m. m ≡ with_sent l message };
}

impl<T> Lesson<Option<T>, PassLog<T>> for SentOne {
    ghost fact = { λ l held. Unit {0} };
}

// A message was received.
pub struct Taken;

impl<T> Outcome<Option<T>, PassLog<T>> for Taken {
    ghost use Rattle.std.specs.Prelude.{◌≡◌};
    ghost use Rattle.im_pipes.specs.Rule.{with_received};

    ghost then = { λ l message m. m ≡ with_received l message };
}

impl<T> Lesson<Option<T>, PassLog<T>> for Taken {
    ghost fact = { λ l held. Unit {0} };
}

// What the two passes know together.
pub struct Whole;

impl<T> Lesson<Option<T>, PassLog<T>> for Whole {
    ghost use Rattle.std.specs.Prelude.{◌≡◌, ◌++◌};

    ghost fact = { λ l held. l.sent ≡ l.received ++ held };
}
