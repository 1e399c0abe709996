//! One place of a ring: an operation and its entry.
ghost use Rattle.std.specs.Prelude.{◌≡◌};
ghost use Rattle.im_types.specs.Types.{Answered, is_waiting};
ghost use Rattle.im_sessions.specs.Held.{held_by, held_entry, held_form};

use im_types::{Entry, Kept, Op, Reply};
use std::marker::Model;

// An entry as one flat variant. An entry with a reply inside would have two tags and take eight bytes more.
#[derive(Clone, Copy)]
enum Held {
    Waiting,
    Base(u32),
    NoSpace,
    BadLength,
    Value(u64),
    Stored,
    Clash,
    NoCell,
    WrongKind,
    Released,
    NoBlock,
    StillWaiting,
    Cleared,
}

/// An operation and its entry, in 32 bytes. Contracts see both.
#[derive(Clone, Copy)]
pub struct RingPlace {
    op: Op,
    held: Held,
}

impl Model for RingPlace {
    ghost use Rattle.im_types.specs.Types.{Kept};
    ghost use Rattle.im_sessions.specs.Held.{held_entry, held_form, held_of-entry_of};

    ghost Value = { Kept };

    ghost view = { λ p. record { op = p.op; entry = held_entry p.held } };

    ghost inverse = { λ k. record { op = k.op; held = held_form k.entry } };

    ghost inverse_ok = { λ p h i. record { op = p.op; held = held_of-entry_of p.held i } };
}

const _: () = prove!(size_of::<RingPlace>() == 32);

// Returns a reply as a flat variant.
fn held_by(reply: Reply) -> Held
    ensures { result ≡ held_by reply }
{
    match reply {
        Reply::Base(base) => Held::Base(base),
        Reply::NoSpace => Held::NoSpace,
        Reply::BadLength => Held::BadLength,
        Reply::Value(value) => Held::Value(value),
        Reply::Stored => Held::Stored,
        Reply::Clash => Held::Clash,
        Reply::NoCell => Held::NoCell,
        Reply::WrongKind => Held::WrongKind,
        Reply::Released => Held::Released,
        Reply::NoBlock => Held::NoBlock,
        Reply::StillWaiting => Held::StillWaiting,
        Reply::Cleared => Held::Cleared,
    }
}

// Returns an entry as a flat variant.
fn held_of(entry: Entry) -> Held
    ensures { result ≡ held_form entry }
{
    match entry {
        Entry::Waiting => Held::Waiting,
        Entry::Answered(reply) => held_by(reply),
    }
}

// Returns the entry that a flat variant stands for.
fn entry_of(held: Held) -> Entry
    ensures { result ≡ held_entry held }
{
    match held {
        Held::Waiting => Entry::Waiting,
        Held::Base(base) => Entry::Answered(Reply::Base(base)),
        Held::NoSpace => Entry::Answered(Reply::NoSpace),
        Held::BadLength => Entry::Answered(Reply::BadLength),
        Held::Value(value) => Entry::Answered(Reply::Value(value)),
        Held::Stored => Entry::Answered(Reply::Stored),
        Held::Clash => Entry::Answered(Reply::Clash),
        Held::NoCell => Entry::Answered(Reply::NoCell),
        Held::WrongKind => Entry::Answered(Reply::WrongKind),
        Held::Released => Entry::Answered(Reply::Released),
        Held::NoBlock => Entry::Answered(Reply::NoBlock),
        Held::StillWaiting => Entry::Answered(Reply::StillWaiting),
        Held::Cleared => Entry::Answered(Reply::Cleared),
    }
}

impl RingPlace {
    /// Makes a place with this operation and this entry.
    pub fn new(op: Op, entry: Entry) -> RingPlace
        ensures { result ≡ record { op = op; entry = entry } }
    {
        RingPlace {
            op,
            held: held_of(entry),
        }
    }

    /// Returns the operation of this place.
    pub fn op(&self) -> &Op
        ensures { result.now ≡ self.now.op }
    {
        &self.op
    }

    /// Returns the entry of this place.
    #[inline(always)]
    pub fn entry(&self) -> Entry
        ensures { result ≡ self.now.entry }
    {
        entry_of(self.held)
    }

    /// Returns the operation and the entry of this place.
    pub fn kept(&self) -> Kept
        ensures { result ≡ self.now }
    {
        Kept {
            op: self.op,
            entry: self.entry(),
        }
    }

    /// Returns whether the entry is waiting.
    #[inline(always)]
    pub fn is_waiting(&self) -> bool
        ensures { result ≡ is_waiting self.now }
    {
        matches!(self.held, Held::Waiting)
    }

    /// Answers the entry: it is this reply from now on.
    #[inline(always)]
    pub fn answer(&mut self, reply: Reply)
        ensures { self.new ≡ record { op = self.old.op; entry = Answered reply } }
    {
        self.held = held_by(reply);
    }
}
