//! A note of a request that had to wait. A long script has many of them at once, so each takes 24 bytes.
ghost use Rattle.std.specs.Prelude.{◌≡◌};
ghost use Rattle.im_types.specs.Types.{Answered};
ghost use Rattle.im_serial.specs.Forms.{entry_shown};

use im_text::Waited;
use im_types::{Entry, Reply};
use std::marker::Model;

// Which entry it is. The number that it tells stands beside it: an enum with the number inside would take eight bytes
// more.
#[derive(Clone, Copy)]
enum EntryForm {
    Waiting,
    Base,
    NoSpace,
    BadLength,
    Value,
    Stored,
    Clash,
    NoCell,
    WrongKind,
    Released,
    NoBlock,
    StillWaiting,
    Cleared,
}

/// A request that had to wait, with the entry that was last kept for it. Contracts see a [`Waited`], which takes 40
/// bytes.
#[derive(Drop)]
pub struct WaitNote {
    number: u64,
    // The value or the base that the entry tells, or 0.
    told: u64,
    element: u16,
    form: EntryForm,
}

impl Model for WaitNote {
    ghost use Rattle.im_text.specs.declared.Waited.{Waited};
    ghost use Rattle.im_serial.specs.Forms.{entry_shown};

    ghost Value = { Waited };

    ghost view = { λ n. record { element = n.element; number = n.number; entry = entry_shown n.form n.told } };
}

const _: () = prove!(size_of::<WaitNote>() == 24);

// Returns the form of a reply, and the number that it tells.
fn reply_form(reply: Reply) -> (EntryForm, u64)
    ensures { entry_shown result.0 result.1 ≡ Answered reply }
{
    match reply {
        Reply::Base(base) => (EntryForm::Base, base as u64),
        Reply::NoSpace => (EntryForm::NoSpace, 0),
        Reply::BadLength => (EntryForm::BadLength, 0),
        Reply::Value(value) => (EntryForm::Value, value),
        Reply::Stored => (EntryForm::Stored, 0),
        Reply::Clash => (EntryForm::Clash, 0),
        Reply::NoCell => (EntryForm::NoCell, 0),
        Reply::WrongKind => (EntryForm::WrongKind, 0),
        Reply::Released => (EntryForm::Released, 0),
        Reply::NoBlock => (EntryForm::NoBlock, 0),
        Reply::StillWaiting => (EntryForm::StillWaiting, 0),
        Reply::Cleared => (EntryForm::Cleared, 0),
    }
}

// Returns the form of an entry, and the number that it tells.
fn entry_form(entry: Entry) -> (EntryForm, u64)
    ensures { entry_shown result.0 result.1 ≡ entry }
{
    match entry {
        Entry::Waiting => (EntryForm::Waiting, 0),
        Entry::Answered(reply) => reply_form(reply),
    }
}

// Returns the entry of this form that tells this number.
fn entry_of(form: EntryForm, told: u64) -> Entry
    ensures { result ≡ entry_shown form told }
{
    match form {
        EntryForm::Waiting => Entry::Waiting,
        EntryForm::Base => Entry::Answered(Reply::Base((told % (1 << 32)) as u32)),
        EntryForm::NoSpace => Entry::Answered(Reply::NoSpace),
        EntryForm::BadLength => Entry::Answered(Reply::BadLength),
        EntryForm::Value => Entry::Answered(Reply::Value(told)),
        EntryForm::Stored => Entry::Answered(Reply::Stored),
        EntryForm::Clash => Entry::Answered(Reply::Clash),
        EntryForm::NoCell => Entry::Answered(Reply::NoCell),
        EntryForm::WrongKind => Entry::Answered(Reply::WrongKind),
        EntryForm::Released => Entry::Answered(Reply::Released),
        EntryForm::NoBlock => Entry::Answered(Reply::NoBlock),
        EntryForm::StillWaiting => Entry::Answered(Reply::StillWaiting),
        EntryForm::Cleared => Entry::Answered(Reply::Cleared),
    }
}

impl WaitNote {
    /// Notes a request with this entry.
    pub fn new(who: (u16, u64), entry: Entry) -> WaitNote
        ensures { result ≡ record { element = who.0; number = who.1; entry = entry } }
    {
        let (form, told) = entry_form(entry);
        WaitNote {
            number: who.1,
            told,
            element: who.0,
            form,
        }
    }

    /// Returns the request and its entry.
    pub fn read(&self) -> Waited
        ensures { result ≡ self.now }
    {
        Waited {
            element: self.element,
            number: self.number,
            entry: entry_of(self.form, self.told),
        }
    }
}
