//! What goes out of the lock: an answer, with the trace that ends in its line.
ghost use Rattle.std.specs.Prelude.{◌≡◌, length, Ok};
ghost use Rattle.im_types.specs.Types.{Tells, Commands, Collect, IsLegal};
ghost use Rattle.im_trace.specs.{Lines.EndsIn, Lines.line_of, Log.IsProof, Log.IsToldOf, Log.receipt_for};

use crate::chain::Prefix;
use crate::name::{Name, Shown};
use crate::when::When;
use im_glass::Told;
use im_types::{Command, Entry, Outcome, Refusal};
use std::marker::Model;
use std::snapshot::Snapshot;

/// The outcome of a command. Contracts see with it the command, what was shown by then, and the controller's trace up
/// to the command's line, with the time of that line. That trace is legal from the memory that was opened.
#[derive(Drop)]
pub struct Receipt<K: Name> {
    pub(crate) outcome: Outcome,
    pub(crate) command: Snapshot<Command>,
    pub(crate) history: Prefix<K>,
    pub(crate) when: When<K>,
    pub(crate) told: Told<Shown<K>>,
}

impl<K: Name> Model for Receipt<K> {
    ghost use Rattle.std.specs.Prelude.{◌≡◌, length, Ok};
    ghost use Rattle.im_types.specs.Types.{Commands};
    ghost use Rattle.im_trace.specs.Log.{IsProof, IsToldOf, ReceiptState};

    ghost Value = { ReceiptState };

    ghost view = { λ r. record {
      command = r.command.value;
      outcome = r.outcome;
      history = r.history;
      time = r.when.time;
      told = r.told;
    } };

    ghost invariant = { λ r. IsProof K.origin.memory (Commands r.command.value) (Ok r.outcome) r.history
        × IsToldOf K.origin.memory r.history r.told × (r.when.lines ≡ length r.history) };
}

impl<K: Name> Receipt<K> {
    /// Returns the outcome of the command.
    pub fn outcome(&self) -> Outcome
        ensures outcome { result ≡ self.now.outcome }
        ensures legal { IsLegal K.origin.memory self.now.history }
        ensures last { EndsIn self.now.history (line_of (Commands self.now.command) (Ok self.now.outcome)) }
    {
        self.outcome
    }

    /// Returns what was shown when the command was answered: the full cells of the memory that was opened, then the
    /// changes of the accepted commands of its trace, in order. There may be more after these.
    pub fn told(&self) -> &Told<Shown<K>>
        ensures told { result.now ≡ self.now.told }
        ensures holds { IsToldOf K.origin.memory self.now.history result.now }
    {
        &self.told
    }

    /// Returns the trace up to the command's line. The histories of all receipts of a controller are of one trace, as
    /// [`Prefix::order`] says.
    pub fn history(&self) -> &Prefix<K>
        ensures { result.now ≡ self.now.history }
    {
        &self.history
    }

    /// Returns when the command's line was left.
    pub fn when(&self) -> &When<K>
        ensures lines { result.now.lines ≡ length self.now.history }
        ensures time { result.now.time ≡ self.now.time }
    {
        &self.when
    }
}

/// What is kept under a number. Contracts see with it the element, the number, what was shown by then, and the
/// controller's trace up to the line of this collect, with the time of that line. That trace is legal from the memory
/// that was opened.
#[derive(Drop)]
pub struct Found<K: Name> {
    pub(crate) entry: Entry,
    pub(crate) element: u16,
    pub(crate) number: u64,
    pub(crate) history: Prefix<K>,
    pub(crate) when: When<K>,
    pub(crate) told: Told<Shown<K>>,
}

impl<K: Name> Model for Found<K> {
    ghost use Rattle.std.specs.Prelude.{◌≡◌, length, Ok};
    ghost use Rattle.im_types.specs.Types.{Tells, Collect};
    ghost use Rattle.im_trace.specs.Log.{FoundState, IsProof, IsToldOf};

    ghost Value = { FoundState };

    ghost view = { λ f. record {
      element = f.element;
      number = f.number;
      entry = f.entry;
      history = f.history;
      time = f.when.time;
      told = f.told;
    } };

    ghost invariant = { λ f. IsProof K.origin.memory (Collect f.element f.number) (Ok (Tells f.entry)) f.history
        × IsToldOf K.origin.memory f.history f.told × (f.when.lines ≡ length f.history) };
}

impl<K: Name> Found<K> {
    /// Returns the entry that is kept.
    pub fn entry(&self) -> Entry
        ensures entry { result ≡ self.now.entry }
        ensures legal { IsLegal K.origin.memory self.now.history }
        ensures last { EndsIn self.now.history
            (line_of (Collect self.now.element self.now.number) (Ok (Tells self.now.entry))) }
    {
        self.entry
    }

    /// Returns what was shown when the entry was found: what [`Receipt::told`] says of a receipt, for this trace.
    pub fn told(&self) -> &Told<Shown<K>>
        ensures told { result.now ≡ self.now.told }
        ensures holds { IsToldOf K.origin.memory self.now.history result.now }
    {
        &self.told
    }

    /// Returns the trace up to the line of this collect. It is of the same trace as the histories of all receipts, as
    /// [`Prefix::order`] says.
    pub fn history(&self) -> &Prefix<K>
        ensures { result.now ≡ self.now.history }
    {
        &self.history
    }

    /// Returns when the line of this collect was left.
    pub fn when(&self) -> &When<K>
        ensures lines { result.now.lines ≡ length self.now.history }
        ensures time { result.now.time ≡ self.now.time }
    {
        &self.when
    }
}

// Returns an answer with the trace that ends in its line.
pub(crate) fn receipt_of<K: Name>(
    history: Prefix<K>,
    when: When<K>,
    told: Told<Shown<K>>,
    command: &Command,
    answer: Result<Outcome, Refusal>,
) -> Result<Receipt<K>, Refusal>
    requires proof { IsProof K.origin.memory (Commands command.now) answer history }
    requires told { IsToldOf K.origin.memory history told }
    requires lines { when.lines ≡ length history }
    ensures { result ≡ receipt_for history when.time told command.now answer }
{
    match answer {
        Ok(outcome) => Ok(Receipt {
            outcome,
            command: Snapshot::of(command),
            history,
            when,
            told,
        }),
        Err(refusal) => Err(refusal),
    }
}
