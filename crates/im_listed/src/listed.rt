//! A disk over a caller's bytes. It lists what the caller has to do to its file.
ghost use Rattle.std.specs.Prelude.{◌≡◌, ◌+◌, ◌≤◌, true, false, [], ◌∷◌, ◌++◌, map, length, take, drop, IfOk, OnOk};
ghost use Rattle.std.specs.Prelude.{OnErr, Ok};
ghost use Rattle.im_disk.specs.Moment.{Counts, synced, written};
ghost use Rattle.im_listed.specs.Listing.{Accounts, is_calm, later_with, ListsStep, over, Puts, settled, task_of};
ghost use Rattle.im_listed.specs.Listing.{with_no_steps};
ghost use Rattle.im_listed.specs.Numbers.{told_number};

use crate::calls::ListedCall;
use crate::step::Step;
use im_disk::{DeviceFault, Disk};
use im_engine::Empties;
use im_noted::NoteList;
use std::alloc::AllocError;
use std::marker::Model;
use std::snapshot::Snapshot;

/// A disk over a caller's bytes, which are a copy of its file. It lists its writes and syncs, and makes them on the
/// copy at once. The caller carries them out on the file, in their order. The list is emptied between calls
/// ([`Empties`]). A sync isn't listed if nothing was written since the last one.
///
/// A crash leaves of the caller's file what it leaves after a prefix of the list ([`Listed::steps`]). A call fails only
/// if the list cannot grow.
#[derive(Drop)]
pub struct Listed {
    bytes: Vec<u8>,
    steps: Vec<Step>,
    calm: bool,
    failed: bool,
    calls: NoteList<ListedCall>,
}

impl Model for Listed {
    ghost use Rattle.im_listed.specs.{History.history_of, Listing.Agrees, Listing.Listing, Listing.listing_of};

    ghost Value = { Listing };

    ghost view = { λ d. listing_of (history_of d.calls) d.steps.items d.failed };

    ghost invariant = { λ d. Agrees d.bytes.items d.steps.items d.calm (history_of d.calls) };
}

// Adds a step to the list, if it can grow.
fn add(steps: &mut Vec<Step>, step: Step) -> Result<(), AllocError>
    ensures ok { OnOk result (steps.new.items ≡ steps.old.items ++ step ∷ []) }
    ensures err { OnErr result (steps.new.items ≡ steps.old.items) }
{
    match steps.push(step) {
        Ok(()) => Ok(()),
        Err(error) => Err(error.into()),
    }
}

// Adds a write to the list, if it can grow. Returns its bytes.
fn add_write(
    steps: &mut Vec<Step>,
    place: usize,
    bytes: &[u8],
) -> Result<Snapshot<Vec<u8>>, AllocError>
    ensures ok { OnOk result (map task_of steps.new.items ≡ map task_of steps.old.items ++ Puts place bytes.now ∷ []) }
    ensures bytes { IfOk result (λ copy. copy.value.items ≡ bytes.now) }
    ensures err { OnErr result (steps.new.items ≡ steps.old.items) }
{
    let copy = bytes.to_vec(*steps.allocator())?;
    let seen = Snapshot::of(&copy);
    add(steps, Step::Write(place, copy))?;
    Ok(seen)
}

// Adds a sync to the list, if it can grow. It does nothing if all was synced (`calm`).
fn add_sync(steps: &mut Vec<Step>, calm: bool) -> Result<(), AllocError>
    ensures ok { OnOk result (map task_of steps.new.items ≡ settled calm (map task_of steps.old.items)) }
    ensures err { OnErr result (steps.new.items ≡ steps.old.items) }
{
    if calm {
        return Ok(());
    }
    add(steps, Step::Sync)
}

// Puts `part` at this offset.
fn put(bytes: &mut Vec<u8>, at: usize, part: &[u8])
    requires { at + length part.now ≤ length bytes.old.items }
    ensures { bytes.new.items ≡ take at bytes.old.items ++ part.now ++ drop (at + length part.now) bytes.old.items }
{
    bytes[at..at + part.len()].copy_from_slice(part);
}

impl Listed {
    /// Makes a disk over these bytes, with an empty list. Each byte counts as in doubt in the file until a sync.
    pub fn new(bytes: Vec<u8>) -> Listed
        ensures over { result ≡ over bytes.items }
        ensures honest { ⟦<Listed as Disk>⟧.honest result }
    {
        let alloc = *bytes.allocator();
        let mut calls = NoteList::new();
        calls.note(&ListedCall::Given(Snapshot::of(&bytes)));
        Listed {
            bytes,
            steps: Vec::new(alloc),
            calm: false,
            failed: false,
            calls,
        }
    }

    /// Returns the writes and syncs since the list was last emptied, oldest first. Carrying them out takes the file
    /// from its state then to the disk's state now. A crash on the way leaves what the disk's clauses say.
    pub fn steps(&self) -> &[Step]
        ensures list { map task_of result.now ≡ self.now.steps }
        ensures account { Accounts self.now }
    {
        &self.steps
    }
}

impl Empties for Listed {
    ghost emptied = { with_no_steps };

    fn empty(&mut self) {
        self.calls.note(&ListedCall::Emptied);
        self.steps.clear();
    }
}

impl Disk for Listed {
    ghost now = { λ d. d.now };

    ghost past = { λ d. d.past };

    // The number stays exactly while no call fails and the list begins where it began.
    ghost failures = { λ d. told_number d.failed d.begun };

    ghost honest = { λ _. Unit {0} };

    fn len(&mut self) -> Result<usize, DeviceFault>
        ensures length { result ≡ Ok (length self.old.now.bytes) }
        ensures unchanged { self.new ≡ self.old }
        ensures honest { ⟦<Listed as Disk>⟧.honest self.new }
    {
        Ok(self.bytes.len())
    }

    fn read(&mut self, at: usize, buf: &mut [u8]) -> Result<(), DeviceFault>
        requires { at + length buf.old ≤ length self.old.now.bytes }
        ensures ok { result ≡ Ok tt }
        ensures bytes { buf.new ≡ take (length buf.old) (drop at self.old.now.bytes) }
        ensures answer { self.new ≡ later_with self.old.now self.old.steps self.old }
        ensures honest { ⟦<Listed as Disk>⟧.honest self.new }
    {
        buf.copy_from_slice(&self.bytes[at..at + buf.len()]);
        self.calls.note(&ListedCall::Read);
        Ok(())
    }

    fn write_at(&mut self, at: usize, bytes: &[u8]) -> Result<(), DeviceFault>
        requires { at + length bytes.now ≤ length self.old.now.bytes }
        ensures answer { ListsStep result
            (later_with (written at bytes.now self.old.now) (self.old.steps ++ Puts at bytes.now ∷ []) self.old)
            self.old self.new }
        ensures failures { Counts result
            (told_number self.old.failed self.old.begun) (told_number self.new.failed self.new.begun) }
        ensures honest { ⟦<Listed as Disk>⟧.honest self.new }
    {
        let Ok(seen) = add_write(&mut self.steps, at, bytes) else {
            self.failed = true;
            return Err(DeviceFault);
        };
        put(&mut self.bytes, at, bytes);
        self.calm = false;
        self.calls.note(&ListedCall::Written(at, seen));
        Ok(())
    }

    fn sync(&mut self) -> Result<(), DeviceFault>
        ensures answer { ListsStep result
            (later_with (synced self.old.now) (settled (is_calm self.old.now) self.old.steps) self.old)
            self.old self.new }
        ensures failures { Counts result
            (told_number self.old.failed self.old.begun) (told_number self.new.failed self.new.begun) }
        ensures honest { ⟦<Listed as Disk>⟧.honest self.new }
    {
        if let Err(_) = add_sync(&mut self.steps, self.calm) {
            self.failed = true;
            return Err(DeviceFault);
        }
        self.calm = true;
        self.calls.note(&ListedCall::Synced);
        Ok(())
    }
}
