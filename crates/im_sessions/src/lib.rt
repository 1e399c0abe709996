//! Windows of kept replies, one for each element. A window says which requests are new, which are repeats, and which
//! entries they have.
#![tactic(auto)]

ghost use Rattle.std.specs.Prelude.{◌≡◌, ◌<◌, length, replicate, IfOk, IfErr, OnOk, slice_get, slice_set, MatchResult};
ghost use Rattle.im_types.specs.Types.{Window, new_window, kept_for, IsWindow, judge, note, answer, confirm_window};
ghost use Rattle.im_types.specs.Types.{ask, bounds};
ghost use Rattle.im_sessions.specs.Windows.{AreWindows};

mod place;
mod ring;

use im_types::{Entry, Judged, Kept, Refusal, Reply, Request, Waiter};
use ring::Ring;
use std::alloc::Global;
use std::marker::Model;

/// A window of kept replies for each element. Contracts see the windows, by element.
///
/// A window keeps the operations under an element's latest numbers, each with its entry. It keeps at most
/// [`WINDOW`](im_types::WINDOW) of them. [`Sessions::new`] takes the room for them, and no later call takes any. To
/// judge, note, answer or look up a request takes one step, however many entries are kept. A confirmation takes one
/// step for each entry that it drops.
#[derive(Drop)]
pub struct Sessions {
    windows: Vec<Ring>,
}

impl Model for Sessions {
    ghost use Rattle.std.specs.Prelude.{List};
    ghost use Rattle.im_types.specs.Types.{Window};
    ghost use Rattle.im_sessions.specs.Windows.{AreWindows};

    ghost Value = { List Window };

    ghost view = { λ s. s.windows.items };

    ghost invariant = { λ s. AreWindows s.windows.items };
}

impl Sessions {
    /// Makes the given number of windows. Each has no entry and is numbered from 1 on. Returns `NoMemory` if their
    /// memory is refused.
    pub fn new(alloc: Global, elements: u16) -> Result<Sessions, Refusal>
        ensures ok { IfOk result (λ s. s ≡ replicate elements new_window) }
        ensures err { IfErr result (λ refusal. refusal ≡ Refusal.NoMemory) }
    {
        let mut windows = Vec::with_capacity(alloc, elements as usize).map_err(
            |_| Refusal::NoMemory,
        )?;
        for _ in 0..elements {
            windows.push(Ring::new()).map_err(|_| Refusal::NoMemory)?;
        }
        Ok(Sessions { windows })
    }

    /// Replaces an element's window by one with these entries, numbered from `base` on.
    pub fn restore(&mut self, element: u16, base: u64, kept: &[Kept])
        requires element { element < length self.old }
        requires window { IsWindow (record { base = base; kept = kept.now }) }
        ensures { self.new ≡ slice_set self.old element (record { base = base; kept = kept.now }) }
    {
        self.windows[element as usize] = Ring::restore(base, kept);
    }

    /// Returns the number of elements. Contracts also learn here that each window is within its bounds. It is numbered
    /// from 1 on, keeps at most [`WINDOW`](im_types::WINDOW) entries, and numbers none past the last number of all.
    pub fn elements(&self) -> usize
        ensures count { result ≡ length self.now }
        ensures windows { AreWindows self.now }
    {
        self.windows.len()
    }

    /// Returns whether a request is new, or a repeat with its entry, or why it is refused. The refusals are
    /// `NoElement`, `Forgotten` below the window, and `Mismatch` if its number is kept for another operation. They are
    /// also `Gap` past the next number or past the last one of all, and `WindowFull` if the request is new and the
    /// window has no room.
    #[inline(always)]
    pub fn judge(&self, request: &Request) -> Result<Judged, Refusal>
        ensures { result ≡ judge self.now request.now }
    {
        self.ring(request.element)?.judge(request)
    }

    /// Keeps a new request with its entry, under its element's next number.
    #[inline(always)]
    pub fn note(&mut self, request: &Request, entry: Entry)
        requires { judge self.old request.now ≡ Ok Judged.Fresh }
        ensures { self.new ≡ note self.old request.now entry }
    {
        self.windows[request.element as usize].note(request.op, entry);
    }

    /// Answers a request that waits. From now on its entry is the reply.
    #[inline(always)]
    pub fn answer(&mut self, who: Waiter, reply: Reply)
        requires { ask self.old who ≡ Ok Entry.Waiting }
        ensures { self.new ≡ answer self.old who reply }
    {
        self.windows[who.element as usize].answer(who.number, reply);
    }

    /// Drops an element's entries below a number. If there is none, nothing changes. The refusals are `NoElement`,
    /// `Gap` if the number is past the next one, and `NotAnswered` if an entry below it waits. A refusal changes
    /// nothing.
    pub fn confirm(&mut self, element: u16, upto: u64) -> Result<(), Refusal>
        ensures ok { OnOk result
            ((w : Window) × (confirm_window upto (slice_get self.old element) ≡ Ok w)
            × (self.new ≡ slice_set self.old element w)) }
        ensures err { IfErr result
            (λ refusal. (confirm_window upto (slice_get self.old element) ≡ Err refusal)
            × (self.new ≡ self.old)) }
    {
        let element = element as usize;
        if element >= self.windows.len() {
            return Err(Refusal::NoElement);
        }
        self.windows[element].confirm(upto)
    }

    /// Returns the entry under an element's number, or why there is none. The refusals are `NoElement`, `Forgotten`
    /// below the window, and `Gap` if no request with this number was served yet.
    #[inline(always)]
    pub fn entry(&self, element: u16, number: u64) -> Result<Entry, Refusal>
        ensures { result ≡ ask self.now (record { element = element; number = number }) }
    {
        self.ring(element)?.entry(number)
    }

    /// Returns the operation and the entry that are kept under an element's number, or `None` if there are none.
    pub fn kept(&self, element: u16, number: u64) -> Option<Kept>
        ensures { result ≡ kept_for self.now (record { element = element; number = number }) }
    {
        self.ring(element).ok()?.kept(number)
    }

    /// Returns the base of an element's window, and the number of its next new request. The entries are numbered from
    /// the base on. Returns `NoElement` if there is no such element.
    pub fn window(&self, element: u16) -> Result<(u64, u64), Refusal>
        ensures { result ≡ bounds self.now element }
    {
        Ok(self.ring(element)?.bounds())
    }

    // Returns an element's window, or `NoElement`.
    fn ring(&self, element: u16) -> Result<&Ring, Refusal>
        ensures { MatchResult result
            (λ ring. slice_get self.now element ≡ Some ring.now)
            (λ refusal. (slice_get self.now element ≡ None) × (refusal ≡ Refusal.NoElement)) }
    {
        let element = element as usize;
        if element < self.windows.len() {
            Ok(&self.windows[element])
        } else {
            Err(Refusal::NoElement)
        }
    }
}
