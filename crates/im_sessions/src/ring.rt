//! One element's window, as a ring of places. The place of an entry is its number modulo the size of the window. So
//! each entry is found at once, and none moves when others are dropped.
ghost use Rattle.std.specs.Prelude.{◌≡◌, ◌+◌, ◌-◌, ◌<◌, ◌≤◌, [], length, take, drop, OnOk, slice_get, MatchResult};
ghost use Rattle.std.specs.List.{list_any};
ghost use Rattle.im_types.specs.Types.{new_window, kept_under, IsWindow, next_number, same_op, judge_window, note_in};
ghost use Rattle.im_types.specs.Types.{answer_in, is_waiting, confirm_window, ask_window};
ghost use Rattle.im_sessions.specs.Places.{ring_place};

use crate::place::RingPlace;
use im_types::{Entry, Judged, Kept, LAST, Op, Refusal, Reply, Request, WINDOW};
use std::marker::Model;

const PLACES: usize = WINDOW as usize;

/// The entries that are kept for an element, numbered from a base on.
#[derive(Drop)]
pub struct Ring {
    base: u64,
    count: u64,
    places: [RingPlace; PLACES],
}

impl Model for Ring {
    ghost use Rattle.im_types.specs.Types.{Window};
    ghost use Rattle.im_sessions.specs.Places.{AreBounds, entries_from};

    ghost Value = { Window };

    ghost view = { λ r. record { base = r.base; kept = entries_from r.places r.base r.count } };

    ghost invariant = { λ r. AreBounds r.base r.count };
}

// Returns the place of the entry with this number.
fn place_of(number: u64) -> usize
    ensures { result ≡ ring_place number }
{
    (number % WINDOW) as usize
}

// Returns whether two operations are the same.
fn is_same(op: &Op, other: &Op) -> bool
    ensures { result ≡ same_op op.now other.now }
{
    op == other
}

impl Ring {
    /// Makes a window with no entry, numbered from 1 on.
    pub fn new() -> Ring
        ensures empty { result ≡ new_window }
        ensures bounds { IsWindow result }
    {
        Ring {
            base: 1,
            count: 0,
            places: [RingPlace::new(Op::Release(0), Entry::Waiting); PLACES],
        }
    }

    /// Makes a window with these entries, numbered from `base` on.
    pub fn restore(base: u64, kept: &[Kept]) -> Ring
        requires { IsWindow (record { base = base; kept = kept.now }) }
        ensures restored { result ≡ record { base = base; kept = kept.now } }
        ensures bounds { IsWindow result }
    {
        let mut ring = Ring::with_base(base);
        for one in kept {
            ring.note(one.op, one.entry);
        }
        ring
    }

    // Makes a window with no entry, numbered from `base` on.
    fn with_base(base: u64) -> Ring
        requires from_one { 1 ≤ base }
        requires to_last { base ≤ LAST + 1 }
        ensures { result ≡ record { base = base; kept = [] } }
    {
        let mut ring = Ring::new();
        ring.base = base;
        ring
    }

    /// Returns the base, and the number of the next new request.
    pub fn bounds(&self) -> (u64, u64)
        ensures { result ≡ (self.now.base, next_number self.now) }
    {
        (self.base, self.base + self.count)
    }

    /// Returns whether a request is new or a repeat, or why it is refused.
    #[inline(always)]
    pub fn judge(&self, request: &Request) -> Result<Judged, Refusal>
        ensures { result ≡ judge_window request.now (Some self.now) }
    {
        let (base, next) = self.bounds();
        // First of all what is new: most requests are.
        if request.number == next && next <= LAST && next - base < WINDOW {
            return Ok(Judged::Fresh);
        }
        if request.number < base {
            return Err(Refusal::Forgotten);
        }
        if request.number < next {
            let place = self.at(request.number);
            // A copy, so that a request that is new stays in registers.
            let op = request.op;
            return if is_same(place.op(), &op) {
                Ok(Judged::Repeat(place.entry()))
            } else {
                Err(Refusal::Mismatch)
            };
        }
        if request.number > next || request.number > LAST {
            return Err(Refusal::Gap);
        }
        if next - base < WINDOW {
            Ok(Judged::Fresh)
        } else {
            Err(Refusal::WindowFull)
        }
    }

    /// Returns the operation and the entry under a number, or `None` if there are none.
    pub fn kept(&self, number: u64) -> Option<Kept>
        ensures { result ≡ kept_under self.now number }
    {
        let (base, next) = self.bounds();
        if number < base || number >= next {
            None
        } else {
            Some(self.at(number).kept())
        }
    }

    /// Returns the entry under a number, or why there is none.
    #[inline(always)]
    pub fn entry(&self, number: u64) -> Result<Entry, Refusal>
        ensures { result ≡ ask_window number (Some self.now) }
    {
        let (base, next) = self.bounds();
        if number < base {
            Err(Refusal::Forgotten)
        } else if number < next {
            Ok(self.at(number).entry())
        } else {
            Err(Refusal::Gap)
        }
    }

    /// Keeps an operation with its entry, under the next number.
    #[inline(always)]
    pub fn note(&mut self, op: Op, entry: Entry)
        requires room { length self.old.kept < WINDOW }
        requires to_last { next_number self.old ≤ LAST }
        ensures noted { self.new ≡ note_in op entry self.old }
        ensures bounds { IsWindow self.new }
    {
        self.places[place_of(self.base + self.count)] = RingPlace::new(op, entry);
        self.count += 1;
    }

    /// Answers the entry under a number.
    #[inline(always)]
    pub fn answer(&mut self, number: u64, reply: Reply)
        requires from_base { self.old.base ≤ number }
        requires below_next { number < next_number self.old }
        ensures answered { self.new ≡ answer_in number reply self.old }
        ensures bounds { IsWindow self.new }
    {
        self.places[place_of(number)].answer(reply);
    }

    /// Drops the entries below a number if each of them is answered. A refusal changes nothing.
    pub fn confirm(&mut self, upto: u64) -> Result<(), Refusal>
        ensures confirmed { MatchResult result
            (λ _. confirm_window upto (Some self.old) ≡ Ok self.new)
            (λ refusal. (confirm_window upto (Some self.old) ≡ Err refusal) × (self.new ≡ self.old)) }
        ensures bounds { OnOk result (IsWindow self.new) }
    {
        let (base, next) = self.bounds();
        let count = upto.saturating_sub(base);
        if upto > next {
            Err(Refusal::Gap)
        } else if self.has_waiting(count) {
            Err(Refusal::NotAnswered)
        } else {
            self.drop_first(count);
            Ok(())
        }
    }

    // Drops the first `count` entries.
    fn drop_first(&mut self, count: u64)
        requires { count ≤ length self.old.kept }
        ensures dropped { self.new
            ≡ record { base = self.old.base + count; kept = drop count self.old.kept } }
        ensures bounds { IsWindow self.new }
    {
        self.base += count;
        self.count -= count;
    }

    // Returns the place of a number that the window has.
    fn at(&self, number: u64) -> &RingPlace
        requires from_base { self.now.base ≤ number }
        requires below_next { number < next_number self.now }
        ensures { slice_get self.now.kept (number - self.now.base) ≡ Some result.now }
    {
        &self.places[place_of(number)]
    }

    // Returns whether one of the first `count` entries is waiting.
    fn has_waiting(&self, count: u64) -> bool
        requires { count ≤ length self.now.kept }
        ensures { result ≡ list_any is_waiting (take count self.now.kept) }
    {
        let (base, _) = self.bounds();
        for past in 0..count {
            if self.at(base + past).is_waiting() {
                return true;
            }
        }
        false
    }
}
