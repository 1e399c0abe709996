//! A random walk over windows, beside windows that are kept plainly.

use crate::windows::{Windows, answer, ask, restore};
use im_sessions::Sessions;
use im_story::{Dice, asked};
use im_types::{Entry, Judged, Kept, Op, Refusal, Reply, WINDOW, Waiter};
use std::alloc::Global;

/// A window, kept plainly: all entries from number 1 on, those that are forgotten too.
#[derive(Drop)]
pub struct PlainWindow {
    base: u64,
    all: Vec<Kept>,
}

// Returns the place of an entry among all.
fn place_of(number: u64) -> usize {
    usize::try_from(number.saturating_sub(1)).unwrap_or(usize::MAX)
}

impl PlainWindow {
    fn next(&self) -> u64 {
        (self.all.len() as u64).saturating_add(1)
    }

    fn kept(&self, number: u64) -> Option<Kept> {
        let kept = self.all.get(place_of(number)).copied();
        kept.filter(|_| number >= self.base)
    }

    fn judge(&self, number: u64, op: Op) -> Result<Judged, Refusal> {
        match self.kept(number) {
            Some(kept) if kept.op == op => Ok(Judged::Repeat(kept.entry)),
            Some(_) => Err(Refusal::Mismatch),
            None if number < self.base => Err(Refusal::Forgotten),
            None if number > self.next() => Err(Refusal::Gap),
            None if self.next().saturating_sub(self.base) < WINDOW => Ok(Judged::Fresh),
            None => Err(Refusal::WindowFull),
        }
    }

    fn entry(&self, number: u64) -> Result<Entry, Refusal> {
        match self.kept(number) {
            Some(kept) => Ok(kept.entry),
            None if number < self.base => Err(Refusal::Forgotten),
            None => Err(Refusal::Gap),
        }
    }

    fn answer(&mut self, number: u64, reply: Reply) -> bool {
        let waits = self.entry(number) == Ok(Entry::Waiting);
        if let (true, Some(kept)) = (waits, self.all.get_mut(place_of(number))) {
            kept.entry = Entry::Answered(reply);
        }
        waits
    }

    fn confirm(&mut self, upto: u64) -> Result<(), Refusal> {
        if upto > self.next() {
            return Err(Refusal::Gap);
        }
        if (self.base..upto).any(|number| self.entry(number) == Ok(Entry::Waiting)) {
            return Err(Refusal::NotAnswered);
        }
        self.base = self.base.max(upto);
        Ok(())
    }

    // Returns a number in or near the window.
    fn any_number(&self, dice: &mut Dice) -> u64 {
        match dice.below(3) {
            0 => self.next(),
            1 => self.base.saturating_add(dice.below(3) as u64),
            _ => self
                .base
                .saturating_sub(2)
                .saturating_add(dice.below(70) as u64),
        }
    }

    // Makes a thrown request on this window and on the sessions, most often a new one or a repeat. Returns whether they
    // agree.
    fn ask(&mut self, sessions: &mut Sessions, who: Waiter, dice: &mut Dice) -> bool {
        let op = match self.kept(who.number) {
            Some(kept) if dice.below(2) == 0 => kept.op,
            _ => dice.operation(1),
        };
        let entry = any_entry(dice);
        let judged = self.judge(who.number, op);
        if judged == Ok(Judged::Fresh) && self.all.push(Kept { op, entry }).is_err() {
            return false;
        }
        ask(sessions, &asked(who.element, who.number, op), entry) == judged
    }

    // Makes one thrown call on this window and on the sessions, where it is that of an element. Returns whether they
    // agree on it, and then show the same.
    fn call(&mut self, sessions: &mut Sessions, element: u16, dice: &mut Dice) -> bool {
        let number = self.any_number(dice);
        let who = Waiter { element, number };
        let agrees = match dice.below(8) {
            0 => {
                let upto = self.base.saturating_add(dice.below(6) as u64);
                sessions.confirm(element, upto) == self.confirm(upto)
            }
            1 | 2 | 3 => {
                let reply = Reply::Value(dice.below(100) as u64);
                answer(sessions, who, reply) == self.answer(number, reply)
            }
            _ => self.ask(sessions, who, dice),
        };
        agrees
            && sessions.entry(element, number) == self.entry(number)
            && sessions.kept(element, number) == self.kept(number)
            && sessions.window(element) == Ok((self.base, self.next()))
    }
}

fn any_entry(dice: &mut Dice) -> Entry {
    match dice.below(3) {
        0 => Entry::Waiting,
        1 => Entry::Answered(Reply::Stored),
        _ => Entry::Answered(Reply::Value(dice.below(100) as u64)),
    }
}

// Restores each window from the plain one. Returns whether all of them are within their bounds.
fn restore_all(sessions: &mut Sessions, plain: &[PlainWindow]) -> bool {
    (0..3u16).zip(plain).all(|(element, window)| {
        let kept = window.all.as_slice().get(place_of(window.base)..);
        kept.is_some_and(|kept| restore(sessions, element, window.base, kept))
    })
}

/// Makes three plain windows with no entry.
pub fn begin(alloc: Global) -> Option<Vec<PlainWindow>> {
    let mut windows = Vec::new(alloc);
    for _ in 0..3u32 {
        let (base, all) = (1, Vec::new(alloc));
        windows.push(PlainWindow { base, all }).ok()?;
    }
    Some(windows)
}

/// Makes a thrown call on one of three windows, and restores them after one in ten if that is asked for. Returns
/// whether they are as the plain ones are.
pub fn step(windows: &mut Windows, dice: &mut Dice) -> bool {
    let (element, sessions) = (dice.below(3), &mut windows.sessions);
    let Some(window) = windows.plain.get_mut(element as usize) else {
        return false;
    };
    window.call(sessions, element as u16, dice)
        && (!windows.restores
            || dice.below(10) != 0
            || restore_all(sessions, windows.plain.as_slice()))
}
