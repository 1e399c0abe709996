//! Windows of kept replies.

use crate::plain_windows::{PlainWindow, begin};
use im_sessions::Sessions;
use im_story::{Phrase, Saying, asked, entry, op};
use im_types::{Entry, Judged, Kept, LAST, Op, Refusal, Reply, Request, WINDOW, Waiter};
use std::alloc::Global;

/// Windows, the entries that the next one is restored from, and three windows as a walk keeps them plainly. The walk
/// may restore its windows now and then.
#[derive(Drop)]
pub struct Windows {
    /// The windows.
    pub sessions: Sessions,
    shown: Vec<Kept>,
    /// The plain ones.
    pub plain: Vec<PlainWindow>,
    /// Whether the walk restores its windows.
    pub restores: bool,
}

impl Windows {
    /// Makes the given number of new windows.
    pub fn new(alloc: Global, elements: u16, restores: bool) -> Option<Windows> {
        Some(Windows {
            sessions: Sessions::new(alloc, elements).ok()?,
            shown: Vec::new(alloc),
            plain: begin(alloc)?,
            restores,
        })
    }
}

/// Judges a request, and keeps a new one with this entry. Returns the judgement.
pub fn ask(sessions: &mut Sessions, request: &Request, entry: Entry) -> Result<Judged, Refusal> {
    let judged = sessions.judge(request)?;
    if let Judged::Fresh = judged {
        sessions.note(request, entry);
    }
    Ok(judged)
}

/// Answers a request, if it waits.
pub fn answer(sessions: &mut Sessions, who: Waiter, reply: Reply) -> bool {
    let waits = sessions.entry(who.element, who.number) == Ok(Entry::Waiting);
    if waits {
        sessions.answer(who, reply);
    }
    waits
}

/// Restores a window, if there is such an element and the window is within its bounds.
pub fn restore(sessions: &mut Sessions, element: u16, base: u64, kept: &[Kept]) -> bool {
    let count = kept.len() as u64;
    if element as usize >= sessions.elements() || base < 1 || base > LAST + 1 {
        return false;
    }
    if count > WINDOW || base + count > LAST + 1 {
        return false;
    }
    sessions.restore(element, base, kept);
    true
}

// Adds how a request is judged.
fn add_judged(said: &mut Saying, judged: Result<Judged, Refusal>) {
    match judged {
        Ok(Judged::Fresh) => said.text("fresh"),
        Ok(Judged::Repeat(entry)) => {
            said.text("repeat ");
            said.entry(entry)
        }
        Err(refusal) => said.refusal(refusal),
    }
}

// Tells how requests are judged, and keeps new ones with this entry: one request, or those of an element from one
// number to another, of which all have to be judged the same.
fn keep(sessions: &mut Sessions, entry: Entry, call: &Phrase, said: &mut Saying) {
    let who = call.waiter(0);
    let (last, words) = match call.word(1) {
        "to" => (call.number(2), 3),
        _ => (who.number, 1),
    };
    said.given(op(call.rest(words)), "no operation", |op, said| {
        said.alike(who.number..=last, |number, one| {
            add_judged(one, ask(sessions, &asked(who.element, number, op), entry))
        })
    })
}

// Shows an entry for an operation, or keeps it for requests: `show ENTRY for ..`, `keep ENTRY for ..`.
fn tell_entry(windows: &mut Windows, call: &Phrase, said: &mut Saying) {
    let mut parts = call.rest(1).split(|word| *word == "for");
    let (kept, asked) = (parts.next().unwrap_or(&[]), parts.next().unwrap_or(&[]));
    match (call.word(0), entry(kept), op(asked)) {
        ("show", Some(entry), Some(op)) => {
            said.so(windows.shown.push(Kept { op, entry }).is_ok(), "shown")
        }
        ("keep", Some(entry), _) => {
            let asked = Phrase::of(call.alloc(), asked);
            keep(&mut windows.sessions, entry, &asked, said)
        }
        _ => said.fail("no call of windows"),
    }
}

// Shows as many fetches as a window holds, with the values from 100 on. Returns whether there was memory for them.
fn show_fetches(shown: &mut Vec<Kept>) -> bool {
    (0..WINDOW).all(|i| {
        let (op, entry) = (Op::Fetch(0), Entry::Answered(Reply::Value(100 + i)));
        shown.push(Kept { op, entry }).is_ok()
    })
}

// Restores a window from what was shown.
fn restore_shown(windows: &mut Windows, call: &Phrase, said: &mut Saying) {
    let kept = windows.shown.as_slice();
    if !restore(&mut windows.sessions, call.element(0), call.number(1), kept) {
        return said.fail("out of bounds");
    }
    write!(said, "{} entries", kept.len());
    windows.shown.clear();
}

// Answers the requests of an element up to a number with a value. All of them have to wait, or none.
fn tell_answers(sessions: &mut Sessions, first: Waiter, last: u64, value: u64, said: &mut Saying) {
    let element = first.element;
    said.alike(first.number..=last, |number, one| {
        let is_answered = answer(sessions, Waiter { element, number }, Reply::Value(value));
        one.either(is_answered, "answered", "nobody waits")
    })
}

/// Makes a call of windows.
pub fn tell(windows: &mut Windows, call: &Phrase, said: &mut Saying) {
    let sessions = &mut windows.sessions;
    let (element, number, last) = (call.element(0), call.number(1), call.number(2));
    match call.form() {
        "answer _._ value _" => tell_answers(sessions, call.waiter(0), number, last, said),
        "answer _._ to _ value _" => {
            tell_answers(sessions, call.waiter(0), last, call.number(3), said)
        }
        "confirm _ _" => said.done(sessions.confirm(element, number), "confirmed"),
        "entry _._" => said.answer(sessions.entry(element, number)),
        "kept _._" => said.kept(sessions.kept(element, number)),
        "window _" => said.window(sessions.window(element)),
        "elements" => said.number(sessions.elements()),
        "past _" => write!(said, "{} windows", past(sessions, call.number(0))),
        "show _ fetches" => said.so(show_fetches(&mut windows.shown), "shown"),
        "restore _ from _" => restore_shown(windows, call, said),
        "restore each" => {
            said.so(show_fetches(&mut windows.shown), "");
            let agreed = restored_each(sessions, windows.shown.as_slice());
            write!(said, "{agreed} windows go on")
        }
        _ => tell_entry(windows, call, said),
    }
}

// Returns how many windows begin past a number.
fn past(sessions: &Sessions, number: u64) -> usize {
    let base_of = |element: u16| sessions.window(element).unwrap_or((0, 0)).0;
    (0..64).filter(|element| base_of(*element) > number).count()
}

// Returns whether a window with the first of these entries, from a base on, is restored, and continues as it must.
fn goes_on(sessions: &mut Sessions, base: u64, kept: &[Kept]) -> bool {
    let next = base.saturating_add(kept.len() as u64);
    if !restore(sessions, 0, base, kept) || sessions.window(0) != Ok((base, next)) {
        return false;
    }
    let are_there = (base..next)
        .zip(kept)
        .all(|(at, one)| sessions.entry(0, at) == Ok(one.entry));
    let wanted = match kept.len() as u64 {
        WINDOW => Err(Refusal::WindowFull),
        _ => Ok(Judged::Fresh),
    };
    are_there
        && sessions.entry(0, base.saturating_sub(1)) == Err(Refusal::Forgotten)
        && sessions.entry(0, next) == Err(Refusal::Gap)
        && ask(sessions, &asked(0, next, Op::Fetch(0)), Entry::Waiting) == wanted
}

// Counts the windows, of each count of entries at each base from 1 to 130, that continue as they must. It stops at a
// wrong one.
fn restored_each(sessions: &mut Sessions, kept: &[Kept]) -> u32 {
    let mut agreed = 0u32;
    for base in 1..131u64 {
        for count in 0..kept.len() + 1 {
            if !goes_on(sessions, base, &kept[..count]) {
                return agreed;
            }
            agreed = agreed.saturating_add(1);
        }
    }
    agreed
}
