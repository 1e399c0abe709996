//! Failures of either disk at each call of a migration, and what is found of the new file then.

use crate::moves::{are_same, move_on};
use im_disk::{Crash, Mode};
use im_story::{Phrase, Saying, crash, mode};
use im_story_disk::StoryFile;

// Which disk fails, how, and what the crash after it leaves.
#[derive(Clone, Copy)]
struct Breakdown {
    is_old: bool,
    mode: Mode,
    crash: Option<Crash>,
}

// Reads which disk fails and how, and what a crash leaves: `in each MODE [of old] [CRASH]`.
fn breakdown_of(call: &Phrase) -> Option<Breakdown> {
    let is_old = call.word(3) == "of";
    let left = call.word(if is_old { 5 } else { 3 });
    let crash = crash(left);
    if crash.is_none() && !left.is_empty() {
        return None;
    }
    Some(Breakdown {
        is_old,
        mode: mode(call.word(2))?,
        crash,
    })
}

// Migrates while a disk passes this many calls. If it makes more, that has to be refused. Tells then what is found of
// the new file after a crash, refused or what the old one means, and what a second migration comes to. Returns whether
// it made more.
fn breaks(
    old: &mut StoryFile,
    new: &mut StoryFile,
    passes: u64,
    breakdown: Breakdown,
    end: &mut Saying,
) -> bool {
    let mut moved = Saying::new(old.alloc);
    if breakdown.is_old {
        old.fuse = (passes, breakdown.mode);
    } else {
        new.fuse = (passes, breakdown.mode);
    }
    move_on(old, new, &mut moved);
    let calls = if breakdown.is_old {
        old.calls
    } else {
        new.calls
    };
    if calls <= passes {
        return false;
    }
    end.so(moved.said() == "refused 8 Device", "");
    if let Some(crash) = breakdown.crash {
        end.so(new.crash(crash), "");
    }
    new.tell_opening(end);
    let is_so = !end.said().starts_with("count") || are_same(old, new);
    end.so(is_so, " then ");
    move_on(old, new, end);
    true
}

// Tells a result, and how often it came in a row.
fn add_times(times: u64, end: &Saying, said: &mut Saying) {
    if times > 0 {
        said.either(said.is_empty(), "", ", ");
        write!(said, "{times} ");
        said.also(end)
    }
}

// Fails at each call, and tells how often each result came in a row. The new file begins with these bytes.
fn tell_each(old: &mut StoryFile, bytes: &[u8], breakdown: Breakdown, said: &mut Saying) {
    let mut new = StoryFile::new(old.alloc);
    let (mut last, mut times) = (Saying::new(old.alloc), 0u64);
    for passes in 0..10_000 {
        let mut end = Saying::new(old.alloc);
        said.so(new.lay(bytes, bytes.len()), "");
        if !breaks(old, &mut new, passes, breakdown, &mut end) {
            return add_times(times, &last, said);
        }
        if end.said() != last.said() || end.is_wrong() {
            add_times(times, &last, said);
            times = 0;
        }
        times = times.saturating_add(1);
        last = end;
    }
    said.fail("the calls don't end")
}

/// Makes the call `in each` with `stop`, `once` or `scar:BYTE`, of the new file or `of old`, and what a crash after it
/// leaves. The old file must not change.
pub fn tell(old: &StoryFile, new: &StoryFile, call: &Phrase, said: &mut Saying) {
    let Some(breakdown) = breakdown_of(call) else {
        return said.fail("that is no way to fail");
    };
    let mut from = old.copy();
    tell_each(&mut from, new.bytes(), breakdown, said);
    said.so(from.bytes() == old.bytes(), "")
}
