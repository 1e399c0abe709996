//! Walks through the stories of files.

use crate::dice::Dice;
use crate::phrases::Phrase;
use crate::says::Saying;
use std::fs;

/// A layer that stories are about, from its beginning on, and the words for its calls.
pub trait Subject {
    /// Begins a story: nothing has happened yet.
    fn begin(&mut self);

    /// Makes the call, and says its answer, or that there is no such call.
    fn make(&mut self, call: &Phrase, said: &mut Saying);
}

impl Phrase<'_> {
    /// Makes as many steps as the call's first number says, thrown from its second one on. A step gets its number, and
    /// returns whether all is then as it has to be. Tells how many of them are right, up to the first that isn't.
    pub fn walk<F: FnMut(u64, &mut Dice) -> bool>(&self, said: &mut Saying, mut step: F)
        requires { F.IsAlwaysCallable step }
    {
        let mut dice = Dice::new(self.number(1));
        let mut right = 0u64;
        for number in 0..self.number(0) {
            if !step(number, &mut dice) {
                break;
            }
            right = number.saturating_add(1);
        }
        write!(said, "{right} steps agree")
    }
}

/// Makes the call that these words tell, and says its answer.
pub fn tell_line<S: Subject>(asked: &str, subject: &mut S, said: &mut Saying) {
    match asked.split_whitespace().collect::<Vec<&str>>(said.alloc()) {
        Ok(words) => subject.make(&Phrase::of(said.alloc(), words.as_slice()), said),
        Err(_) => said.fail("no memory is left"),
    }
}

// Makes a line's call, and adds to `out` if the answer isn't the line's. Returns whether it is.
fn is_so<S: Subject>(line: &str, subject: &mut S, out: &mut Saying) -> bool {
    let (asked, expected) = line.split_once(" =").unwrap_or((line, "an answer"));
    let mut said = Saying::new(out.alloc());
    tell_line(asked, subject, &mut said);
    let (answer, expected) = (said.said().trim(), expected.trim());
    let is_so = answer == expected && !said.is_wrong();
    if !is_so {
        let how = if said.is_wrong() { "error: " } else { "" };
        write!(out, "  {asked}: {how}{answer}, in place of {expected}\n")
    }
    is_so
}

// Walks the stories of a text. Adds a line to `out` for each call that was answered otherwise. Returns how many stories
// there were, how many calls they have, and how many calls were answered otherwise, lines are no call, and stories, or
// a text without one, have no call.
fn walk<S: Subject>(text: &str, subject: &mut S, out: &mut Saying) -> (u32, u32, u32) {
    let (mut stories, mut lines, mut wrong, mut before) = (0u32, 0u32, 0u32, 0u32);
    for line in text.lines() {
        if line.starts_with("# ") {
            wrong = wrong.saturating_add(u32::from(stories != 0 && lines == before));
            stories = stories.saturating_add(1);
            before = lines;
            subject.begin();
        } else if !line.trim().is_empty() && !line.starts_with("-- ") {
            wrong = wrong.saturating_add(u32::from(!is_so(line, subject, out)));
            lines = lines.saturating_add(1);
        }
    }
    wrong = wrong.saturating_add(u32::from(lines == before));
    (stories, lines, wrong)
}

/// Walks the stories of a file. Tells how many there were, and each call that was answered otherwise. Returns whether
/// none was, each line is a call, each story has one, and there is a story.
pub fn walk_file<S: Subject>(
    rt: &HostRuntime,
    file: &str,
    subject: &mut S,
    said: &mut Saying,
) -> bool {
    let Ok(text) = fs::read_to_string(rt, file) else {
        write!(said, "{file} can't be read\n");
        return false;
    };
    let mut out = Saying::new(rt.alloc());
    let (stories, lines, wrong) = walk(text.as_str(), subject, &mut out);
    write!(said, "{file}: {stories} stories, ");
    write!(said, "{lines} lines, {wrong} wrong\n");
    said.also(&out);
    wrong == 0
}
