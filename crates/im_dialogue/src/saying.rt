//! Prints the lines of answers.
ghost use Rattle.std.specs.Prelude.{◌≡◌, ℕ, List, [], ◌++◌, map, OnOk, OnErr, string_bytes};
ghost use Rattle.std.specs.Io.KnownBytes.{Appends};
ghost use Rattle.im_text.specs.Printing.{Begins};
ghost use Rattle.im_dialogue.specs.{Answers.answer_text, Watching.told_with};
ghost use Rattle.im_dialogue.specs.Together.{answer_told, AreLinesOf, first_text, later_texts};

use crate::answers::{LineAnswer, add_answer};
use crate::watching::told_with;
use im_front::ToldAnswer;
use im_memory::Memory;
use im_session::served_answer;
use im_text::{Reason, put_through};
use std::alloc::{AllocError, Global};
use std::io::Write;

// Returns the name of the refusal that an answer is, or the words for where a line goes wrong or why a backup isn't
// kept. It is empty for any other answer.
fn name_of(alloc: Global, memory: &Memory, answer: LineAnswer) -> Result<String, AllocError> {
    let mut name = String::new(alloc);
    if let LineAnswer::Wrong(_, fault) = answer {
        write!(name, "{fault}")?;
    }
    if let LineAnswer::Backup(_, Err(fault)) = answer {
        write!(name, "{fault}")?;
    }
    if let Some(refusal) = answer.refusal(memory) {
        write!(name, "{refusal}")?;
    }
    Ok(name)
}

// Adds the line of an answer on this memory, and what those that watch are told behind it.
fn add_line(
    alloc: Global,
    lines: &mut String,
    memory: &Memory,
    answer: LineAnswer,
    now: &str,
) -> Result<(), AllocError>
    ensures { OnOk result ((name : List ℕ) × (string_bytes lines.new ≡ string_bytes lines.old
        ++ (answer_text name memory.now.contents answer ++ told_with answer now.now))) }
{
    let name = name_of(alloc, memory, answer)?;
    add_answer(lines, memory, answer, name.as_str())?;
    let told = told_with(answer, now);
    lines.push_str(told)
}

// Returns the first of these texts, or none.
fn first_now(nows: &[String]) -> &str
    ensures { result.now ≡ first_text (map string_bytes nows.entry.now) }
{
    match nows.split_first() {
        Some((first, _)) => first.as_str(),
        None => "",
    }
}

// Returns those behind the first.
fn later_nows(nows: &[String]) -> &[String]
    ensures { map string_bytes result.now ≡ later_texts (map string_bytes nows.entry.now) }
{
    match nows.split_first() {
        Some((_, later)) => later,
        None => nows,
    }
}

// Returns the answer to a command as a line's.
fn answer_of(told: &ToldAnswer) -> LineAnswer
    ensures { result ≡ answer_told told.now }
{
    LineAnswer::Served(told.asked.command, served_answer(told.served))
}

// Adds the lines of the answers to commands, each followed by what those that watch are told behind it.
fn add_lines(
    alloc: Global,
    lines: &mut String,
    memory: &Memory,
    told: &[ToldAnswer],
    nows: &[String],
) -> Result<(), AllocError>
    requires empty { string_bytes lines.old ≡ [] }
    ensures { OnOk result (AreLinesOf told.now (map string_bytes nows.now) (string_bytes lines.new)) }
{
    let mut left = nows;
    for one in told {
        add_line(alloc, lines, memory, answer_of(one), first_now(left))?;
        left = later_nows(left);
    }
    Ok(())
}

/// The text of answers, in memory that is kept.
#[derive(Drop)]
pub(crate) struct Draft {
    /// Where memory comes from.
    pub(crate) alloc: Global,
    // The lines of one line's or one group's answers, as they are made.
    lines: String,
    /// What was told, and isn't put out yet.
    pub(crate) text: String,
}

impl Draft {
    /// Makes room for answers. Nothing was told yet.
    pub(crate) fn new(alloc: Global) -> Draft
        ensures { string_bytes result.text ≡ [] }
    {
        Draft {
            alloc,
            lines: String::new(alloc),
            text: String::new(alloc),
        }
    }

    /// Tells the answer to a line that is no command, on this memory.
    pub(crate) fn say(&mut self, memory: &Memory, answer: LineAnswer) -> Result<(), AllocError>
        ensures said { OnOk result ((name : List ℕ) × (string_bytes self.new.text
            ≡ string_bytes self.old.text ++ answer_text name memory.now.contents answer)) }
        ensures same { OnErr result (string_bytes self.new.text ≡ string_bytes self.old.text) }
    {
        let name = name_of(self.alloc, memory, answer)?;
        self.lines.clear();
        add_answer(&mut self.lines, memory, answer, name.as_str())?;
        self.text.push_str(self.lines.as_str())
    }

    /// Tells the answers to commands, each followed by what those that watch are told behind it.
    pub(crate) fn say_all(
        &mut self,
        memory: &Memory,
        told: &[ToldAnswer],
        nows: &[String],
    ) -> Result<(), AllocError>
        ensures said { OnOk result ((text : List ℕ) × AreLinesOf told.now (map string_bytes nows.now) text
            × (string_bytes self.new.text ≡ string_bytes self.old.text ++ text)) }
        ensures same { OnErr result (string_bytes self.new.text ≡ string_bytes self.old.text) }
    {
        self.lines.clear();
        add_lines(self.alloc, &mut self.lines, memory, told, nows)?;
        self.text.push_str(self.lines.as_str())
    }

    /// Puts out what was told.
    pub(crate) fn put_out<W: Write>(&mut self, out: &mut W) -> Result<(), Reason>
        ensures whole { OnOk result (Appends (W.contents out.old) (W.contents out.new) (string_bytes self.old.text)) }
        ensures begins { Begins (W.contents out.old) (W.contents out.new) (string_bytes self.old.text) }
        ensures none { string_bytes self.new.text ≡ [] }
    {
        let put = put_through(out, self.text.as_str());
        self.text.clear();
        put
    }
}
