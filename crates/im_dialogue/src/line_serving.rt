//! Serves the lines of a dialogue, one by one.
//!
//! A line is read and parsed once. A command is asked of the front. Any other line is answered behind all that is
//! asked. Answers are told as a text, which is put out once no whole line is left in the reader's buffer.
ghost use Rattle.std.specs.Prelude.{◌≡◌, false, List, [], IfOk, OnOk, Some, None};
ghost use Rattle.im_dialogue.specs.{Asking.asked_of, Asking.question_command, Talk.outputs, Together.AreAsked};

use crate::asking::{Question, read_asked};
use crate::backups::Backups;
use crate::explaining::explain;
use crate::lines::{next_line, unread};
use crate::resting::half_of;
use crate::serving::Dialogue;
use crate::talk::{answer, turn_while_quiet, wrong};
use im_damage::Damage;
use im_disk::Disk;
use im_listening::Ear;
use im_text::Reason;
use im_types::Command;
use std::io::{BufRead, ErrorKind, Write};

// A text of at least so many bytes is put out, though more lines are there to be read.
const MUCH: usize = 65_536;

// Returns the command that is asked for, if it is one.
fn question_command(asked: Option<Question>) -> Option<Command>
    ensures { result ≡ question_command asked }
{
    match asked {
        Some(Question::Serve(command)) => Some(command),
        _ => None,
    }
}

impl<D: Disk> Dialogue<D> {
    ghost use Rattle.std.specs.Prelude.{string_bytes};
    ghost use Rattle.im_text.specs.Printing.{Begins};
    ghost use Rattle.im_dialogue.specs.Backups.{Backup};
    ghost use Rattle.im_dialogue.specs.Serving.{PutsOut, ServesAll, TalksLine, TalksNext, TalksWithin};

    // ---- a line that is no command

    // Does what such a line asks, behind all that was asked, and tells the answer.
    fn tell<B: Backups>(&mut self, backups: &mut B, asked: Question) -> Result<bool, Reason>
        requires other { question_command (Some asked) ≡ None }
        requires line { asked_of self.old.drafts.line.items ≡ Some asked }
        requires none { self.old.front.asked ≡ [] }
        ensures talks { TalksLine (Some asked) self.old (B.kept backups.old) self.new (B.kept backups.new) result }
        ensures none { self.new.front.asked ≡ [] }
        ensures same { self.new.setting ≡ self.old.setting }
    {
        match answer(&mut self.front, backups, self.setting.slots, asked) {
            Ok(None) => Ok(false),
            Ok(Some(answer)) => match self.drafts.draft.say(self.front.memory(), answer) {
                Ok(()) => Ok(true),
                Err(_) => Err(Reason::Memory),
            },
            Err(refusal) => Err(Reason::Image(refusal, Damage::Unknown)),
        }
    }

    // Tells where a line goes wrong that isn't in the grammar. Nothing changes.
    fn tell_fault(&mut self) -> Result<bool, Reason>
        requires line { asked_of self.old.drafts.line.items ≡ None }
        requires none { self.old.front.asked ≡ [] }
        ensures talks { (kept : List Backup) → TalksLine None self.old kept self.new kept result }
        ensures none { self.new.front.asked ≡ [] }
        ensures same { self.new.setting ≡ self.old.setting }
    {
        match explain(self.alloc, self.drafts.line.as_slice()) {
            Ok(fault) => {
                let answer = wrong(&self.front, self.number, fault);
                match self.drafts.draft.say(self.front.memory(), answer) {
                    Ok(()) => Ok(true),
                    Err(_) => Err(Reason::Memory),
                }
            }
            Err(_) => Err(Reason::Memory),
        }
    }

    // Serves all that is asked, and then a line that is no command.
    fn serve_alone<B: Backups>(
        &mut self,
        backups: &mut B,
        asked: Option<Question>,
    ) -> Result<bool, Reason>
        requires other { question_command asked ≡ None }
        requires line { asked_of self.old.drafts.line.items ≡ asked }
        requires asked { AreAsked self.old.front.asked }
        ensures talks { TalksLine asked self.old (B.kept backups.old) self.new (B.kept backups.new) result }
        ensures none { OnOk result (self.new.front.asked ≡ []) }
        ensures same { self.new.setting ≡ self.old.setting }
    {
        match self.drain() {
            Ok(()) => match asked {
                Some(asked) => self.tell(backups, asked),
                None => self.tell_fault(),
            },
            Err(reason) => Err(reason),
        }
    }

    // ---- a line

    // Serves the line that was read. Returns whether the dialogue continues.
    fn serve_line<B: Backups>(&mut self, backups: &mut B) -> Result<bool, Reason>
        requires asked { AreAsked self.old.front.asked }
        ensures talks { TalksLine (asked_of self.old.drafts.line.items) self.old (B.kept backups.old)
            self.new (B.kept backups.new) result }
        ensures asked { OnOk result (AreAsked self.new.front.asked) }
        ensures none { IfOk result (λ goes_on. goes_on ≡ false → self.new.front.asked ≡ []) }
        ensures same { self.new.setting ≡ self.old.setting }
    {
        let asked = match read_asked(self.alloc, self.drafts.line.as_slice()) {
            Ok(asked) => asked,
            Err(_) => return Err(Reason::Memory),
        };
        match question_command(asked) {
            Some(command) => self.ask(&command),
            None => self.serve_alone(backups, asked),
        }
    }

    // Reads a line and serves it. Returns whether the dialogue continues. At its end nothing is asked.
    fn serve_next<B: Backups, R: BufRead>(
        &mut self,
        backups: &mut B,
        input: &mut R,
    ) -> Result<bool, Reason>
        requires asked { AreAsked self.old.front.asked }
        ensures talks { TalksNext self.old (B.kept backups.old) (R.remaining input.old)
            self.new (B.kept backups.new) (R.remaining input.new) result }
        ensures asked { OnOk result (AreAsked self.new.front.asked) }
        ensures none { IfOk result (λ goes_on. goes_on ≡ false → self.new.front.asked ≡ []) }
        ensures same { self.new.setting ≡ self.old.setting }
    {
        match next_line(input, &mut self.drafts.line, &mut self.more) {
            Ok(true) => self.serve_line(backups),
            Ok(false) => match self.drain() {
                Ok(()) => Ok(false),
                Err(reason) => Err(reason),
            },
            Err(reason) => Err(reason),
        }
    }

    // Takes turns while nothing is there to be read and there is room for less than half of what the journal holds,
    // unless a whole line is there.
    fn rest<R: BufRead + Ear>(&mut self, input: &mut R) -> Result<(), Reason>
        ensures talks { TalksWithin self.old self.new result }
        ensures asked { self.new.front.asked ≡ self.old.front.asked }
        ensures same { self.new.setting ≡ self.old.setting }
        ensures kept { R.remaining input.new ≡ R.remaining input.old }
    {
        if self.more {
            return Ok(());
        }
        let half = half_of(self.setting.slots);
        // All that was asked is answered by now, so nobody waits for these turns.
        match turn_while_quiet(&mut self.front, input, half) {
            Ok(()) => Ok(()),
            Err(refusal) => Err(Reason::Image(refusal, Damage::Unknown)),
        }
    }

    // Shows the memory to what stands beside the dialogue, unless a whole line is there.
    fn show_rest<B: Backups>(&self, backups: &mut B)
        ensures { B.kept backups.new ≡ B.kept backups.old }
    {
        if !self.more {
            backups.look_at(self.front.memory());
        }
    }

    // Rests, and serves the next line. Behind it nothing is asked, unless a whole line is there to be read.
    fn serve_rested<B: Backups, R: BufRead + Ear>(
        &mut self,
        backups: &mut B,
        input: &mut R,
    ) -> Result<bool, Reason>
        requires asked { AreAsked self.old.front.asked }
        ensures talks { TalksNext self.old (B.kept backups.old) (R.remaining input.old)
            self.new (B.kept backups.new) (R.remaining input.new) result }
        ensures asked { OnOk result (AreAsked self.new.front.asked) }
        ensures none { IfOk result (λ goes_on. goes_on ≡ false → self.new.front.asked ≡ []) }
        ensures same { self.new.setting ≡ self.old.setting }
    {
        match self.rest(input) {
            Ok(()) => {}
            Err(reason) => return Err(reason),
        }
        self.show_rest(backups);
        match self.serve_next(backups, input) {
            Ok(true) => match self.settle() {
                Ok(()) => Ok(true),
                Err(reason) => Err(reason),
            },
            Ok(false) => Ok(false),
            Err(reason) => Err(reason),
        }
    }

    // Returns whether what was told has to be put out: no whole line is there to be read, or it is much.
    fn is_due(&self) -> bool {
        !self.more || self.drafts.draft.text.len() >= MUCH
    }

    // Puts out what was told, if that is due.
    fn put_due<W: Write>(&mut self, out: &mut W) -> Result<(), Reason>
        ensures put { OnOk result (PutsOut (string_bytes self.old.drafts.draft.text)
            (string_bytes self.new.drafts.draft.text) (W.contents out.old) (W.contents out.new)) }
        ensures begins { Begins (W.contents out.old) (W.contents out.new) (string_bytes self.old.drafts.draft.text) }
        ensures front { self.new.front ≡ self.old.front }
        ensures same { self.new.setting ≡ self.old.setting }
    {
        if self.is_due() {
            self.drafts.draft.put_out(out)
        } else {
            Ok(())
        }
    }

    /// Serves a dialogue, until the input ends or `quit` is asked. Each line of the input is answered by one line, in
    /// order. The answer is written and put through after what it tells is on the disk.
    ///
    /// A line that isn't in the grammar is answered by where it goes wrong, and changes nothing. A line of more than
    /// 4,096 bytes is such a line, and no more of it is kept. An end of the input without a line feed before it is no
    /// line. What is answered is what the lines of the input ask for, all of them, or the first ones after an error.
    ///
    /// A request or confirmation is asked of the front, and served with those behind it: up to 16 as one group, if
    /// their lines follow each other in the reader's buffer. Their answers are those that the lines would have by
    /// themselves. A group ends before a confirmation that would drop an entry of which it isn't known, before the
    /// group acts, that it is answered: one that waits, or that a fetch or a take of the group makes. Any other line is
    /// answered behind all that was asked, so it ends a group. No line waits for one that isn't in the buffer.
    ///
    /// Answers are told in one text. It is written once no whole line is left in the buffer, or 64 KB are told. So many
    /// lines that only look are answered by one write.
    ///
    /// The reader tells whether something is there to be read. While nothing is, turns of a checkpoint are taken if
    /// there is room for less than half as many commands as the journal has slots.
    /// If the dialogue is watched, lines `E.N now REPLY` follow the answer to a request: one for each request that
    /// waited and is answered by it, in the order in which they came. A group then ends before a store or put of which
    /// it isn't known, before the group acts, whom it answers.
    /// A backup is kept of the memory after all commands before its line. Its answer is written once it is kept.
    /// A refusal is an answer, except for `Device` and `Failed`, which say that a call of the disk failed. They end the
    /// dialogue, as do an input that can't be read, an output that can't be written, and want of memory. What was
    /// printed is then a prefix of the answers. Each command that was answered is in every file that a crash leaves.
    /// The commands of a group that wasn't answered are there all together or not at all.
    pub fn serve_lines<B: Backups, R: BufRead + Ear, W: Write>(
        &mut self,
        backups: &mut B,
        input: &mut R,
        out: &mut W,
    ) -> Result<(), Reason>
        requires asked { self.old.front.asked ≡ [] }
        requires told { string_bytes self.old.drafts.draft.text ≡ [] }
        ensures talks { ServesAll self.old (outputs (W.contents out.old) (B.kept backups.old)) (R.remaining input.old)
            self.new (outputs (W.contents out.new) (B.kept backups.new)) (R.remaining input.new) result }
        ensures same { self.new.setting ≡ self.old.setting }
    {
        for _served in 0..u64::MAX {
            match self.serve_rested(backups, input) {
                Ok(true) => {}
                Ok(false) => return self.drafts.draft.put_out(out),
                Err(reason) => {
                    let _put = self.drafts.draft.put_out(out); // What was told before it.
                    return Err(reason);
                }
            }
            self.number = self.number.saturating_add(1);
            match self.put_due(out) {
                Ok(()) => {}
                Err(reason) => return Err(reason),
            }
        }
        Err(unread(ErrorKind::FileTooLarge)) // No input has so many lines.
    }
}
