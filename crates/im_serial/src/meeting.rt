//! Prints what an image has of a script's requests.
ghost use Rattle.std.specs.Prelude.{◌≡◌, ℕ, ◌+◌, true, false, not, [], ◌∷◌, ◌++◌, length, IfOk, OnOk, slice_get, Some};
ghost use Rattle.std.specs.Prelude.{None};
ghost use Rattle.im_types.specs.Types.{Waiter, Kept, kept_for};
ghost use Rattle.im_serial.specs.{Asked.Wanted, Asked.wanted_by, Asked.wanted_of, Had.has_next, Had.met, Had.who_next};
ghost use Rattle.im_serial.specs.{Noted.mark_place, Noted.MarksWaiting, Noted.NotesMore, Serving.seen_by};
ghost use Rattle.im_serial.specs.Once.{HasPassed, is_had, IsMade, MakesBlocks, met_of, Names, noted_of, past_line};
ghost use Rattle.im_serial.specs.Once.{TellsPast};

use crate::hearing::hear;
use crate::past::Past;
use crate::server::Server;
use im_disk::Disk;
use im_script::{Allocation, Reader, Said, Script, ScriptFault, ScriptLine, split_line};
use im_text::Reason;
use im_types::{Entry, Reply};
use std::alloc::Global;
use std::io::Write;

/// What an image has of a request.
#[derive(Clone, Copy, Debug, PartialEq, Eq)]
pub enum Met {
    /// Nothing.
    New,
    /// It was confirmed.
    Done,
    /// Its entry.
    Kept(Entry),
}

// Whether an image has nothing of it.
fn is_new(met: Met) -> bool
    ensures { is_had met ≡ not result }
{
    match met {
        Met::New => true,
        Met::Done => false,
        Met::Kept(_) => false,
    }
}

// Whether a name can stand for the block that a request made.
fn is_made(met: Met) -> bool
    ensures { result ≡ true → IsMade met }
{
    match met {
        Met::New => false,
        Met::Done => true,
        Met::Kept(entry) => matches!(entry, Entry::Answered(Reply::Base(_))),
    }
}

// Keeps the base of a block of the setup, if the image has it.
fn name_past(
    bases: &mut Vec<u32>,
    past: &mut Past,
    block: Allocation,
    met: Met,
) -> Result<(), Reason>
    ensures many { past.new.many.items ≡ past.old.many.items }
    ensures new { OnOk result (is_had met ≡ false → (bases.new.items ≡ bases.old.items)
        × (past.new.end ≡ past.old.end)) }
    ensures had { OnOk result (is_had met ≡ true → (bases.new.items ≡ bases.old.items ++ past.old.end ∷ [])
        × (past.new.end ≡ past.old.end + block.length)) }
    ensures made { OnOk result (is_had met ≡ true → IsMade met) }
{
    if is_new(met) {
        return Ok(());
    }
    if !is_made(met) {
        return Err(Reason::Block(bases.len().saturating_add(1)));
    }
    let Some(base) = past.place(block.length) else {
        return Err(Reason::Block(bases.len().saturating_add(1)));
    };
    match bases.push(base) {
        Ok(()) => Ok(()),
        Err(_) => Err(Reason::Memory),
    }
}

impl<D: Disk> Server<D> {
    // Prints what the image has of a request, and notes the request if it waits.
    fn tell_past<W: Write>(&mut self, who: (u16, u64), out: &mut W) -> Result<Met, Reason>
        ensures session { self.new.session ≡ self.old.session }
        ensures bases { self.new.bases.items ≡ self.old.bases.items }
        ensures found { let who : Waiter = record { element = who.0; number = who.1 } in
            IfOk result (λ it. it ≡ met_of self.old.session.engine.memory who) }
        ensures pushed { let who : Waiter = record { element = who.0; number = who.1 } in
            NotesMore result self.old.waited.items self.new.waited.items (noted_of self.old.session.engine.memory who) }
        ensures mark { let who : Waiter = record { element = who.0; number = who.1 } in OnOk result
            (MarksWaiting self.old.session.engine.memory who self.new.places.marks.items
            (length self.old.waited.items)) }
        ensures others { let at = mark_place (record { element = who.0; number = who.1 }) in (i : ℕ) → (i ≡ at → ⊥)
            → slice_get self.new.places.marks.items i ≡ slice_get self.old.places.marks.items i }
        ensures unmarked { kept_for self.old.session.engine.memory.windows
            (record { element = who.0; number = who.1 }) ≡ None
            → self.new.places.marks.items ≡ self.old.places.marks.items }
        ensures more { let line = past_line self.old.session.engine.memory
            (record { element = who.0; number = who.1 }) in
            TellsPast result (W.contents out.old) self.old.lines (W.contents out.new) self.new.lines line }
    {
        match self.session.memory().kept(who.0, who.1) {
            Some(kept) => match self.print(who, kept.entry, out) {
                Ok(()) => match self.note(who, kept.entry) {
                    Ok(()) => Ok(Met::Kept(kept.entry)),
                    Err(reason) => Err(reason),
                },
                Err(reason) => Err(reason),
            },
            None => match self.print_done(who, out) {
                Ok(()) => Ok(Met::Done),
                Err(reason) => Err(reason),
            },
        }
    }

    // Meets an element's next request.
    fn meet<W: Write>(&mut self, element: u16, past: &mut Past, out: &mut W) -> Result<Met, Reason>
        ensures session { self.new.session ≡ self.old.session }
        ensures bases { self.new.bases.items ≡ self.old.bases.items }
        ensures end { past.new.end ≡ past.old.end }
        ensures many { past.new.many.items ≡ met past.old.many.items element }
        ensures had { IfOk result (λ it. is_had it ≡ has_next past.old.many.items element) }
        ensures found { let who = who_next self.old.session.engine.memory past.old.many.items element in
            IfOk result (λ it. is_had it ≡ true → it ≡ met_of self.old.session.engine.memory who) }
        ensures passed { (w : Wanted) → w.element ≡ element
            → HasPassed past.old.many.items (w ∷ []) past.new.many.items result
            (seen_by self.old (W.contents out.old)) (seen_by self.new (W.contents out.new)) }
    {
        let left = past.meet(element);
        if left == 0 {
            return Ok(Met::New);
        }
        match self.session.memory().window(element) {
            Ok((_base, next)) => {
                let number = next.saturating_sub(left);
                self.tell_past((element, number), out)
            }
            Err(refusal) => Err(Reason::Request(element, refusal)),
        }
    }

    // Meets a block of the setup. Keeps its base if the image has it.
    fn meet_block<W: Write>(
        &mut self,
        block: Allocation,
        past: &mut Past,
        out: &mut W,
    ) -> Result<(), Reason>
        ensures session { self.new.session ≡ self.old.session }
        ensures names { OnOk result (Names past.old.many.items past.old.end (wanted_by (Said.Block block))
            past.new.many.items past.new.end [] self.old.bases.items self.new.bases.items) }
        ensures made { OnOk result (MakesBlocks self.old.session.engine.memory past.old.many.items
            (wanted_by (Said.Block block)) past.new.many.items []) }
        ensures passed { HasPassed past.old.many.items (wanted_by (Said.Block block)) past.new.many.items result
            (seen_by self.old (W.contents out.old)) (seen_by self.new (W.contents out.new)) }
    {
        let met = match self.meet(0, past, out) {
            Ok(met) => met,
            Err(reason) => return Err(reason),
        };
        name_past(&mut self.bases, past, block, met)
    }

    // Meets a request of a part.
    fn meet_line<W: Write>(
        &mut self,
        line: ScriptLine,
        past: &mut Past,
        out: &mut W,
    ) -> Result<(), Reason>
        ensures session { self.new.session ≡ self.old.session }
        ensures names { OnOk result (Names past.old.many.items past.old.end (wanted_by (Said.Asks line))
            past.new.many.items past.new.end [] self.old.bases.items self.new.bases.items) }
        ensures made { OnOk result (MakesBlocks self.old.session.engine.memory past.old.many.items
            (wanted_by (Said.Asks line))
            past.new.many.items []) }
        ensures passed { HasPassed past.old.many.items (wanted_by (Said.Asks line)) past.new.many.items result
            (seen_by self.old (W.contents out.old)) (seen_by self.new (W.contents out.new)) }
    {
        match self.meet(line.element, past, out) {
            Ok(_met) => Ok(()),
            Err(reason) => Err(reason),
        }
    }

    // Meets what a line says.
    fn meet_said<W: Write>(
        &mut self,
        said: Said,
        past: &mut Past,
        out: &mut W,
    ) -> Result<(), Reason>
        ensures session { self.new.session ≡ self.old.session }
        ensures names { OnOk result (Names past.old.many.items past.old.end (wanted_by said)
            past.new.many.items past.new.end [] self.old.bases.items self.new.bases.items) }
        ensures made { OnOk result (MakesBlocks self.old.session.engine.memory past.old.many.items (wanted_by said)
            past.new.many.items []) }
        ensures passed { HasPassed past.old.many.items (wanted_by said) past.new.many.items result
            (seen_by self.old (W.contents out.old)) (seen_by self.new (W.contents out.new)) }
    {
        match said {
            Said::Nothing => Ok(()),
            Said::Begins(_element) => Ok(()),
            Said::Block(block) => self.meet_block(block, past, out),
            Said::Asks(line) => self.meet_line(line, past, out),
        }
    }

    // Prints what the image has of a script, line by line.
    pub(crate) fn meet_all<W: Write>(
        &mut self,
        alloc: Global,
        script: &Script<'_>,
        past: &mut Past,
        out: &mut W,
    ) -> Result<(), Reason>
        ensures session { self.new.session ≡ self.old.session }
        ensures names { OnOk result (Names past.old.many.items past.old.end (wanted_of script.now)
            past.new.many.items past.new.end [] self.old.bases.items self.new.bases.items) }
        ensures made { OnOk result (MakesBlocks self.old.session.engine.memory past.old.many.items
            (wanted_of script.now)
            past.new.many.items []) }
        ensures passed { HasPassed past.old.many.items (wanted_of script.now) past.new.many.items result
            (seen_by self.old (W.contents out.old)) (seen_by self.new (W.contents out.new)) }
    {
        let mut reader = Reader::new(alloc);
        let mut rest = Some(script.text());
        for number in 1..usize::MAX {
            let text = match rest {
                Some(text) => text,
                None => return Ok(()),
            };
            let (line, behind) = split_line(text);
            rest = behind;
            let said = match hear(&mut reader, alloc, number, line) {
                Ok(said) => said,
                Err(fault) => return Err(Reason::Script(fault)), // There was no memory for it.
            };
            match self.meet_said(said, past, out) {
                Ok(()) => {}
                Err(reason) => return Err(reason),
            }
        }
        Err(Reason::Script(ScriptFault::TooLarge)) // No script has so many lines.
    }
}
