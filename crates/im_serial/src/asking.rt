//! A server's requests, one after another: room is made for each, it is asked, and its line is printed.
ghost use Rattle.std.specs.Prelude.{◌≡◌, ℕ, [], ◌∷◌, ◌++◌, IfOk, OnOk, Ok};
ghost use Rattle.im_types.specs.Types.{bounds};
ghost use Rattle.im_asks.specs.{declared.WindowPlace.TheVariants.Confirm as DueTo, Windows.IsWindowPlace};
ghost use Rattle.im_serial.specs.{Asked.wanted_by, Asked.wanted_of, Had.left_of, Named.AreNamed};
ghost use Rattle.im_serial.specs.Serving.{HasAsked, MakesPlace, seen_by, ServedBy};

use crate::hearing::hear;
use crate::room::{next_number, reason_of, serve_one};
use crate::server::Server;
use crate::waits::learn;
use im_asks::{WindowPlace, next_place};
use im_disk::Disk;
use im_script::{Allocation, Reader, Said, Script, ScriptFault, ScriptLine, split_line};
use im_text::{News, Progress, Reason};
use im_types::{Command, Entry, Observer, Op, Outcome, Refusal, Reply, Request};
use std::alloc::Global;
use std::io::Write;

impl<D: Disk> Server<D> {
    // Learns an element's answers within these numbers, which are due to be confirmed, names those of earlier scripts,
    // and confirms them.
    fn make_place<N: Observer<News>>(
        &mut self,
        element: u16,
        numbers: (u64, u64),
        observer: &mut N,
    ) -> Result<Outcome, Refusal>
        requires due { IsWindowPlace self.old.session.engine.memory element (DueTo numbers.0 numbers.1) }
        ensures goes { MakesPlace result self.old.session self.old.waited.items self.old.places.marks.items
            self.new.session self.new.waited.items self.new.places.marks.items }
        ensures lines { self.new.lines ≡ self.old.lines }
        ensures bases { self.new.bases.items ≡ self.old.bases.items }
        ensures named { AreNamed self.old.session.engine.memory (left_of self.old.earlier.last.items element) element
            numbers.0 numbers.1 self.new.earlier.named }
    {
        let (base, upto) = numbers;
        learn(
            self.waited.as_mut_slice(),
            &mut self.places,
            self.session.memory(),
            (element, base, upto),
        );
        self.earlier
            .name_all(self.session.memory(), (element, base, upto), observer);
        serve_one(
            &mut self.session,
            &mut self.progress,
            &Command::Confirm { element, upto },
        )
    }

    // Returns the number of an element's next request. If its window is full, and only then, confirms its entries
    // before the first that isn't answered yet. Those of earlier scripts are named before.
    fn number<N: Observer<News>>(&mut self, element: u16, observer: &mut N) -> Result<u64, Refusal>
        ensures goes { MakesPlace result self.old.session self.old.waited.items self.old.places.marks.items
            self.new.session self.new.waited.items self.new.places.marks.items }
        ensures next { IfOk result (λ next. (base : ℕ)
            × (bounds self.new.session.engine.memory.windows element ≡ Ok (base, next))) }
        ensures lines { self.new.lines ≡ self.old.lines }
        ensures bases { self.new.bases.items ≡ self.old.bases.items }
    {
        match next_place(self.session.memory(), element) {
            Ok(WindowPlace::Next(number)) => Ok(number),
            Ok(WindowPlace::Confirm { base, upto }) => {
                match self.make_place(element, (base, upto), observer) {
                    Ok(_outcome) => next_number(self.session.engine(), element),
                    Err(refusal) => Err(refusal),
                }
            }
            Ok(WindowPlace::Full) => Err(Refusal::WindowFull),
            Err(refusal) => Err(refusal),
        }
    }

    // Serves an element's request, which has its next number, and prints what is kept for it.
    fn ask<W: Write>(&mut self, request: Request, out: &mut W) -> Result<Entry, Reason>
        requires next { (base : ℕ)
            × (bounds self.old.session.engine.memory.windows request.element ≡ Ok (base, request.number)) }
        ensures serves { HasAsked request.element request.op result
            (seen_by self.old (W.contents out.old)) (seen_by self.new (W.contents out.new)) }
        ensures bases { self.new.bases.items ≡ self.old.bases.items }
    {
        let who = (request.element, request.number);
        match serve_one(
            &mut self.session,
            &mut self.progress,
            &Command::Request(request),
        ) {
            Ok(Outcome::Entry(entry)) => match self.print(who, entry, out) {
                Ok(()) => match self.note(who, entry) {
                    Ok(()) => Ok(entry),
                    Err(reason) => Err(reason),
                },
                Err(reason) => Err(reason),
            },
            Ok(Outcome::Confirmed) => Err(Reason::Request(who.0, Refusal::Failed)), // No request is answered so.
            Err(refusal) => Err(reason_of(self.session.engine(), who.0, refusal)),
        }
    }

    // Serves an element's next request, and prints what is kept for it.
    fn request<W: Write, N: Observer<News>>(
        &mut self,
        element: u16,
        op: Op,
        out: &mut W,
        observer: &mut N,
    ) -> Result<Entry, Reason>
        ensures serves { HasAsked element op result
            (seen_by self.old (W.contents out.old)) (seen_by self.new (W.contents out.new)) }
        ensures bases { self.new.bases.items ≡ self.old.bases.items }
    {
        match self.number(element, observer) {
            Ok(number) => {
                follow(
                    &mut self.progress.told,
                    self.session.engine().room(),
                    observer,
                );
                let request = Request {
                    element,
                    number,
                    op,
                };
                self.ask(request, out)
            }
            Err(refusal) => Err(reason_of(self.session.engine(), element, refusal)),
        }
    }

    /// Makes a block of the setup, prints its answer, and keeps its base. If element 0's window is full, its entries
    /// before the first that still waits are confirmed first. Turns of a checkpoint are taken while there is no room
    /// for a command. An accepted command is on the disk before its line is kept for printing.
    ///
    /// The block is element 0's next request, and the base that is kept is the one in its answer.
    ///
    /// It is refused with what the engine refuses, with `Block` if the block isn't made, with `Memory`, or because a
    /// write of the output failed.
    pub fn make_block<W: Write, N: Observer<News>>(
        &mut self,
        block: Allocation,
        out: &mut W,
        observer: &mut N,
    ) -> Result<(), Reason>
        ensures served { ServedBy (wanted_by (Said.Block block)) result self.old (W.contents out.old) self.new
            (W.contents out.new) }
        ensures named { OnOk result ((base : ℕ) × (self.new.bases.items ≡ self.old.bases.items ++ base ∷ [])) }
    {
        let entry = match self.request(0, Op::Alloc(block.kind, block.length), out, observer) {
            Ok(entry) => entry,
            Err(reason) => return Err(reason),
        };
        let Entry::Answered(Reply::Base(base)) = entry else {
            return Err(Reason::Block(self.bases.len().saturating_add(1)));
        };
        match self.bases.push(base) {
            Ok(()) => Ok(()),
            Err(_) => Err(Reason::Memory),
        }
    }

    // Serves a request of a part.
    fn serve_line<W: Write, N: Observer<News>>(
        &mut self,
        line: ScriptLine,
        out: &mut W,
        observer: &mut N,
    ) -> Result<(), Reason>
        ensures served { ServedBy (wanted_by (Said.Asks line)) result self.old (W.contents out.old) self.new
            (W.contents out.new) }
    {
        let Some(op) = line.action.op(self.bases.as_slice()) else {
            return Err(Reason::Place(line.element));
        };
        match self.request(line.element, op, out, observer) {
            Ok(_entry) => Ok(()),
            Err(reason) => Err(reason),
        }
    }

    // Serves what a line says.
    fn serve_said<W: Write, N: Observer<News>>(
        &mut self,
        said: Said,
        out: &mut W,
        observer: &mut N,
    ) -> Result<(), Reason>
        ensures served { ServedBy (wanted_by said) result self.old (W.contents out.old) self.new
            (W.contents out.new) }
    {
        match said {
            Said::Nothing => Ok(()),
            Said::Begins(_element) => Ok(()),
            Said::Block(block) => self.make_block(block, out, observer),
            Said::Asks(line) => self.serve_line(line, out, observer),
        }
    }

    // Serves what a line says, and writes it if that is wanted.
    pub(crate) fn serve_and_show<W: Write, N: Observer<News>>(
        &mut self,
        said: Said,
        out: &mut W,
        observer: &mut N,
    ) -> Result<(), Reason>
        ensures served { ServedBy (wanted_by said) result self.old (W.contents out.old) self.new
            (W.contents out.new) }
    {
        match self.serve_said(said, out, observer) {
            Ok(()) => self.show(out, observer),
            Err(reason) => Err(reason),
        }
    }

    // Serves the script line by line as it is read, until a request is refused.
    pub(crate) fn serve<W: Write, N: Observer<News>>(
        &mut self,
        alloc: Global,
        script: &Script<'_>,
        out: &mut W,
        observer: &mut N,
    ) -> Result<(), Reason>
        ensures served { ServedBy (wanted_of script.now) result self.old (W.contents out.old) self.new
            (W.contents out.new) }
    {
        let mut reader = Reader::new(alloc);
        let mut rest = Some(script.text());
        for number in 1..usize::MAX {
            let text = match rest {
                Some(text) => text,
                None => return Ok(()),
            };
            let (line, behind) = split_line(text);
            rest = behind;
            let said = match hear(&mut reader, alloc, number, line) {
                Ok(said) => said,
                Err(fault) => return Err(Reason::Script(fault)), // There was no memory for it.
            };
            match self.serve_and_show(said, out, observer) {
                Ok(()) => {}
                Err(reason) => return Err(reason),
            }
        }
        Err(Reason::Script(ScriptFault::TooLarge)) // No script has so many lines.
    }
}

// Tells the observer the progress, before one more request.
fn follow<N: Observer<News>>(progress: &mut Progress, room: u32, observer: &mut N) {
    progress.room = room;
    observer.tell(News::Progressed(*progress));
    progress.served = progress.served.saturating_add(1);
}
