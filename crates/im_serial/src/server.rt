//! A session that serves requests one after another, and prints their lines.
ghost use Rattle.std.specs.Prelude.{◌≡◌, ℕ, false, List, [], map, length, IfOk, OnOk, slice_get, Some};
ghost use Rattle.im_types.specs.Types.{Waiter, Waiting, Command, Contents, IsMemory, after};
ghost use Rattle.im_text.specs.Said.{answered_now, nows, PrintsMore, PrintsNows, Pushes, replied, who_of};
ghost use Rattle.im_serial.specs.{declared.waits.Mark.TheVariants.Here, Once.done_line, Serving.ServedBy};
ghost use Rattle.im_serial.specs.Noted.{AreKnown, AreLast, mark_place, noted_if, NotesMore};

use crate::naming::Earlier;
use crate::notes::WaitNote;
use crate::room::ServerProgress;
use crate::waits::{Places, learn_all, note, tell_earlier, waited_at};
use im_disk::Disk;
use im_session::Session;
use im_text::{Lines, News, OutputLine, Progress, Reason, Style, Waited};
use im_types::{Entry, Observer};
use std::alloc::{AllocError, Global};
use std::io::Write;

/// The room that serving takes, besides the engine.
#[derive(Drop)]
pub struct Desk {
    places: Places,
    earlier: Earlier,
    /// The lines that are printed.
    pub lines: Lines,
}

impl Desk {
    /// Takes all room that serving needs, except for the list of the requests that have to wait. Lines will be said in
    /// this style.
    pub fn new(alloc: Global, style: Style) -> Result<Desk, AllocError>
        ensures pending { IfOk result (λ desk. desk.lines.batch.pending.items ≡ []) }
        ensures style { IfOk result (λ desk. desk.lines.style ≡ style) }
        ensures faulted { IfOk result (λ desk. desk.lines.faulted ≡ false) }
    {
        Ok(Desk {
            places: Places::new(alloc)?,
            earlier: Earlier::new(alloc)?,
            lines: Lines::new(alloc, style)?,
        })
    }
}

/// A session that serves requests, and what is printed and noted of them.
#[derive(Drop)]
pub struct Server<D: Disk> {
    /// The session.
    pub session: Session<D>,
    /// The base of each block of the setup.
    pub bases: Vec<u32>,
    /// The requests that had to wait, in order.
    pub waited: Vec<WaitNote>,
    /// The lines that are printed.
    pub lines: Lines,
    // The place of each request that had to wait, while it is kept.
    pub(crate) places: Places,
    // What earlier scripts left.
    pub(crate) earlier: Earlier,
    pub(crate) progress: ServerProgress,
}

impl<D: Disk> Server<D> {
    /// Makes a server over a session. It has served nothing yet, and marks the requests that already wait.
    pub fn new(alloc: Global, session: Session<D>, desk: Desk) -> Server<D>
        ensures session { result.session ≡ session }
        ensures lines { result.lines ≡ desk.lines }
        ensures waited { result.waited.items ≡ [] }
        ensures bases { result.bases.items ≡ [] }
        ensures memory { let m = session.engine.memory in IsMemory (length m.cells) (length m.windows) m }
    {
        let Desk {
            mut places,
            mut earlier,
            lines,
        } = desk;
        places.mark_earlier(session.memory());
        earlier.find(session.memory());
        Server {
            session,
            bases: Vec::new(alloc),
            waited: Vec::new(alloc),
            lines,
            places,
            earlier,
            progress: ServerProgress {
                told: Progress {
                    served: 0,
                    room: 0,
                    checkpoints: 0,
                },
            },
        }
    }

    /// Returns the session, and the lines on their way to the writer.
    pub fn leave(self) -> (Session<D>, Lines)
        ensures session { result.0 ≡ self.session }
        ensures lines { result.1 ≡ self.lines }
    {
        let Server {
            session,
            bases: _,
            waited: _,
            lines,
            places: _,
            earlier: _,
            progress: _,
        } = self;
        (session, lines)
    }

    // Prints a request's entry.
    pub(crate) fn print<W: Write>(
        &mut self,
        who: (u16, u64),
        entry: Entry,
        out: &mut W,
    ) -> Result<(), Reason>
        ensures session { self.new.session ≡ self.old.session }
        ensures names { self.new.waited.items ≡ self.old.waited.items }
        ensures marks { self.new.places.marks.items ≡ self.old.places.marks.items }
        ensures bases { self.new.bases.items ≡ self.old.bases.items }
        ensures more { Pushes result (W.contents out.old) self.old.lines (W.contents out.new) self.new.lines
            (replied who.0 who.1 entry) }
    {
        let (element, number) = who;
        let reply = Waited {
            element,
            number,
            entry,
        };
        self.lines.push(out, OutputLine::Reply(reply))
    }

    // Notes a request that has to wait.
    pub(crate) fn note(&mut self, who: (u16, u64), entry: Entry) -> Result<(), Reason>
        ensures session { self.new.session ≡ self.old.session }
        ensures lines { self.new.lines ≡ self.old.lines }
        ensures bases { self.new.bases.items ≡ self.old.bases.items }
        ensures pushed { let who : Waiter = record { element = who.0; number = who.1 } in
            NotesMore result self.old.waited.items self.new.waited.items (noted_if who entry) }
        ensures mark { let at = mark_place (record { element = who.0; number = who.1 }) in OnOk result (entry ≡ Waiting
            → slice_get self.new.places.marks.items at ≡ Some (Here (length self.old.waited.items))) }
        ensures others { let at = mark_place (record { element = who.0; number = who.1 }) in (i : ℕ) → (i ≡ at → ⊥)
            → slice_get self.new.places.marks.items i ≡ slice_get self.old.places.marks.items i }
    {
        match note(&mut self.waited, &mut self.places, who, entry) {
            Ok(()) => Ok(()),
            Err(_) => Err(Reason::Memory),
        }
    }

    // Prints that a request is done.
    pub(crate) fn print_done<W: Write>(
        &mut self,
        who: (u16, u64),
        out: &mut W,
    ) -> Result<(), Reason>
        ensures session { self.new.session ≡ self.old.session }
        ensures names { self.new.waited.items ≡ self.old.waited.items }
        ensures marks { self.new.places.marks.items ≡ self.old.places.marks.items }
        ensures bases { self.new.bases.items ≡ self.old.bases.items }
        ensures more { Pushes result (W.contents out.old) self.old.lines (W.contents out.new) self.new.lines
            (done_line (record { element = who.0; number = who.1 })) }
    {
        self.lines.push(out, OutputLine::Done(who.0, who.1))
    }

    // Writes what is kept back, if each line is wanted as soon as it is true.
    pub(crate) fn show<W: Write, N: Observer<News>>(
        &mut self,
        out: &mut W,
        observer: &mut N,
    ) -> Result<(), Reason>
        ensures served { ServedBy [] result self.old (W.contents out.old) self.new (W.contents out.new) }
    {
        if observer.listens() {
            self.lines.flush(out)
        } else {
            Ok(())
        }
    }

    // Learns what is kept at the end for the requests that had to wait, and tells the observer about those that waited
    // before.
    pub(crate) fn learn_all<N: Observer<News>>(&mut self, observer: &mut N)
        ensures session { self.new.session ≡ self.old.session }
        ensures lines { self.new.lines ≡ self.old.lines }
        ensures names { map who_of self.new.waited.items ≡ map who_of self.old.waited.items }
        ensures last { (m : Contents) (put : List Command) → self.old.session.engine.memory ≡ after m put
            → AreKnown m put self.old.waited.items → AreLast m put self.new.waited.items }
    {
        learn_all(self.waited.as_mut_slice(), self.session.memory());
        tell_earlier(&mut self.places, self.session.memory(), observer);
    }

    // Prints what became of the requests that had to wait.
    pub(crate) fn tell<W: Write>(&mut self, out: &mut W) -> Result<(), Reason>
        ensures session { self.new.session ≡ self.old.session }
        ensures waited { self.new.waited ≡ self.old.waited }
        ensures all { OnOk result (PrintsMore (W.contents out.old) self.old.lines (W.contents out.new) self.new.lines
            (nows self.old.waited.items (length self.old.waited.items))) }
        ensures some { PrintsNows (W.contents out.old) self.old.lines (W.contents out.new) self.new.lines
            self.old.waited.items }
    {
        print_nows(self.waited.as_slice(), &mut self.lines, out)
    }
}

// Prints what became of the requests that had to wait.
fn print_nows<W: Write>(waited: &[WaitNote], lines: &mut Lines, out: &mut W) -> Result<(), Reason>
    ensures all { OnOk result (PrintsMore (W.contents out.old) lines.old (W.contents out.new) lines.new
        (nows waited.now (length waited.now))) }
    ensures some { PrintsNows (W.contents out.old) lines.old (W.contents out.new) lines.new waited.now }
{
    for at in 0..waited.len() {
        push_now(waited_at(waited, at), lines, out)?;
    }
    Ok(())
}

// Prints what became of a request that had to wait.
fn push_now<W: Write>(waited: Option<Waited>, lines: &mut Lines, out: &mut W) -> Result<(), Reason>
    ensures more { Pushes result (W.contents out.old) lines.old (W.contents out.new) lines.new (answered_now waited) }
{
    match waited {
        Some(waited) => lines.push(out, OutputLine::Now(waited)),
        None => Ok(()),
    }
}
