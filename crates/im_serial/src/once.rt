//! A script's requests, each served once, whatever stopped before.
ghost use Rattle.std.specs.Prelude.{◌≡◌};
ghost use Rattle.im_serial.specs.{Asked.wanted_by, Asked.wanted_of, Had.met_all, Had.news, Once.FitsOrStays};
ghost use Rattle.im_serial.specs.{Once.HasServedOnce, Once.ShowsOrBreaks, Serving.seen_by, Serving.ServedBy};

use crate::comparing::compare_script;
use crate::hearing::hear;
use crate::past::Past;
use crate::server::Server;
use im_disk::Disk;
use im_script::{Reader, Said, Script, ScriptFault, split_line};
use im_text::{News, Reason};
use im_types::Observer;
use std::alloc::Global;
use std::io::Write;

impl<D: Disk> Server<D> {
    // Serves what a line says, if the image doesn't have it.
    fn serve_new<W: Write, N: Observer<News>>(
        &mut self,
        said: Said,
        past: &mut Past,
        out: &mut W,
        observer: &mut N,
    ) -> Result<(), Reason>
        ensures many { past.new.many.items ≡ met_all past.old.many.items (wanted_by said) }
        ensures served { ServedBy (news past.old.many.items (wanted_by said)) result self.old
            (W.contents out.old) self.new (W.contents out.new) }
    {
        if past.has(said) {
            Ok(())
        } else {
            self.serve_and_show(said, out, observer)
        }
    }

    // Serves what the image doesn't have of a script, line by line, until a request is refused.
    fn serve_rest<W: Write, N: Observer<News>>(
        &mut self,
        alloc: Global,
        script: &Script<'_>,
        past: &mut Past,
        out: &mut W,
        observer: &mut N,
    ) -> Result<(), Reason>
        ensures served { ServedBy (news past.old.many.items (wanted_of script.now)) result self.old
            (W.contents out.old) self.new (W.contents out.new) }
    {
        let mut reader = Reader::new(alloc);
        let mut rest = Some(script.text());
        for number in 1..usize::MAX {
            let text = match rest {
                Some(text) => text,
                None => return Ok(()),
            };
            let (line, behind) = split_line(text);
            rest = behind;
            let said = match hear(&mut reader, alloc, number, line) {
                Ok(said) => said,
                Err(fault) => return Err(Reason::Script(fault)), // There was no memory for it.
            };
            match self.serve_new(said, past, out, observer) {
                Ok(()) => {}
                Err(reason) => return Err(reason),
            }
        }
        Err(Reason::Script(ScriptFault::TooLarge)) // No script has so many lines.
    }

    /// Compares a script with what the image has of it, and prints that. Writes it out, so that nothing is kept back
    /// before the first request. Nothing is served.
    ///
    /// It is refused, with nothing printed, if another script used the image, as [`serial_once_on`] says; with `Block`
    /// if a block of the setup wasn't made; with `Memory`, or because a write of the output failed.
    pub fn show_past<W: Write>(
        &mut self,
        alloc: Global,
        script: &Script<'_>,
        out: &mut W,
    ) -> Result<(), Reason>
        ensures shown { ShowsOrBreaks result (wanted_of script.now) self.old.bases.items self.new.bases.items
            (seen_by self.old (W.contents out.old)) (seen_by self.new (W.contents out.new)) }
        ensures session { self.new.session ≡ self.old.session }
        ensures fit { FitsOrStays result (wanted_of script.now)
            (seen_by self.old (W.contents out.old)) (seen_by self.new (W.contents out.new)) }
    {
        self.earlier.clear();
        match compare_script(alloc, self.session.memory(), script) {
            Ok(()) => {}
            Err(reason) => return Err(reason),
        }
        let mut past = match Past::new(alloc, self.session.memory()) {
            Ok(past) => past,
            Err(_) => return Err(Reason::Memory),
        };
        match self.meet_all(alloc, script, &mut past, out) {
            Ok(()) => self.lines.flush(out),
            Err(reason) => Err(reason),
        }
    }

    // Prints what the image has of a script, and then serves the rest of it, until a request is refused.
    pub(crate) fn serve_once<W: Write, N: Observer<News>>(
        &mut self,
        alloc: Global,
        script: &Script<'_>,
        out: &mut W,
        observer: &mut N,
    ) -> Result<(), Reason>
        ensures served { HasServedOnce (wanted_of script.now) self.old.bases.items result
            (seen_by self.old (W.contents out.old)) (seen_by self.new (W.contents out.new)) }
    {
        match self.show_past(alloc, script, out) {
            Ok(()) => {}
            Err(reason) => return Err(reason),
        }
        let mut past = match Past::new(alloc, self.session.memory()) {
            Ok(past) => past,
            Err(_) => return Err(Reason::Memory),
        };
        self.serve_rest(alloc, script, &mut past, out, observer)
    }
}
