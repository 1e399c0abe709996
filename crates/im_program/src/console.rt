//! What the program prints for a person on standard error.

use crate::advice::{begins_as_image, is_of_call, print_advised, serves};
use crate::descriptors::Descriptors;
use crate::loading::LoadFault;
use crate::opening::call_of;
use crate::shown::{EscapedName, folder_of, input_or, paths_of};
use crate::watching::{print_answer, print_confirmed};
use im_disk::Failure;
use im_files::Noting;
use im_migration::MoveNews;
use im_text::{News, PathFault, Progress, Reason};
use im_types::{Observer, Refusal};
use im_words::CommandLine;
use std::fmt::Display;
use std::fs::File;
use std::io::Eprint;
use std::rt::Files;

// The number of requests served between two lines of progress.
const STRIDE: u64 = 4_096;

// The number of pages and slots of a new file that are written between two lines of progress.
const WRITES: u64 = 1_024;

/// Which of the standard streams are terminals.
#[derive(Clone, Copy, Debug, PartialEq, Eq)]
pub struct Terminals {
    /// Standard input: the program may ask a person.
    pub input: bool,
    /// Standard output: a person waits for each line.
    pub output: bool,
    /// Standard error: a person watches.
    pub errors: bool,
}

/// Prints on standard error what happens to the files of one piece of work.
#[derive(Drop)]
pub struct Console<'a, R> {
    rt: &'a R,
    held: &'a Descriptors,
    image: &'a str,
    // The second file: a script, or a new file. The first one is then the old file, or the text that is loaded.
    script: &'a str,
    terminals: Terminals,
    is_watched: bool,
    serves: bool,
    // The last refusal, and whether its line waits until the disk says which call failed.
    refused: Option<Reason>,
    waits: bool,
}

impl<'a, R: Files<File = File> + Eprint + AllocGlobal> Console<'a, R> {
    /// Makes the console for the files of a command line's work.
    pub fn new(
        rt: &'a R,
        held: &'a Descriptors,
        line: &CommandLine<'a>,
        terminals: Terminals,
    ) -> Console<'a, R> {
        let (image, script) = paths_of(&line.work);
        Console {
            rt,
            held,
            image,
            script,
            terminals,
            is_watched: terminals.errors || line.progress,
            serves: serves(&line.work),
            refused: None,
            waits: false,
        }
    }

    /// Returns the reason of the last refusal, if there was one.
    pub fn reason(&self) -> Option<Reason> {
        self.refused
    }

    /// Whether a person watches standard error, or progress is asked for.
    pub(crate) fn is_watched(&self) -> bool {
        self.is_watched
    }

    /// Whether the program may ask a person.
    pub(crate) fn may_ask(&self) -> bool {
        self.terminals.input
    }

    /// Asks a person whether an existing file may be replaced.
    pub(crate) fn ask(&self, image: &str, is: &impl Display) {
        let path = EscapedName(image);
        let _printed = eprint!(self.rt;
            "imem: {path} is {is}. Make it anew, and lose that? y or n: "
        );
    }

    // The file that the reason is about.
    fn path(&self, reason: Reason) -> &'a str {
        if reason.is_of_second() {
            input_or(self.script)
        } else {
            self.image
        }
    }

    // Prints why the work is refused.
    fn print_reason(&self, reason: Reason) {
        let path = EscapedName(self.path(reason));
        let _printed = match reason {
            Reason::File(PathFault::NoFolder) | Reason::NewFile(PathFault::NoFolder) => {
                let folder = EscapedName(folder_of(self.path(reason)));
                eprintln!(self.rt; "imem: the folder {folder} isn't there")
            }
            Reason::File(PathFault::Unsynced) | Reason::NewFile(PathFault::Unsynced) => {
                eprintln!(self.rt; "imem: {path}: {reason} (the note is {path}.unsynced)")
            }
            Reason::File(PathFault::EmptyPath) | Reason::NewFile(PathFault::EmptyPath) => {
                eprintln!(self.rt; "imem: {reason}")
            }
            Reason::Request(_, Refusal::Mismatch) => {
                eprintln!(self.rt; "imem: {path}: {reason}: another script used this image")
            }
            Reason::Request(element, Refusal::BadScript) => {
                eprintln!(self.rt;
                    "imem: {path}: element {element} confirmed requests that the script doesn't have: \
                     another script used this image"
                )
            }
            Reason::Output(_) if self.held.stands_for(1) => {
                eprintln!(self.rt; "imem: standard output is closed")
            }
            Reason::Output(_) | Reason::Input(_) | Reason::NoInput | Reason::Memory => {
                eprintln!(self.rt; "imem: {reason}")
            }
            _ => print_advised(self.rt, self.path(reason), reason, self.serves),
        };
    }

    // Prints a refusal with what the disk says about it.
    fn tell_call(&mut self, reason: Reason) {
        self.refused = Some(reason);
        self.waits = false;
        self.print_reason(reason);
    }

    /// Prints what is wrong with the file of a trace.
    pub(crate) fn tell_trace(&self, trace: &str, reason: Reason) {
        let path = EscapedName(trace);
        let _printed = eprintln!(self.rt; "imem: the trace {path}: {reason}");
    }

    /// Prints why no file for a trace is made, and so nothing is run.
    pub(crate) fn refuse_trace(&mut self, trace: &str, reason: Reason) {
        self.refused = Some(reason);
        self.waits = false;
        self.tell_trace(trace, reason);
    }

    /// Prints that a folder for backups isn't there, and so no line is read.
    pub(crate) fn refuse_folder(&mut self, folder: &str) {
        self.refused = Some(Reason::File(PathFault::NoFolder));
        self.waits = false;
        let path = EscapedName(folder);
        let _printed = eprintln!(self.rt; "imem: the folder {path} isn't there");
    }

    // Prints which call failed, if the last refusal waits for it or a note is needed.
    fn tell_failed(&mut self, reason: Reason, noting: Noting) {
        if self.waits || noting != Noting::Unneeded {
            self.tell_call(reason);
        }
    }

    /// Prints the last refusal if it isn't printed yet, with the call on the image's file that failed. Prints whether a
    /// note was left beside the image.
    pub(crate) fn settle(&mut self, failure: Option<Failure>, noting: Noting) {
        if let Some(failure) = failure {
            self.tell_failed(Reason::Call(call_of(failure)), noting);
        }
        self.tell_waiting();
        self.tell_note(self.image, noting);
    }

    /// The same as `settle`, for the new file of a migration, a copy or a load.
    pub(crate) fn settle_new(&mut self, failure: Option<Failure>, noting: Noting) {
        if let Some(failure) = failure {
            self.tell_failed(Reason::NewCall(call_of(failure)), noting);
        }
        self.tell_note(self.script, noting);
    }

    // Prints the refusal that waits.
    fn tell_waiting(&mut self) {
        if self.waits {
            self.waits = false;
            if let Some(reason) = self.refused {
                self.print_reason(reason);
            }
        }
    }

    // Prints whether a note was left, or couldn't be left.
    fn tell_note(&self, path: &str, noting: Noting) {
        let path = EscapedName(path);
        let _printed = match noting {
            Noting::Unneeded => Ok(()),
            Noting::Left => eprintln!(self.rt; "imem: the note {path}.unsynced says so"),
            Noting::Failed(_) => {
                eprintln!(self.rt; "imem: no note can be left beside {path}: keep it in mind")
            }
        };
    }

    // Prints how far the work has come, now and then, if a person watches.
    fn print_progress(&self, progress: Progress) {
        let Progress {
            served,
            room,
            checkpoints,
        } = progress;
        if self.is_watched() && served % STRIDE == 0 {
            let _printed = eprintln!(self.rt;
                "imem: {served} requests served, room for {room}, {checkpoints} checkpoints"
            );
        }
    }

    // Keeps why the work is refused, and prints it unless the disk says more of it.
    fn refuse(&mut self, reason: Reason) {
        self.refused = Some(reason);
        self.waits = is_of_call(reason);
        if !self.waits {
            self.print_reason(reason);
        }
    }

    // Prints what is wrong with the first file, or with the input.
    fn print_of_input(&self, is: &impl Display) {
        let path = EscapedName(input_or(self.image));
        let _printed = eprintln!(self.rt; "imem: {path}: {is}");
    }

    // Prints how much of a new file is written, now and then, if a person watches.
    fn print_written(&self, written: u64, all: u64) {
        if self.is_watched() && written % WRITES == 0 {
            let path = EscapedName(self.script);
            let _printed = eprintln!(self.rt;
                "imem: {path}: {written} of {all} pages and slots written"
            );
        }
    }
}

impl<R: Files<File = File> + Eprint + AllocGlobal> Observer<News> for Console<'_, R> {
    fn listens(&mut self) -> bool {
        self.terminals.output
    }

    fn tell(&mut self, news: News) {
        match news {
            News::Answered(waited) => print_answer(self.rt, waited),
            News::Confirmed(waited) => print_confirmed(self.rt, waited),
            News::Progressed(progress) => self.print_progress(progress),
            News::Refused(reason) => self.refuse(reason),
            News::Warned(warning) => {
                let path = EscapedName(self.image);
                let _printed = eprintln!(self.rt; "imem: {path}: {warning}");
            }
        }
    }
}

impl<R: Files<File = File> + Eprint + AllocGlobal> Observer<MoveNews> for Console<'_, R> {
    fn tell(&mut self, news: MoveNews) {
        match news {
            MoveNews::Writes { written, all } => self.print_written(written, all),
            MoveNews::Misfits(misfit) => self.print_of_input(&misfit),
        }
    }
}

impl<R: Files<File = File> + Eprint + AllocGlobal> Observer<LoadFault> for Console<'_, R> {
    fn tell(&mut self, fault: LoadFault) {
        match fault {
            LoadFault::NoInput => {
                let _printed = eprintln!(self.rt; "imem: {fault}");
            }
            _ if begins_as_image(self.rt, self.image) => {
                let path = EscapedName(self.image);
                let _printed = eprintln!(self.rt;
                    "imem: {path} is an image, no dump: 'imem copy {path} NEW' copies it"
                );
            }
            _ => self.print_of_input(&fault),
        }
    }
}
