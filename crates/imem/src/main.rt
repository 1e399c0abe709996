//! The program `imem`: it reads its command line and does what that asks for.
#![tactic(auto)]

ghost use Rattle.std.specs.Prelude.{◌≡◌, ◌≤◌, ◌⊎◌, map, IfOk, string_bytes};
ghost use Rattle.std.specs.Process.{exit_status};
ghost use Rattle.im_program.specs.Ending.{EndedBy};

mod machine;
mod openings;
mod working;

use crate::machine::Machine;
use crate::openings::{Clocked, Openings};
use crate::working::{Surroundings, work_on};
use im_disk::{Disk, FileDisk, Start};
use im_program::{Descriptors, Terminals, WordFault, read_words, refuse};
use im_text::Style;
use im_types::Refusal;
use std::alloc::{AllocError, Global};
use std::env::{self, Env};
use std::io::{self, Eprint, Input, IsTerminal, Read, Write};
use std::marker::Brand;
use std::process::ExitCode;

// Returns the status once a text is printed in place of work: 2 for bad words. Else the help or the version was asked
// for, and the status says whether it was printed.
fn status_after(is_fault: bool, printed: io::Result<()>) -> u8
    ensures { result ≤ 2 }
{
    if is_fault {
        return 2;
    }
    match printed {
        Ok(()) => 0,
        Err(_) => 1,
    }
}

// Words as slices of text.
fn texts(alloc: Global, words: &[String]) -> Result<Vec<&str>, AllocError>
    ensures { IfOk result (λ v. map (λ w. w.now) v.items ≡ map string_bytes words.now) }
{
    words.iter().map(|word| word.as_str()).collect(alloc)
}

/// Does what the words of the command line ask for, the program's own name first. Returns how the program ends, the
/// writer, and the disks of the files that were opened.
///
/// The exit status is that of the work, or 1, 4 or 5 if that was refused: it is 0 only if all that was asked for was
/// done and told.
fn start<
    R: Machine,
    S: Start + Send,
    T: Start,
    M: Openings<S, T>,
    I: Read + Drop + Send + 'static,
    W: Write + Drop,
>(
    place: &Surroundings<'_, R>,
    words: &[String],
    mut out: W,
    input: I,
    openings: &M,
) -> (ExitCode, W, Option<FileDisk<S>>, Option<FileDisk<T>>)
    ensures few { exit_status result.0 ≤ 6 }
    ensures ended { EndedBy S.Start T.Start ⟦<FileDisk<S> as Disk>⟧ ⟦<FileDisk<T> as Disk>⟧
        (map string_bytes words.now) (I.remaining input) (W.contents out) (W.contents result.1)
        (exit_status result.0) result.2 result.3 }
{
    let Ok(texts) = texts(place.rt.alloc(), words) else {
        let status = refuse(place.rt.alloc(), Style::Text, Refusal::NoMemory, &mut out);
        return (ExitCode::from(status), out, None, None);
    };
    match read_words(place.rt.alloc(), texts.as_slice()) {
        Ok(line) => {
            let starts = openings.starts(line.wait);
            let done = work_on::<R, S, T, I, W, Brand>(place, &line, out, input, starts);
            (ExitCode::from(done.0), done.1, done.2, done.3)
        }
        Err(WordFault::NoMemory) => {
            let status = refuse(place.rt.alloc(), Style::Text, Refusal::NoMemory, &mut out);
            (ExitCode::from(status), out, None, None)
        }
        Err(WordFault::Bad(error)) => {
            let status = status_after(error.use_stderr(), error.print(place.rt));
            (ExitCode::from(status), out, None, None)
        }
    }
}

// The words of the command line, as the system has them.
fn given<R: Env + AllocGlobal>(rt: &R) -> io::Result<Vec<String>> {
    let words = env::args(rt)?;
    match words.collect(rt.alloc()) {
        Ok(words) => Ok(words),
        Err(_) => Err(io::Error::from(io::ErrorKind::OutOfMemory)),
    }
}

// Prints why there are no words. Returns how the program ends.
fn no_words<R: AllocGlobal + Eprint, W: Write>(rt: &R, error: &io::Error, out: &mut W) -> ExitCode
    ensures { (exit_status result ≡ 1) ⊎ (exit_status result ≡ 2) }
{
    if error.kind() == io::ErrorKind::OutOfMemory {
        return ExitCode::from(refuse(rt.alloc(), Style::Text, Refusal::NoMemory, out));
    }
    let _printed = rt.eprintln("error: each word of the command line has to be UTF-8 text");
    ExitCode::from(2)
}

// Takes the standard descriptors before a path is opened, so that no file gets the number of a closed stream.
fn main(rt: HostRuntime) -> ExitCode {
    let Some(held) = Descriptors::hold(&rt, &rt.stdin(), &rt.stdout(), &rt.stderr()) else {
        return ExitCode::from(1);
    };
    let mut out = io::writer(&rt);
    let words = match given(&rt) {
        Ok(words) => words,
        Err(error) => return no_words(&rt, &error, &mut out),
    };
    let place = Surroundings {
        rt: &rt,
        held: &held,
        terminals: Terminals {
            input: rt.stdin().is_terminal(),
            output: rt.stdout().is_terminal(),
            errors: rt.stderr().is_terminal(),
        },
    };
    let (ends, _out, _disk, _old) = start(
        &place,
        words.as_slice(),
        &mut out,
        rt.reader(),
        &Clocked { rt },
    );
    ends
}
