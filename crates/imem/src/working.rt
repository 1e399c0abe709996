//! Does the work of a command line on standard input.
ghost use Rattle.std.specs.Prelude.{◌≡◌, ◌≤◌};
ghost use Rattle.im_listening.specs.{Lending.HasBytes, Listening.still_in};
ghost use Rattle.im_program.specs.Ending.{EndedOn};

use crate::machine::Machine;
use im_disk::{Disk, FileDisk, Start};
use im_listening::{InputBytes, Listener};
use im_program::{
    AtHand, CommandLine, Console, Descriptors, Prompter, Terminals, Work, act, refuse, status_for,
};
use im_text::Style;
use im_types::Refusal;
use std::alloc::Global;
use std::io::{BufReader, Eprint, Read, Write};
use std::sync::Wait;
use std::thread::Threads;

/// Where the work is done.
#[derive(Drop)]
pub(crate) struct Surroundings<'a, R> {
    pub(crate) rt: &'a R,
    pub(crate) held: &'a Descriptors,
    pub(crate) terminals: Terminals,
}

// Whether a dialogue is to be served.
fn is_dialogue(line: &CommandLine) -> bool {
    matches!(line.work, Work::Serve(_))
}

// Whether a person types the lines of a dialogue.
fn prompts(line: &CommandLine, terminals: Terminals) -> bool {
    is_dialogue(line) && terminals.input && terminals.errors
}

// Tells a person who gave no word that there is help.
fn tell_help<R: Eprint>(rt: &R, line: &CommandLine, terminals: Terminals) {
    if terminals.errors && matches!(line.work, Work::Demonstration) {
        let _printed = rt.eprintln("imem: 'imem --help' tells what there is");
    }
}

// A reader of standard input, to which a thread listens in a dialogue.
fn listen<
    R: Threads + Wait + Copy + Drop + Send + 'static,
    I: Read + Drop + Send + 'static,
    K: InputBytes + Send + 'static,
>(rt: &R, alloc: Global, input: I, line: &CommandLine) -> Listener<R, I, K>
    requires whole { HasBytes K.whole (I.remaining input) }
    ensures bytes { still_in result ≡ K.whole }
{
    let mut listener = Listener::new(*rt, input);
    if !is_dialogue(line) {
        return listener;
    }
    listener.begin(alloc);
    listener
}

/// Does the work of a command line. Each read of standard input takes as much as there is, so that lines of a dialogue
/// that come together are served together. In a dialogue a thread listens to standard input, and a person at a terminal
/// sees a prompt. If standard input doesn't block, the program waits for it.
pub(crate) fn work_on<
    R: Machine,
    S: Start + Send,
    T: Start,
    I: Read + Drop + Send + 'static,
    W: Write + Drop,
    K: InputBytes + Send + 'static,
>(
    place: &Surroundings<'_, R>,
    line: &CommandLine,
    mut out: W,
    input: I,
    starts: (S, T),
) -> (u8, W, Option<FileDisk<S>>, Option<FileDisk<T>>)
    requires whole { HasBytes K.whole (I.remaining input) }
    ensures few { result.0 ≤ 6 }
    ensures ended { EndedOn S.Start T.Start ⟦<FileDisk<S> as Disk>⟧ ⟦<FileDisk<T> as Disk>⟧ line.now K.whole
        (W.contents out) (W.contents result.1) result.0 result.2 result.3 }
{
    let rt = place.rt;
    tell_help(rt, line, place.terminals);
    let heard: Listener<R, I, K> = listen(rt, rt.alloc(), input, line);
    let is_typed = prompts(line, place.terminals);
    let prompter = Prompter::new(rt, heard, is_typed, &line.work);
    let Ok(mut input) = BufReader::new(rt.alloc(), prompter) else {
        let status = refuse(rt.alloc(), Style::Text, Refusal::NoMemory, &mut out);
        return (status, out, None, None);
    };
    let mut console = Console::new(rt, place.held, line, place.terminals);
    let hand = AtHand {
        rt,
        held: place.held,
        input: &mut input,
        observer: &mut console,
    };
    let (status, disk, old) = act(hand, line, &mut out, starts);
    input.get_ref().tell_end();
    let ends = status_for(status, line.statuses, console.reason());
    (ends, out, disk, old)
}
