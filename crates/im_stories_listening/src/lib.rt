//! Stories of a reader that listens with a thread: what it tells and gives, whatever the schedule.
#![tactic(auto)]

use anyhow::Result;
use crossbeam_channel::{Receiver, bounded};
use im_listening::{Ear, Listener, Patient};
use im_script::read_text;
use im_story::Saying;
use std::io::{self, BufReader, Error, ErrorKind, Read};
use std::marker::Brand;
use std::sync::Wait;
use std::thread::{Threads, yield_now};

// Lines, one of them empty, and the start of another.
const SAID: &[u8] = b"1.1 fetch 0\n\n2.1 store 0 42\nquit";

// The answers of a reader that doesn't wait.
const STEPS: &[u8] = b"..!a.b!!.c$d";

/// What the scenes run on: threads, and waiting for them.
pub trait Audience: AllocGlobal + Threads + Wait + Copy + Drop + Send + 'static {}

impl<R: AllocGlobal + Threads + Wait + Copy + Drop + Send + 'static> Audience for R {}

// Gives what somebody says, a byte at a time, and waits for it.
#[derive(Drop)]
struct Mouth<R: Drop> {
    rt: R,
    said: Receiver<u8>,
}

impl<R: Wait + Drop> Read for Mouth<R> {
    fn read(&mut self, buf: &mut [u8]) -> io::Result<usize> {
        let Some(first) = buf.first_mut() else {
            return Ok(0); // It waits for nothing then.
        };
        let Ok(byte) = self.said.recv(&self.rt) else {
            return Ok(0);
        };
        *first = byte;
        Ok(1)
    }
}

// Gives these answers, one at each read, and doesn't wait: nothing yet, an interruption, a fault, its end, or a byte;
// also after its end, as a terminal does.
#[derive(Drop)]
struct Hasty(&'static [u8]);

impl Read for Hasty {
    fn read(&mut self, buf: &mut [u8]) -> io::Result<usize> {
        let (Some(first), Some((step, later))) = (buf.first_mut(), self.0.split_first()) else {
            return Ok(0);
        };
        self.0 = later;
        match *step {
            b'.' => Err(Error::from(ErrorKind::WouldBlock)),
            b'!' => Err(Error::from(ErrorKind::Interrupted)),
            b'?' => Err(Error::from(ErrorKind::InvalidData)),
            b'$' => Ok(0),
            byte => {
                *first = byte;
                Ok(1)
            }
        }
    }
}

// Starts to listen to a reader with a thread.
fn listening<R: Audience, I: Read + Drop + Send + 'static>(rt: &R, i: I) -> Listener<R, I, Brand> {
    let mut listener = Listener::new(*rt, i);
    listener.begin(rt.alloc());
    listener
}

// Waits until something is there.
fn wait_for<R: Wait, E: Ear>(rt: &R, ear: &mut E) {
    for _ in rt.forever() {
        if !ear.is_quiet() {
            return;
        }
        yield_now();
    }
}

// Gives all that is said in order, wherever it was asked whether something is there.
fn tell_lines<R: Audience>(
    rt: &R,
    mut listener: Listener<R, &'static [u8], Brand>,
    told: &mut Saying,
) -> Result<()> {
    let mut given = Vec::new(rt.alloc());
    let mut part = [0u8; 3];
    for _part in 0..1_000 {
        wait_for(rt, &mut listener);
        let count = listener.read(&mut part)?;
        given.extend_from_slice(&part[..count])?;
    }
    let is_same = given.as_slice() == SAID;
    Ok(writeln!(told, "the same: {is_same}, {} bytes", given.len()))
}

// Is quiet while nobody says anything. Then a byte is said, and is given, and the end.
fn tell_silence<R: Audience>(rt: &R, told: &mut Saying) -> Result<()> {
    let (say, said) = bounded(rt.alloc(), 1)?;
    let mut listener: Listener<R, Mouth<R>, Brand> = Listener::new(*rt, Mouth { rt: *rt, said });
    writeln!(told, "nobody listens: {}", listener.is_quiet());
    listener.begin(rt.alloc());
    writeln!(told, "nothing is said: {}", listener.is_quiet());
    writeln!(told, "still: {}", listener.is_quiet());
    let is_said = say.send(rt, b'a').is_ok();
    wait_for(rt, &mut listener);
    let mut part = [0u8; 1];
    let count = listener.read(&mut part)?;
    writeln!(told, "said: {is_said}, {count} byte, {}", part[0]);
    writeln!(told, "nothing more: {}", listener.is_quiet());
    drop(say);
    wait_for(rt, &mut listener);
    Ok(writeln!(told, "at the end: {} bytes", listener.read(&mut part)?))
}

// Tells a failure at the next read, once.
fn tell_fault<R: Audience>(rt: &R, told: &mut Saying) -> Result<()> {
    let mut listener = listening(rt, Hasty(b"?"));
    wait_for(rt, &mut listener);
    let mut part = [0u8; 3];
    let is_fault = listener.read(&mut part).is_err();
    let count = listener.read(&mut part)?;
    Ok(writeln!(told, "a fault: {is_fault}, then {count} bytes"))
}

// Reads `times` times, and tells what came: a byte, or the end.
fn tell_reads<I: Read>(input: &mut I, times: usize, told: &mut Saying) -> Result<()> {
    let mut part = [0u8; 1];
    told.text("it gives");
    for _time in 0..times {
        match input.read(&mut part)? {
            0 => told.text(" its end"),
            _ => write!(told, " {}", part[0]),
        }
    }
    Ok(told.text("\n"))
}

// Waits for a reader that doesn't wait itself, and doesn't read again after the end.
fn tell_waiting<R: Audience>(rt: &R, told: &mut Saying) -> Result<()> {
    tell_reads(&mut Patient::new(*rt, Hasty(STEPS)), 5, told)?;
    let mut unheard = Listener::<R, Hasty, Brand>::new(*rt, Hasty(STEPS));
    tell_reads(&mut unheard, 6, told)?;
    let mut listener = listening(rt, Hasty(STEPS));
    let _quiet = listener.is_quiet();
    tell_reads(&mut listener, 6, told)
}

// Reads a script's text to its end, as the program reads it from standard input, and tells it.
fn tell_whole<R: AllocGlobal, I: Read>(rt: &R, input: &mut I, told: &mut Saying) {
    let Ok(text) = read_text(rt.alloc(), input) else {
        return told.text("the text can't be read\n");
    };
    let text = str::from_utf8(text.as_slice()).unwrap_or("none");
    writeln!(told, "a text: {text}")
}

// Gives the end again after a thread heard it. Nothing is quiet then, since no read would wait.
fn tell_end<R: Audience>(rt: &R, told: &mut Saying) -> Result<()> {
    let mut listener = listening(rt, Hasty(b"$a"));
    wait_for(rt, &mut listener);
    tell_reads(&mut listener, 3, told)?;
    Ok(writeln!(told, "quiet: {}", listener.is_quiet()))
}

// Shows each scene.
fn show_each<R: Audience>(rt: &R, told: &mut Saying) -> Result<()> {
    told.text("# with nobody who listens\n");
    tell_lines(rt, Listener::new(*rt, SAID), told)?;
    told.text("# with a thread that listens\n");
    tell_lines(rt, listening(rt, SAID), told)?;
    told.text("# a silence\n");
    tell_silence(rt, told)?;
    told.text("# a fault\n");
    tell_fault(rt, told)?;
    told.text("# a reader that does not wait\n");
    tell_waiting(rt, told)?;
    told.text("# a text of a reader that does not wait\n");
    tell_whole(rt, &mut Patient::new(*rt, Hasty(STEPS)), told);
    let unheard = Listener::<R, Hasty, Brand>::new(*rt, Hasty(STEPS));
    let mut input = BufReader::new(rt.alloc(), unheard)?;
    tell_whole(rt, &mut input, told);
    told.text("# an end that is heard\n");
    tell_end(rt, told)
}

/// Shows what a listener gives and tells.
pub fn show<R: Audience>(rt: &R, told: &mut Saying) {
    if show_each(rt, told).is_err() {
        told.fail("a read failed, or no memory is left")
    }
}
