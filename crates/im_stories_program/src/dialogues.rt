//! Dialogues on the image in memory. The client says what was put together as a script. All of it may be in the
//! reader's buffer at once, or a byte at a time. The client may be silent whenever the buffer is empty.

use crate::ProgramDesk;
use im_dialogue::{NoBackups, dialogue_on};
use im_listening::Ear;
use im_story::{Phrase, Saying};
use std::io::{self, BufReader, Read};

// How a dialogue is held: with a buffer of one byte, with a client that is silent whenever it is empty, or watched; and
// the words by which the disk or the writer fails.
const MANNERS: [&str; 6] = ["slowly", "silently", "watched", "calls", "to", "bytes"];

// What a client says. It is silent each time it is asked whether something is there, or never.
#[derive(Drop)]
struct Client<'a> {
    text: &'a [u8],
    is_silent: bool,
}

impl<'a> Read for Client<'a> {
    fn read(&mut self, buf: &mut [u8]) -> io::Result<usize> {
        self.text.read(buf)
    }
}

impl<'a> Ear for Client<'a> {
    fn is_quiet(&mut self) -> bool {
        self.is_silent
    }
}

// Holds a dialogue in which this is said. Tells the status, and how many calls the disk got behind those of an opening.
fn hold(desk: &mut ProgramDesk, text: &[u8], call: &Phrase, said: &mut Saying) {
    let words = call.rest(1);
    for word in words {
        said.so(MANNERS.contains(word) || word.parse::<u64>().is_ok(), "");
    }
    let opening = desk.opening_calls();
    desk.prepare(call, opening);
    let is_silent = words.contains(&"silently");
    let client = Client { text, is_silent };
    let buffer = if words.contains(&"slowly") { 1 } else { 8192 };
    let Ok(mut input) = BufReader::with_capacity(call.alloc(), buffer, client) else {
        return said.fail("no memory is left");
    };
    let Some(disk) = desk.place.taken() else {
        return said.fail("there is no disk");
    };
    let mut backups = NoBackups;
    let (status, disk) = dialogue_on(
        call.alloc(),
        disk,
        &mut backups,
        &mut input,
        words.contains(&"watched"),
        &mut desk.out,
        &mut desk.notes,
    );
    desk.place.lay_down(disk);
    let calls = desk.place.calls.saturating_sub(opening);
    write!(said, "{status}, {calls} calls")
}

/// Holds a dialogue on the image, in which the text is said that was put together.
pub fn talk(desk: &mut ProgramDesk, call: &Phrase, said: &mut Saying) {
    let text = desk.take_text();
    hold(desk, text.as_slice(), call, said)
}
