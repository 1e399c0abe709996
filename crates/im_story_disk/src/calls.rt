//! Calls on a file in memory.
//!
//! ```text
//! fuse 11 stop = set              the next use of the file passes 11 calls, and then stops; or fails once, or once
//!                                 with a byte all over what was to be written, scar:a5
//! crash kept = crashed            what a crash leaves of what wasn't synced: kept, lost, or a byte
//! calls = 13                      how many calls its last use made
//! bytes 8 2 = a5 01               two bytes from place 8 on; eight equal ones in a row are told as 00*8
//! damage 16:05 = done             puts a byte at a place; so put 16 05 01 = done, several from there on
//! write 16 05 = 00                puts bytes there, and tells those that stood there before
//! cut 8191 = 8191 bytes           cuts it there, or adds zeros; so disk 64 = 64 bytes, a new one of zeros,
//!                                 or disk 64 of a5, of this byte
//! image 1 1 16 = 33792 bytes      a new image with no command in its place; old image: of the first version
//! mark = 64 bytes                 keeps the bytes; as marked = yes: they are those that were kept
//! opening = count 3 room 256      what an opening finds, or why it is refused
//! ```

use crate::story_file::StoryFile;
use im_story::{Phrase, Saying, bytes, changes, crash, hex, mode};

// The fewest equal bytes that are told as one.
const RUN: usize = 8;

impl StoryFile {
    // Puts bytes in their places. With `write` it tells those that stood there before.
    fn write(&mut self, call: &Phrase, said: &mut Saying) {
        let (at, Some(bytes)) = (call.place(0), bytes(call.alloc(), call.rest(2))) else {
            return said.fail("these are no bytes");
        };
        match call.word(0) {
            "write" => said.part(self.bytes(), at, bytes.len(), RUN),
            _ => said.text("done"),
        }
        said.so(self.put(at, bytes.as_slice()), "")
    }

    // Makes a new image or a new file of one byte, cuts this one, or marks its bytes. Tells how many there are.
    fn tell_made(&mut self, call: &Phrase, said: &mut Saying) {
        let length = call.place(0);
        let is_made = match call.form() {
            "image _ _ _" => call.limits(0).is_some_and(|limits| self.renew(limits)),
            "old image _ _ _" => call.limits(0).is_some_and(|limits| self.renew_old(limits)),
            "cut _" => self.cut(length),
            "mark" => self.mark(),
            "disk _" => self.lay(&[], length),
            _ => {
                let bytes = vec![in self.alloc; hex(call.word(3)).unwrap_or(0); length];
                bytes.is_ok_and(|bytes| self.lay(bytes.as_slice(), length))
            }
        };
        said.so(is_made, "");
        write!(said, "{} bytes", self.bytes().len())
    }

    /// Makes a call on the file. Returns whether it is one.
    pub fn tell(&mut self, call: &Phrase, said: &mut Saying) -> bool {
        match (call.word(0), call.form()) {
            ("fuse", _) => said.given(mode(call.word(2)), "that is no way to fail", |mode, said| {
                self.fuse = (call.number(0), mode);
                said.text("set")
            }),
            ("crash", _) => said.given(crash(call.word(1)), "that is no crash", |crash, said| {
                said.so(self.crash(crash), "crashed")
            }),
            ("damage", _) => {
                let changes = changes(call.alloc(), call.rest(1));
                let is_done = changes.is_some_and(|changes| self.put_each(changes.as_slice()));
                said.so(is_done, "done")
            }
            ("put" | "write", _) => self.write(call, said),
            ("disk", _) | (_, "cut _" | "mark" | "image _ _ _" | "old image _ _ _") =>
                self.tell_made(call, said),
            (_, "calls") => said.number(self.calls),
            (_, "bytes _ _") => said.part(self.bytes(), call.place(0), call.place(1), RUN),
            (_, "as marked") => said.either(self.is_as_marked(), "yes", "no"),
            (_, "opening") => self.tell_opening(said),
            _ => return false,
        }
        true
    }
}
