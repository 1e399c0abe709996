//! Stories of migrations: which images are migrated to which files, what the new ones mean, and what stops and failing
//! calls of either disk leave.
//!
//! ```text
//! old image 4096 16 256 = 327680 bytes    an image of the first version in the old file, with no command
//! current image 1 1 16 = 33792 bytes      an image of the version in use in its place
//! old CALL, new CALL                      a call of that file: disk, cut, fuse, crash, opening, as marked
//! old write 311296 a5 01 = a501           puts bytes into it, and tells them as they stand
//! old keep a.img = 327680 bytes           makes a file of the folder of it; new load b.img takes one for the new
//! new report = 12 lines                   its report; printed 3 has a line of it
//! mark = marked                           keeps both files as they are now
//! migrate = migrated 3
//! calls = 13 and 315                      of the old file, and of the new one, when each was used last
//! new means old = yes                     both reports are the same from their fifth line on
//! in each stop kept = 314 refused 13 NoHeader, 1 count 3
//! in each stop of old once = 13 refused 8 Device
//! with 4096:a5 = refused 22 NotBlank      the result of migrating copies with this byte in the new file
//! with old 0:00 = refused 13 NoHeader     or in the old one
//! run imem migrate a.img b.img = 0        the program's work on files; printed 0 has its line
//! told 0 = the script can't be read       why it was refused
//! ```
#![tactic(auto)]

mod moves;
mod programs;
mod stops;

use crate::moves::{are_same, move_on, tell_length, tell_with};
use crate::programs::{load, run, save, tell_of_file};
use im_program::Descriptors;
use im_story::{Phrase, Printout, Saying, Subject, walk_file};
use im_story_disk::StoryFile;
use im_text::Reason;

/// Two files, and what was last printed and told.
struct MigrationDesk<'a> {
    /// The folder's files, and standard output.
    rt: &'a HostRuntime,
    /// What occupies the numbers of the standard streams.
    held: &'a Descriptors,
    /// The old file.
    old: StoryFile,
    /// The new file.
    new: StoryFile,
    /// What was last printed.
    out: Printout,
    /// Why the last work was refused.
    told: Option<Reason>,
}

// By one call, wherever its owner may end.
impl Drop for MigrationDesk<'_> {
    fn drop(self) {
        let MigrationDesk {
            rt: _,
            held: _,
            old: _,
            new: _,
            out: _,
            told: _,
        } = self;
    }
}

impl<'a> MigrationDesk<'a> {
    // Starts with nothing.
    fn new(rt: &'a HostRuntime, held: &'a Descriptors) -> MigrationDesk<'a> {
        MigrationDesk {
            rt,
            held,
            old: StoryFile::new(rt.alloc()),
            new: StoryFile::new(rt.alloc()),
            out: Printout::new(rt.alloc()),
            told: None,
        }
    }
}

// Makes a call by its first word. It is one of the new file, or else of the old one.
fn tell_by_word(desk: &mut MigrationDesk, call: &Phrase, said: &mut Saying) {
    match call.word(0) {
        "with" => tell_with(&desk.old, &desk.new, call, said),
        "in" => stops::tell(&desk.old, &desk.new, call, said),
        "run" => run(desk, call, said),
        "save" => save(desk.rt, call, said),
        "file" => load(
            desk.rt,
            call.word(1),
            &mut StoryFile::new(call.alloc()),
            said,
        ),
        "new" => tell_of_file(desk.rt, &mut desk.new, &mut desk.out, call, said),
        _ => tell_of_file(desk.rt, &mut desk.old, &mut desk.out, call, said),
    }
}

impl<'a> Subject for MigrationDesk<'a> {
    fn begin(&mut self) {
        *self = MigrationDesk::new(self.rt, self.held);
    }

    fn make(&mut self, call: &Phrase, said: &mut Saying) {
        match call.form() {
            "printed _" => {
                let line = self.out.text().lines().nth(call.place(0));
                said.given(line, "there is no such line", |line, said| said.text(line))
            }
            "told _" => said.given(
                self.told,
                "nothing was told",
                |told, said| write!(said, "{told}"),
            ),
            "migrate" => move_on(&mut self.old, &mut self.new, said),
            "calls" => write!(said, "{} and {}", self.old.calls, self.new.calls),
            "mark" => said.so(self.old.mark() && self.new.mark(), "marked"),
            "new means old" => said.either(are_same(&mut self.old, &mut self.new), "yes", "no"),
            "length for old" => tell_length(&mut self.old, said),
            _ => tell_by_word(self, call, said),
        }
    }
}

/// Walks the stories of a file. Returns whether nothing was answered otherwise.
pub fn walk(rt: &HostRuntime, held: &Descriptors, file: &str, said: &mut Saying) -> bool {
    walk_file(rt, file, &mut MigrationDesk::new(rt, held), said)
}
