//! What is known of an engine: the plain memory, which has what was answered, and what is in doubt.

use crate::engines::StoryScript;
use arrayvec::ArrayVec;
use im_disk::{Crash, Mode};
use im_memory::Memory;
use im_story::Saying;
use im_story_disk::StoryFile;
use im_story_plain::PlainMemory;
use im_types::{Command, Limits, MAX_GROUP, Outcome, Refusal, Served};
use std::alloc::Global;

/// An engine in a file, and what it has answered: the memory after it, and how many commands that is. The commands of
/// the last call may be in doubt, with the room for them: all that are accepted and have room are on the disk, or none.
/// Those that were put ahead have no effect.
pub struct KnownEngine {
    /// The engine, or its file.
    pub file: StoryFile,
    /// The memory.
    pub plain: PlainMemory,
    /// How many commands were answered.
    pub count: u64,
    /// The members of the group ahead.
    pub ahead: ArrayVec<Command, MAX_GROUP>,
    doubt: ArrayVec<Command, MAX_GROUP>,
    room: usize,
}

// By one call, wherever its owner may end.
impl Drop for KnownEngine {
    fn drop(self) {
        let KnownEngine {
            file: _,
            plain: _,
            count: _,
            ahead: _,
            doubt: _,
            room: _,
        } = self;
    }
}

/// Returns whether the disk still works after an event. Only the disk may refuse it.
pub fn does_work(refusal: Option<Refusal>, said: &mut Saying) -> bool {
    said.check(matches!(refusal, None | Some(Refusal::Device)));
    refusal.is_none()
}

/// Returns whether each member of a group was refused with this refusal.
pub fn are_refused(served: &[Served], refusal: Refusal) -> bool {
    served.iter().all(|it| *it == Served::Refused(refusal))
}

/// Returns the answer to a command as that of a group's member.
pub fn served(answer: Result<Outcome, Refusal>) -> Served {
    match answer {
        Ok(outcome) => Served::Done(outcome),
        Err(refusal) => Served::Refused(refusal),
    }
}

/// Returns whether something is wrong. Adds then in which case that is.
pub fn is_wrong_at(case: u64, said: &mut Saying) -> bool {
    let is_wrong = said.is_wrong();
    if is_wrong {
        write!(said, " at {case}")
    }
    is_wrong
}

// Returns whether the same requests wait at a cell, in the same order.
fn has_same_waiters(fast: &Memory, plain: &PlainMemory, a: u32) -> bool {
    let mut place = 0usize;
    for waiter in fast.waiters(a) {
        if plain.waiter(a, place) != Some(waiter) {
            return false;
        }
        place = place.saturating_add(1);
    }
    plain.waiter(a, place).is_none()
}

// Returns whether the same entries are kept for an element.
fn has_same_entries(fast: &Memory, plain: &PlainMemory, element: u16) -> bool {
    let bounds = plain.window(element);
    let (base, next) = bounds.unwrap_or((0, 0));
    fast.window(element) == bounds
        && (base..next).all(|number| fast.kept(element, number) == plain.kept(element, number))
}

/// Returns whether every cell with its block and its waiters, and every window with its entries, is the same in both.
pub fn are_alike(fast: &Memory, plain: &PlainMemory) -> bool {
    let has_same_cells = (0..=fast.cells()).all(|a| {
        fast.cell(a) == plain.cell(a)
            && fast.block(a) == plain.block(a)
            && has_same_waiters(fast, plain, a)
    });
    has_same_cells
        && (0..=fast.elements()).all(|element| has_same_entries(fast, plain, element))
        && fast.cells() == plain.cells()
        && fast.elements() == plain.elements()
}

impl KnownEngine {
    /// Starts with a new image on a disk that fails so, if it can be made.
    pub fn begin(alloc: Global, limits: Limits, fuse: (u64, Mode)) -> Option<KnownEngine> {
        let mut known = KnownEngine {
            file: StoryFile::new(alloc),
            plain: PlainMemory::new(alloc, limits).ok()?,
            count: 0,
            ahead: ArrayVec::new(),
            doubt: ArrayVec::new(),
            room: 0,
        };
        known.file.begin(limits, fuse).then_some(known)
    }

    // Returns what a member has to be answered if so many may still be accepted. The plain memory has it then too.
    fn expected(&mut self, command: &Command, left: &mut usize) -> Served {
        if self.plain.judge(command) == Ok(true) {
            if *left == 0 {
                return Served::Refused(Refusal::JournalFull);
            }
            *left -= 1;
            self.count = self.count.saturating_add(1);
        }
        served(self.plain.step(command))
    }

    /// Takes in the answers to a group that found this room. They have to be those of the plain memory one after
    /// another. A group ends behind its last member, or behind another and before a confirmation. What was ahead is no
    /// more behind one that is put on the disk. Returns whether the disk still works.
    pub fn hears(
        &mut self,
        members: &[Command],
        answers: &[Served],
        room: usize,
        said: &mut Saying,
    ) -> bool {
        let taken = members.get(..answers.len()).unwrap_or(members);
        let acts = taken.iter().any(|it| self.plain.judge(it) == Ok(true));
        if acts && room > 0 && are_refused(answers, Refusal::Device) {
            said.check(self.doubt.try_extend_from_slice(taken).is_ok());
            self.room = room;
            return false;
        }
        let (mut left, before) = (room, self.count);
        for (member, answer) in taken.iter().zip(answers) {
            said.check(self.expected(member, &mut left) == *answer);
        }
        if self.count != before {
            self.ahead = ArrayVec::new();
        }
        said.check(
            members.get(answers.len()).is_none_or(|next| {
                !answers.is_empty() && matches!(next, Command::Confirm { .. })
            }),
        );
        true
    }

    /// Takes in what the members of the group ahead were answered, in the same way: there was a place for each. So many
    /// of the next ones are ahead then, and none if the disk has failed.
    pub fn hears_advanced(
        &mut self,
        next: &[Command],
        advanced: Result<usize, Refusal>,
        answers: &[Served],
        said: &mut Saying,
    ) -> bool {
        let ahead = self.ahead.take();
        said.check(answers.len() == ahead.len());
        let Ok(many) = advanced else {
            said.check(advanced == Err(Refusal::Device) && are_refused(answers, Refusal::Device));
            said.check(self.doubt.try_extend_from_slice(ahead.as_slice()).is_ok());
            self.room = usize::MAX;
            return false;
        };
        let works = self.hears(ahead.as_slice(), answers, usize::MAX, said);
        let taken = next.get(..many).unwrap_or(next);
        said.check(taken.len() == many && self.ahead.try_extend_from_slice(taken).is_ok());
        works
    }

    /// Puts commands ahead behind those that are, and takes in the answers in the same way.
    pub fn advance(&mut self, next: &ArrayVec<Command, MAX_GROUP>, said: &mut Saying) -> bool {
        let Some(engine) = &mut self.file.engine else {
            said.fail("no engine");
            return false;
        };
        let mut answers = ArrayVec::new();
        let result = engine.advance(next, &mut answers);
        self.hears_advanced(next.as_slice(), result, answers.as_slice(), said)
    }

    /// Serves a command, and takes in its answer in the same way.
    pub fn serve(&mut self, command: &Command, said: &mut Saying) -> bool {
        let Some(engine) = &mut self.file.engine else {
            said.fail("no engine");
            return false;
        };
        let room = engine.room() as usize;
        let answer = served(engine.serve(command));
        self.hears(&[*command], &[answer], room, said)
    }

    /// Takes in what the commands of a script were answered.
    pub fn hears_script(&mut self, script: &StoryScript, said: &mut Saying) {
        for (command, answer) in script.commands.iter().zip(script.answers.as_slice()) {
            let _works = self.hears(&[*command], &[*answer], usize::MAX, said);
        }
    }

    /// Opens the file, whose disk fails so. Returns whether the disk still works.
    pub fn opens(&mut self, fuse: (u64, Mode), said: &mut Saying) -> bool {
        self.file.close();
        self.ahead = ArrayVec::new();
        self.file.fuse = fuse;
        does_work(self.file.start(None).err(), said)
    }

    /// Opens what a crash leaves, if there is one, and checks that it has all.
    pub fn reopen(&mut self, crash: Option<Crash>, said: &mut Saying) {
        self.ahead = ArrayVec::new();
        said.check(self.file.reopen(crash));
        self.has_all(said)
    }

    /// Checks that the engine has all that was answered, or that and all commands in doubt, and no more. What it has is
    /// known from then on.
    pub fn has_all(&mut self, said: &mut Saying) {
        let (doubt, mut left) = (self.doubt.take(), self.room);
        if self.file.count() != self.count {
            for command in doubt.as_slice() {
                let _answer = self.expected(command, &mut left);
            }
        }
        let is_alike = match &self.file.engine {
            Some(engine) => {
                engine.count() == self.count && are_alike(engine.memory(), &self.plain)
            }
            None => false,
        };
        said.check(is_alike)
    }
}
