//! A dialogue, and the groups of commands that it serves.
//!
//! A command is asked of the front, and its answer waits for those ahead of it.
ghost use Rattle.std.specs.Prelude.{◌≡◌, ◌<◌, true, List, [], length, IfOk, OnOk, Some};
ghost use Rattle.im_turning.specs.Turning.{IsSpent, point_of};
ghost use Rattle.{im_session.specs.Kept.Kept, im_front.specs.declared.asks.TheConstants.MOST_ASKED};
ghost use Rattle.im_dialogue.specs.declared.asking.Question.TheVariants.{Serve};
ghost use Rattle.im_dialogue.specs.Together.{AreAsked, LineAsksFor};

use crate::drafts::Drafts;
use crate::watching::make_nows;
use arrayvec::ArrayVec;
use im_damage::Damage;
use im_disk::Disk;
use im_front::{Front, MOST_ASKED};
use im_session::Session;
use im_text::Reason;
use im_types::{Command, MAX_GROUP, Refusal, Unobserved};
use std::alloc::Global;

/// The setting of a dialogue.
#[derive(Clone, Copy, Debug, PartialEq, Eq)]
pub struct Setting {
    /// Whether it is watched: a request that waited is told when its answer comes.
    pub watch: bool,
    /// How many slots the journal of the image has.
    pub slots: u32,
}

/// A dialogue: the front by which it is held, its setting, where memory comes from, and the number of the next line.
#[derive(Drop)]
pub struct Dialogue<D: Disk> {
    /// The session, and what is asked of it.
    pub front: Front<D>,
    /// The setting.
    pub setting: Setting,
    /// Where memory comes from.
    pub alloc: Global,
    pub(crate) number: u64,
    // Whether a whole line stands in the reader's buffer.
    pub(crate) more: bool,
    pub(crate) drafts: Drafts,
}

impl<D: Disk> Dialogue<D> {
    ghost use Rattle.std.specs.Prelude.{string_bytes};
    ghost use Rattle.im_dialogue.specs.{Backups.Backup, Serving.TalksLine, Serving.TalksWithin};

    /// Begins a dialogue with a session. It has served no line.
    pub fn new(alloc: Global, session: Session<D>, setting: Setting) -> Dialogue<D>
        ensures session { result.front.session ≡ session }
        ensures asked { result.front.asked ≡ [] }
        ensures setting { result.setting ≡ setting }
        ensures told { string_bytes result.drafts.draft.text ≡ [] }
    {
        Dialogue {
            front: Front::of(session),
            setting,
            alloc,
            number: 1,
            more: false,
            drafts: Drafts::new(alloc),
        }
    }

    /// Ends the dialogue, and gives the session's disk back.
    pub fn close(self) -> D
        ensures disk { result ≡ self.front.session.engine.disk }
        ensures kept { Kept D.Disk self.front.session }
    {
        let Dialogue {
            front,
            setting: _,
            alloc: _,
            number: _,
            more: _,
            drafts: _,
        } = self;
        front.into_session().close()
    }

    // Serves the first commands that are asked as one group, and tells their answers.
    fn serve_group(&mut self) -> Result<(), Reason>
        requires some { 0 < length self.old.front.asked }
        requires asked { AreAsked self.old.front.asked }
        requires spent { self.old.front.session.engine.room ≡ 0 → IsSpent (point_of self.old.front.session.engine) }
        ensures talks { TalksWithin self.old self.new result }
        ensures asked { AreAsked self.new.front.asked }
        ensures less { OnOk result (length self.new.front.asked < length self.old.front.asked) }
        ensures same { self.new.setting ≡ self.old.setting }
        ensures line { self.new.drafts.line ≡ self.old.drafts.line }
    {
        let _places = self.front.engine().places(); // So that it is known that the count isn't past the last one.
        // Those that wait are looked up before the commands act, which resume them.
        let most = match make_nows(
            self.alloc,
            self.front.memory(),
            self.setting.watch,
            self.front.asked(),
            &mut self.drafts.nows,
        ) {
            Ok(most) => most,
            Err(_) => return Err(Reason::Memory),
        };
        let mut told = ArrayVec::new();
        // A crash in this call leaves on the disk all that the group puts there, or nothing of it. No answer is given
        // before.
        self.front.advance(most, &mut told);
        if self.front.engine().failed() {
            return Err(Reason::Image(Refusal::Device, Damage::Unknown));
        }
        let nows = self.drafts.nows.as_slice();
        match self
            .drafts
            .draft
            .say_all(self.front.memory(), told.as_slice(), nows)
        {
            Ok(()) => Ok(()),
            Err(_) => Err(Reason::Memory),
        }
    }

    // Makes room for the first commands that are asked, and serves them.
    fn advance(&mut self) -> Result<(), Reason>
        requires some { 0 < length self.old.front.asked }
        requires asked { AreAsked self.old.front.asked }
        ensures talks { TalksWithin self.old self.new result }
        ensures asked { AreAsked self.new.front.asked }
        ensures less { OnOk result (length self.new.front.asked < length self.old.front.asked) }
        ensures same { self.new.setting ≡ self.old.setting }
        ensures line { self.new.drafts.line ≡ self.old.drafts.line }
    {
        match self.front.make_room(&mut Unobserved) {
            Ok(()) => self.serve_group(),
            Err(refusal) => Err(Reason::Image(refusal, Damage::Unknown)),
        }
    }

    // Serves all that is asked, group after group.
    pub(crate) fn drain(&mut self) -> Result<(), Reason>
        requires asked { AreAsked self.old.front.asked }
        ensures talks { TalksWithin self.old self.new result }
        ensures none { OnOk result (self.new.front.asked ≡ []) }
        ensures same { self.new.setting ≡ self.old.setting }
        ensures line { self.new.drafts.line ≡ self.old.drafts.line }
    {
        let _full = self.front.is_full(); // So that it is known how many are asked at most.
        for _group in 0..MOST_ASKED {
            if self.front.asked().is_empty() {
                return Ok(());
            }
            match self.advance() {
                Ok(()) => {}
                Err(reason) => return Err(reason),
            }
        }
        Ok(())
    }

    // Serves all that is asked if it is a group.
    fn make_place(&mut self) -> Result<(), Reason>
        requires asked { AreAsked self.old.front.asked }
        ensures talks { TalksWithin self.old self.new result }
        ensures asked { OnOk result (AreAsked self.new.front.asked) }
        ensures room { OnOk result (length self.new.front.asked < MOST_ASKED) }
        ensures same { self.new.setting ≡ self.old.setting }
    {
        if self.front.asked().len() < MAX_GROUP {
            return Ok(());
        }
        self.drain()
    }

    // Asks for the command of a line. It is served with those behind it, or once a line needs its answer.
    pub(crate) fn ask(&mut self, command: &Command) -> Result<bool, Reason>
        requires line { LineAsksFor (Serve command.now) }
        requires asked { AreAsked self.old.front.asked }
        ensures talks { (kept : List Backup)
            → TalksLine (Some (Serve command.now)) self.old kept self.new kept result }
        ensures asked { OnOk result (AreAsked self.new.front.asked) }
        ensures goes { IfOk result (λ goes_on. goes_on ≡ true) }
        ensures same { self.new.setting ≡ self.old.setting }
    {
        match self.make_place() {
            Ok(()) => {
                self.front.submit(0, command);
                Ok(true)
            }
            Err(reason) => Err(reason),
        }
    }

    // Serves all that is asked, unless a whole line is there to be read.
    pub(crate) fn settle(&mut self) -> Result<(), Reason>
        requires asked { AreAsked self.old.front.asked }
        ensures talks { TalksWithin self.old self.new result }
        ensures asked { OnOk result (AreAsked self.new.front.asked) }
        ensures same { self.new.setting ≡ self.old.setting }
    {
        if self.more {
            return Ok(());
        }
        self.drain()
    }
}
