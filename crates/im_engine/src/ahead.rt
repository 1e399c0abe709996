//! The group ahead of an engine: its commands are on the disk behind a closed gate, and none of its members has acted.
ghost use Rattle.std.specs.Prelude.{◌≡◌, ◌≤◌, true, false, [], length, take, ◌==◌};
ghost use Rattle.{im_types.specs.Types.MAX_GROUP, im_journal.specs.Holding.ahead_after};
ghost use Rattle.im_engine.specs.{Chain.laid_of, Commands.each_refused};

use crate::groups::refuse_all;
use arrayvec::ArrayVec;
use im_types::{Command, MAX_GROUP, Refusal, Served};

/// The members of a group, and what was judged of them.
#[derive(Drop)]
pub(crate) struct GroupAhead {
    pub(crate) members: ArrayVec<Command, MAX_GROUP>,
    /// Whether they were judged to take places, all of them. Then the lists below say nothing.
    pub(crate) whole: bool,
    /// The commands of those that take places.
    pub(crate) commands: ArrayVec<Command, MAX_GROUP>,
    /// Of each member whether it takes a place.
    pub(crate) taken: ArrayVec<bool, MAX_GROUP>,
}

/// The next members of a chain, as they were judged behind the group ahead.
#[derive(Clone, Copy)]
pub(crate) struct Coming<'a> {
    pub(crate) next: &'a [Command],
    /// How many of them are judged, from the first on.
    pub(crate) many: usize,
    /// The commands of those that take places.
    pub(crate) commands: &'a ArrayVec<Command, MAX_GROUP>,
    /// If these aren't all, of each whether it takes a place.
    pub(crate) taken: &'a [bool],
}

/// Copies members. (Own.)
pub fn copy_members(members: &[Command], copies: &mut ArrayVec<Command, MAX_GROUP>)
    requires fits { length members.now ≤ MAX_GROUP }
    requires empty { copies.old.items ≡ [] }
    ensures { copies.new.items ≡ members.now }
{
    let _room = copies.try_extend_from_slice(members);
}

impl<'a> Coming<'a> {
    // Whether all that are judged take places.
    fn is_whole(&self) -> bool
        ensures { result ≡ (length self.now.commands.now.items == self.now.many) }
    {
        self.commands.as_slice().len() == self.many
    }
}

impl GroupAhead {
    // No group.
    pub(crate) fn none() -> GroupAhead
        ensures members { result.members.items ≡ [] }
        ensures put { laid_of result.whole result.members.items result.commands.items ≡ [] }
    {
        GroupAhead {
            members: ArrayVec::new(),
            whole: true,
            commands: ArrayVec::new(),
            taken: ArrayVec::new(),
        }
    }

    // From now on there is none.
    pub(crate) fn forget(&mut self)
        ensures members { self.new.members.items ≡ [] }
        ensures put { laid_of self.new.whole self.new.members.items self.new.commands.items ≡ [] }
        ensures taken { self.new.taken.items ≡ self.old.taken.items }
    {
        self.members.clear();
        self.whole = true;
    }

    // From now on there is none, if these commands are any: they were put where its own are.
    pub(crate) fn forget_behind(&mut self, commands: &[Command])
        ensures members { self.new.members.items ≡ ahead_after (length commands.now) self.old.members.items }
        ensures put { let old = self.old in laid_of self.new.whole self.new.members.items self.new.commands.items
            ≡ ahead_after (length commands.now) (laid_of old.whole old.members.items old.commands.items) }
        ensures taken { self.new.taken.items ≡ self.old.taken.items }
    {
        if commands.is_empty() {
            return;
        }
        self.forget();
    }

    // How many members there are.
    pub(crate) fn many(&self) -> usize
        ensures { result ≡ length self.now.members.items }
    {
        self.members.as_slice().len()
    }

    // The commands of those that take places.
    pub(crate) fn put(&self) -> &ArrayVec<Command, MAX_GROUP>
        ensures { result.now.items ≡ laid_of self.now.whole self.now.members.items self.now.commands.items }
    {
        if self.whole {
            return &self.members;
        }
        &self.commands
    }

    // Answers each member with this refusal.
    pub(crate) fn refuse(&self, refusal: Refusal, served: &mut ArrayVec<Served, MAX_GROUP>)
        requires empty { served.old.items ≡ [] }
        ensures { served.new.items ≡ each_refused refusal self.now.members.items }
    {
        refuse_all(self.members.as_slice(), refusal, served);
    }

    // Whether all members take places.
    pub(crate) fn is_whole(&self) -> bool
        ensures { result ≡ (length (laid_of self.now.whole self.now.members.items self.now.commands.items)
            == length self.now.members.items) }
    {
        self.put().as_slice().len() == self.members.as_slice().len()
    }

    // From now on the members that were judged are ahead.
    pub(crate) fn renew(&mut self, coming: &Coming)
        requires few { (length coming.now.next.now ≤ MAX_GROUP) × (length coming.now.taken.now ≤ MAX_GROUP) }
        requires within { coming.now.many ≤ length coming.now.next.now }
        requires whole { (length coming.now.commands.now.items == coming.now.many) ≡ true
            → coming.now.commands.now.items ≡ take coming.now.many coming.now.next.now }
        ensures members { self.new.members.items ≡ take coming.now.many coming.now.next.now }
        ensures put { laid_of self.new.whole self.new.members.items self.new.commands.items
            ≡ coming.now.commands.now.items }
        ensures taken { (length coming.now.commands.now.items == coming.now.many) ≡ false
            → self.new.taken.items ≡ coming.now.taken.now }
    {
        self.members.clear();
        copy_members(&coming.next[..coming.many], &mut self.members);
        let whole = coming.is_whole();
        self.whole = whole;
        if whole {
            return;
        }
        self.commands.clear();
        copy_members(coming.commands.as_slice(), &mut self.commands);
        self.taken.clear();
        let _room = self.taken.try_extend_from_slice(coming.taken);
    }
}
