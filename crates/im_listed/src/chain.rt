//! A chain of groups from what is asked, on an image in the hands of a caller.
ghost use Rattle.std.specs.Prelude.{◌≡◌, min, true, false, [], length, take, Err};
ghost use Rattle.{im_types.specs.Types.MAX_GROUP, im_front.specs.Lists.commands_asked};
ghost use Rattle.im_listed.specs.Asking.{AnswersFirst, GoesOn, has_no_room, next_group};

use crate::image::{Image, known};
use arrayvec::ArrayVec;
use im_front::{AskedCommand, ToldAnswer};
use im_types::{Command, MAX_GROUP, Refusal};
use std::cmp::min;

// Returns the first commands of these, as many as a group has.
fn first_commands(asked: &[AskedCommand]) -> ArrayVec<Command, MAX_GROUP>
    ensures first { result.items ≡ take (length result.items) (commands_asked asked.now) }
    ensures count { length result.items ≡ min MAX_GROUP (length asked.now) }
{
    let many = min(MAX_GROUP, asked.len());
    let mut members = ArrayVec::new();
    for i in 0..many {
        members.push(asked[i].command);
    }
    members
}

impl Image {
    // Returns what can be put ahead next.
    fn next_group(&self) -> ArrayVec<Command, MAX_GROUP>
        ensures { result.items ≡ next_group self.now }
    {
        let asked = self.asks.asked();
        let ahead = self.engine.ahead().as_slice().len();
        first_commands(&asked[ahead..])
    }

    /// Lets those that are ahead act, tells them, and puts the next ones ahead that are asked, like
    /// [`Engine::advance`]. Returns how many those are. They stay asked until they are told.
    ///
    /// Returns `Device` if a step couldn't be listed, and then each that is told is refused so. If a step was lost,
    /// nobody is told.
    pub fn advance(&mut self, told: &mut ArrayVec<ToldAnswer, MAX_GROUP>) -> Result<usize, Refusal>
        requires empty { told.old.items ≡ [] }
        ensures lost { self.old.lost ≡ true
            → (result ≡ Err Refusal.Device) × (told.new.items ≡ []) × (self.new ≡ self.old) }
        ensures works { self.old.lost ≡ false → self.old.engine.failed ≡ false }
        ensures told { self.old.lost ≡ false → GoesOn self.old result told.new.items self.new }
    {
        if self.lost {
            return Err(Refusal::Device);
        }
        let _ = known(&self.engine);
        let next = self.next_group();
        self.engine.empty_list();
        let mut served = ArrayVec::new();
        let answer = self.engine.advance(&next, &mut served);
        self.lost = known(&self.engine);
        self.asks.tell(served.as_slice(), told);
        answer
    }

    /// Returns whether nothing is ahead, and there is no place for more.
    pub fn has_no_room(&self) -> bool
        ensures room { result ≡ has_no_room self.now }
        ensures works { self.now.lost ≡ false → self.now.engine.failed ≡ false }
    {
        self.engine.ahead().as_slice().is_empty() && self.engine.places() == 0
    }

    /// Answers the first that is asked alone, if there is any, where there is no place for it. A repeat is answered as
    /// before, and a command that would change the memory is refused with `JournalFull`. It leaves no step.
    pub fn answer_first(&mut self, told: &mut ArrayVec<ToldAnswer, MAX_GROUP>)
        requires empty { told.old.items ≡ [] }
        requires full { has_no_room self.old ≡ true }
        requires works { self.old.engine.failed ≡ false }
        ensures answered { AnswersFirst self.old told.new.items self.new }
    {
        let first = self.asks.group(1);
        self.engine.empty_list();
        let mut served = ArrayVec::new();
        self.engine.serve_commands(&first, &mut served);
        self.asks.tell(served.as_slice(), told);
    }
}
