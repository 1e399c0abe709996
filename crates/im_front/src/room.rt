//! Makes room in the journal for a group.
ghost use Rattle.std.specs.Prelude.{◌≡◌, min, true, length, IfErr, OnOk};
ghost use Rattle.{im_types.specs.Types.MAX_GROUP, im_session.specs.Serving.IsBroken};
ghost use Rattle.im_turning.specs.Turning.{HasMadeRoom, point_of};
ghost use Rattle.im_front.specs.State.{FrontRests};

use crate::front::Front;
use im_checkpoint::TurnDone;
use im_disk::Disk;
use im_types::{MAX_GROUP, Observer, Refusal};
use std::cmp::min;

impl<D: Disk> Front<D> {
    /// Makes room for the next group of what is asked, a slot for each of its commands, as [`Session::make_room`] does.
    /// Nothing is put and nothing is told. It takes no turn if there is room. The observer is told what each turn did.
    ///
    /// `Device` where a call of the disk failed, and `Failed` where one had failed before.
    pub fn make_room<O: Observer<TurnDone>>(&mut self, observer: &mut O) -> Result<(), Refusal>
        ensures same { FrontRests self.old self.new }
        ensures works { OnOk result (self.new.session.engine.failed ≡ self.old.session.engine.failed) }
        ensures room { OnOk result (HasMadeRoom (min MAX_GROUP (length self.old.asked))
            (point_of self.old.session.engine) (point_of self.new.session.engine)) }
        ensures refused { IfErr result (λ e. IsBroken e × (self.new.session.engine.failed ≡ true)) }
    {
        let least = min(MAX_GROUP, self.asks.asked().len());
        self.session.make_room(least as u32, observer)
    }
}
