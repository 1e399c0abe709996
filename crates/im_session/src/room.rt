//! Makes room in the journal for commands that come.
ghost use Rattle.std.specs.Prelude.{◌≡◌, true, IfErr, OnOk};
ghost use Rattle.im_turning.specs.Turning.{HasMadeRoom, point_of};
ghost use Rattle.im_session.specs.Serving.{IsBroken, Rests};

use crate::session::Session;
use im_checkpoint::TurnDone;
use im_disk::Disk;
use im_turning::MOST_TURNS;
use im_types::{Observer, Refusal};

impl<D: Disk> Session<D> {
    /// Takes turns of a checkpoint while there is room for fewer than `least` commands and something is left to do.
    /// At the end there is room for `least` commands, or the last turn had nothing to do, or [`MOST_TURNS`] turns were
    /// taken; a law of `im_turning` says how many are enough. The observer is told what each turn did.
    ///
    /// `Device` where a call of the disk failed, and `Failed` where one had failed before.
    pub fn make_room<O: Observer<TurnDone>>(
        &mut self,
        least: u32,
        observer: &mut O,
    ) -> Result<(), Refusal>
        ensures same { Rests self.old self.new }
        ensures works { OnOk result (self.new.engine.failed ≡ self.old.engine.failed) }
        ensures room { OnOk result (HasMadeRoom least (point_of self.old.engine) (point_of self.new.engine)) }
        ensures refused { IfErr result (λ e. IsBroken e × (self.new.engine.failed ≡ true)) }
    {
        for _turn in 0..MOST_TURNS {
            if self.engine().room() >= least {
                return Ok(());
            }
            let done = match self.turn() {
                Ok(done) => done,
                Err(refusal) => return Err(refusal),
            };
            observer.tell(done);
            if let TurnDone::Idle = done {
                return Ok(());
            }
        }
        Ok(())
    }
}
