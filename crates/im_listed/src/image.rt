//! An image in the hands of a caller that carries out the writes and syncs.
ghost use Rattle.std.specs.Prelude.{◌≡◌, true, false, [], ◌∷◌, map, replicate, IfOk, IfErr, Err};
ghost use Rattle.im_types.specs.Types.{empty_contents, layout_in_use, sizes_of, image_length};
ghost use Rattle.{im_disk.specs.Since.LeavesNow, im_checkpoint.specs.Step.NoCheckpoint};
ghost use Rattle.im_engine.specs.Answered.{Answered, SweepAnswered, TurnAnswered};
ghost use Rattle.im_engine.specs.State.{IsFound, MeansEither, MeansState, with_command};
ghost use Rattle.im_listed.specs.{History.given, Listing.Accounts, Listing.carried, Listing.Settles, Listing.task_of};
ghost use Rattle.im_listed.specs.Image.{begun_in, Carries, ImageState, IsFaultOf, IsWant, ServesFirst, steps_of};
ghost use Rattle.im_listed.specs.Image.{tells_device};

use crate::listed::Listed;
use crate::settling::{is_one_sync, settled};
use crate::step::Step;
use arrayvec::ArrayVec;
use im_checkpoint::TurnDone;
use im_engine::Engine;
use im_front::Asks;
use im_types::layout::image_length;
use im_types::{Command, Limits, MAX_GROUP, Outcome, Refusal, Served};
use std::alloc::Global;
use std::marker::Model;

/// An image in the hands of a caller that carries out the writes and syncs: an engine over [`Listed`], and the queue of
/// what is asked of it.
///
/// After each call the caller carries out [`Image::steps`] on its file, in order, and only then tells the answer. The
/// list begins where the last call's ended. A caller that can't carry out a step calls [`Image::lose`].
#[derive(Drop)]
pub struct Image {
    pub(crate) engine: Engine<Listed>,
    pub(crate) lost: bool,
    pub(crate) asks: Asks,
}

impl Model for Image {
    ghost use Rattle.im_listed.specs.Image.{AheadComesFirst, ImageState};

    ghost Value = { ImageState };

    ghost view = { λ i. record { engine = i.engine; lost = i.lost; asked = i.asks } };

    ghost invariant = { λ i. AheadComesFirst i.engine i.lost i.asks };
}

// Returns whether the answer says that a call of the disk failed.
fn tells_device<T>(answer: &Result<T, Refusal>) -> bool
    ensures { result ≡ tells_device answer.now }
{
    matches!(answer, Err(Refusal::Device))
}

// What is known of an engine over a list.
pub(crate) fn known(engine: &Engine<Listed>) -> bool
    ensures failed { result ≡ engine.now.failed }
    ensures account { Accounts engine.now.disk }
    ensures means { engine.now.failed ≡ false → LeavesNow engine.now.disk.now (MeansState engine.now) }
{
    let _ = engine.disk().steps();
    engine.failed()
}

impl Image {
    /// Makes the image of an empty memory. The caller's file has the image's length, and each of its bytes is in doubt.
    ///
    /// Returns `NoMemory` if there isn't room for all that it needs, and `Device` if the list couldn't grow.
    pub fn format(alloc: Global, limits: Limits) -> Result<Image, Refusal>
        ensures empty { IfOk result (λ i. (i.engine.memory ≡ empty_contents limits.cells limits.elements)
            × (i.engine.count ≡ 0) × (i.engine.room ≡ limits.slots)) }
        ensures carried { IfOk result (λ i. i.engine.disk.now
            ≡ carried (given (replicate (image_length layout_in_use (sizes_of limits)) 0)) (steps_of i)) }
        ensures means { IfOk result (λ i. LeavesNow i.engine.disk.now (MeansState i.engine)) }
        ensures works { IfOk result (λ i. i.lost ≡ false) }
        ensures none { IfOk result (λ i. i.asked ≡ []) }
        ensures only { IfErr result IsWant }
    {
        let Ok(bytes) = vec![in alloc; 0; image_length(limits)] else {
            return Err(Refusal::NoMemory);
        };
        match Engine::format(alloc, Listed::new(bytes), limits) {
            Ok(engine) => {
                let _ = known(&engine);
                Ok(Image {
                    engine,
                    lost: false,
                    asks: Asks::new(),
                })
            }
            Err((refusal, _)) => Err(refusal),
        }
    }

    /// Opens the image of these bytes. They are the bytes of the caller's file, each of them in doubt.
    ///
    /// The one step is a sync: no byte of the file changes, and a crash on the way leaves what it could have left
    /// before.
    ///
    /// Refuses with the bytes' first fault, as [`Engine::open`], `NoMemory`, or `Device` if the list couldn't grow.
    pub fn open(alloc: Global, bytes: Vec<u8>) -> Result<Image, Refusal>
        ensures kept { IfOk result (λ i. i.engine.disk.now.bytes ≡ bytes.items) }
        ensures reads { IfOk result (λ i. steps_of i ≡ Settles ∷ []) }
        ensures carried { IfOk result (λ i. i.engine.disk.now ≡ carried (given bytes.items) (steps_of i)) }
        ensures found { IfOk result (λ i. LeavesNow i.engine.disk.now (IsFound i.engine)) }
        ensures means { IfOk result (λ i. LeavesNow i.engine.disk.now (MeansState i.engine)) }
        ensures idle { IfOk result (λ i. (i.engine.step ≡ NoCheckpoint) × (i.asked ≡ [])) }
        ensures works { IfOk result (λ i. i.lost ≡ false) }
        ensures fault { IfErr result (IsFaultOf bytes.items) }
    {
        // The engine's own sync then finds nothing in doubt. So what it reads is the bytes themselves.
        let Ok(disk) = settled(bytes) else {
            return Err(Refusal::Device);
        };
        match Engine::open(alloc, disk) {
            Ok(engine) => {
                let _ = known(&engine);
                if !is_one_sync(engine.disk().steps()) {
                    return Err(Refusal::Device); // It always is: an opening writes nothing.
                }
                Ok(Image {
                    engine,
                    lost: false,
                    asks: Asks::new(),
                })
            }
            Err((refusal, _)) => Err(refusal), // The bytes' own.
        }
    }

    /// Returns the steps that the caller has to carry out on its file after the last call, in this order, before
    /// anybody is told the answer. There are none after a call that returned `Device`.
    pub fn steps(&self) -> &[Step]
        ensures { map task_of result.now ≡ steps_of self.now }
    {
        if self.lost {
            &[]
        } else {
            self.engine.disk().steps()
        }
    }

    /// Empties the list of steps. Each call of `serve`, `serve_commands`, `advance`, `turn` and `sweep` does so first.
    pub fn forget_steps(&mut self)
        ensures { self.new ≡ record self.old { engine = begun_in self.old } }
    {
        self.engine.empty_list();
    }

    /// Says that the caller couldn't carry out a step. Each later call returns `Device`.
    pub fn lose(&mut self)
        ensures { self.new ≡ record self.old { lost = true } }
    {
        self.lost = true;
    }

    /// Serves one command, as [`Engine::serve`] does. Returns `Device` if the list couldn't grow or a step was lost.
    pub fn serve(&mut self, command: &Command) -> Result<Outcome, Refusal>
        ensures lost { self.old.lost ≡ true → (result ≡ Err Refusal.Device) × (self.new ≡ self.old) }
        ensures asked { self.new.asked ≡ self.old.asked }
        ensures works { self.old.lost ≡ false → self.old.engine.failed ≡ false }
        ensures answered { self.old.lost ≡ false → Answered (begun_in self.old) command.now result self.new.engine }
        // On the way the file means the memory before the command or after it, and at the end what was answered.
        ensures carried { self.old.lost ≡ false
            → Carries self.old.engine.disk.now self.new
            (MeansEither (begun_in self.old) (with_command (begun_in self.old) command.now)) }
    {
        if self.lost {
            return Err(Refusal::Device);
        }
        let _ = known(&self.engine);
        self.engine.empty_list();
        let answer = self.engine.serve(command);
        let _ = known(&self.engine);
        self.lost = tells_device(&answer);
        answer
    }

    /// Serves commands together, as [`Engine::serve_commands`] does: the first of them, as many as there are answers,
    /// and at least one if there is any. The others are untouched, and are put again. Those that are served are all
    /// refused with `Device` if the list couldn't grow. If a step was lost, nobody is answered.
    pub fn serve_commands(
        &mut self,
        members: &ArrayVec<Command, MAX_GROUP>,
        served: &mut ArrayVec<Served, MAX_GROUP>,
    )
        requires empty { served.old.items ≡ [] }
        ensures lost { self.old.lost ≡ true → (served.new.items ≡ []) × (self.new ≡ self.old) }
        ensures asked { self.new.asked ≡ self.old.asked }
        ensures works { self.old.lost ≡ false → self.old.engine.failed ≡ false }
        // How many are served, their answers, and what the file means on the way.
        ensures served { self.old.lost ≡ false
            → ServesFirst self.old members.now.items served.new.items self.new }
    {
        if self.lost {
            return;
        }
        let _ = known(&self.engine);
        self.engine.empty_list();
        self.engine.serve_commands(members, served);
        self.lost = known(&self.engine); // A step of the group couldn't be listed.
    }

    /// Makes one checkpoint turn, like [`Engine::turn`]. Returns `Device` if a step couldn't be listed or was lost.
    pub fn turn(&mut self) -> Result<TurnDone, Refusal>
        ensures lost { self.old.lost ≡ true → (result ≡ Err Refusal.Device) × (self.new ≡ self.old) }
        // So the answer isn't `Failed`.
        ensures asked { self.new.asked ≡ self.old.asked }
        ensures works { self.old.lost ≡ false → self.old.engine.failed ≡ false }
        ensures answered { self.old.lost ≡ false → TurnAnswered (begun_in self.old) result self.new.engine }
        // On the way the file means the same memory.
        ensures carried { self.old.lost ≡ false
            → Carries self.old.engine.disk.now self.new (MeansState (begun_in self.old)) }
    {
        if self.lost {
            return Err(Refusal::Device);
        }
        let _ = known(&self.engine);
        self.engine.empty_list();
        let answer = self.engine.turn();
        self.lost = known(&self.engine);
        answer
    }

    /// Sweeps at most `most` slots, like [`Engine::sweep`]. Returns `Device` if a step couldn't be listed or was lost.
    pub fn sweep(&mut self, most: u32) -> Result<u32, Refusal>
        ensures lost { self.old.lost ≡ true → (result ≡ Err Refusal.Device) × (self.new ≡ self.old) }
        ensures asked { self.new.asked ≡ self.old.asked }
        ensures works { self.old.lost ≡ false → self.old.engine.failed ≡ false }
        ensures answered { self.old.lost ≡ false → SweepAnswered (begun_in self.old) most result self.new.engine }
        ensures carried { self.old.lost ≡ false
            → Carries self.old.engine.disk.now self.new (MeansState (begun_in self.old)) }
    {
        if self.lost {
            return Err(Refusal::Device);
        }
        let _ = known(&self.engine);
        self.engine.empty_list();
        let answer = self.engine.sweep(most);
        self.lost = known(&self.engine);
        answer
    }
}
