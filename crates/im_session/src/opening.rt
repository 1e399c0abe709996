//! Where a session begins: at an opening of its image, or with an engine.
ghost use Rattle.std.specs.Prelude.{◌≡◌, false, ◌⊎◌, [], IfOk, IfErr};
ghost use Rattle.{im_types.specs.Types.Device, im_types.specs.Types.NoMemory, im_image.specs.Headers.MayRefuseOpening};
ghost use Rattle.im_disk.specs.{Moment.Fault, Since.LeavesNow};
ghost use Rattle.im_engine.specs.{Leaving.LeavesAsBefore, State.IsFirstFault};
ghost use Rattle.im_session.specs.{Kept.IsFresh, Kept.session_of, Kept.start_at, Opening.CanBegin};

use crate::calls::SessionCalls;
use crate::session::Session;
use im_disk::Disk;
use im_engine::Engine;
use im_memory::Memory;
use im_types::Refusal;
use std::alloc::Global;
use std::marker::Model;
use std::snapshot::Snapshot;

/// Where a session begins.
#[derive(Drop)]
pub(crate) struct StartSnapshot<D> {
    disk: Snapshot<D>,
    memory: Snapshot<Memory>,
    count: Snapshot<u64>,
}

impl<D> Model for StartSnapshot<D> {
    ghost use Rattle.im_session.specs.Kept.{SessionStart};

    ghost Value = { SessionStart D };

    ghost view = { λ s. record { disk = s.disk.value; memory = s.memory.value.contents; count = s.count.value } };
}

impl<D: Disk> Session<D> {
    /// Opens the image of a disk, as [`Engine::open`] does. The session begins with the disk as it was before, so what
    /// the opening leaves is said too.
    ///
    /// Each refusal gives the disk back.
    pub fn open(alloc: Global, disk: D) -> Result<Session<D>, (Refusal, D)>
        ensures opened { IfOk result (λ s. s.start.disk ≡ disk) }
        ensures fresh { IfOk result (λ s. IsFresh s) }
        ensures works { IfOk result (λ s. s.engine.failed ≡ false) }
        // It wasn't opened: a crash leaves nothing that it couldn't leave before.
        ensures leaves { IfErr result (λ e. LeavesAsBefore D.Disk disk e.1) }
        ensures fault { IfErr result (λ e. (e.0 ≡ NoMemory) ⊎ (e.0 ≡ Device)
            ⊎ (D.honest e.1 → LeavesNow (D.now e.1) (IsFirstFault e.0))) }
        ensures faults { IfErr result (λ e. Fault MayRefuseOpening (D.failures disk) (D.failures e.1) e.0) }
        ensures honest { IfErr result (λ e. D.honest e.1 → D.honest disk) }
    {
        let before = Snapshot::of(&disk);
        match Engine::open(alloc, disk) {
            Ok(engine) => Ok(Session::begin(before, engine)),
            Err(refused) => Err(refused),
        }
    }

    /// Begins a session with an engine that hasn't failed.
    pub fn of(engine: Engine<D>) -> Session<D>
        requires works { engine.failed ≡ false }
        ensures { result ≡ session_of (start_at engine.disk engine) [] [] engine }
    {
        let before = Snapshot::of(engine.disk());
        Session::begin(before, engine)
    }

    // Begins a session with an engine whose disk was like this before.
    fn begin(before: Snapshot<D>, engine: Engine<D>) -> Session<D>
        requires works { CanBegin D.Disk before.value engine }
        ensures { result ≡ session_of (start_at before.value engine) [] [] engine }
    {
        // So that it is known what the files left now mean.
        let _failed = engine.failed();
        let count = engine.count();
        let start = StartSnapshot {
            disk: before,
            memory: Snapshot::of(engine.memory()),
            count: Snapshot::of(&count),
        };
        Session {
            engine,
            start,
            calls: SessionCalls::new(),
        }
    }
}
