//! The lock, and the thread that keeps checkpoints.
ghost use Rattle.std.specs.Prelude.{◌≡◌, ◌⊎◌, IfSome, IfOk, IfErr};
ghost use Rattle.im_types.specs.Types.{Commands, NoElement, IsLegal, opening};
ghost use Rattle.im_trace.specs.Lines.{counts_after, EndsIn, left_lines, line_of};
ghost use Rattle.im_trace.specs.Log.{plain, SeesAnswer, SeesReceipt};
ghost use Rattle.im_controller.specs.{Groups.CountsAnswer, Lends.IsTurnFault, Planned.TellsOf};
ghost use mathlib.Core.List.{IsPrefix};

use crate::groups::hold;
use crate::keeper::{KeeperStep, keep_once, mark_ended};
use crate::ports::Port;
use crate::shared::Shared;
use crate::sleepers::{Sleepers, make_glance, make_port, stands_for, who_is_answered, who_sleeps};
use crate::standing::Standing;
use im_disk::Disk;
use im_glass::Glance;
use im_queue::{Bell, Bells, Inbox, Turns};
use im_trace::{Name, Receipt, Shown, element_of};
use im_types::{Command, Observer, Refusal, Unobserved};
use std::sync::{Mutex, MutexGuard, Wait};

/// The lock round a session and its trace, with the queue before the lock and an inbox that has a lock of its own. It
/// has a bell for each port that waits for an answer, and one for the thread that keeps checkpoints.
///
/// Threads take the lock in the queue's order. No thread holds it while it waits for the queue or for a bell, and a
/// bell is rung after the lock is released. No thread asks for another lock while it holds the inbox's lock.
///
/// [`finish`](crate::finish) ends it; it is never dropped.
pub struct Controller<D: Disk, K: Name> {
    pub(crate) shared: Mutex<Shared<D, K>>,
    pub(crate) inbox: Mutex<Inbox>,
    pub(crate) turns: Turns,
    pub(crate) answers: Bells,
    pub(crate) work: Bell,
}

impl<D: Disk, K: Name> Controller<D, K> {
    pub(crate) fn over(
        shared: Shared<D, K>,
        inbox: Inbox,
        turns: Turns,
        answers: Bells,
    ) -> Controller<D, K> {
        Controller {
            shared: Mutex::new(shared),
            inbox: Mutex::new(inbox),
            turns,
            answers,
            work: Bell::new(),
        }
    }

    // Returns what lies under the lock, at the end.
    pub(crate) fn into_shared(self) -> Shared<D, K> {
        let Controller {
            shared,
            inbox: _,
            turns: _,
            answers: _,
            work: _,
        } = self;
        shared.into_inner()
    }

    /// Makes an element's port, which has been told no line yet. Its server is active from now on. Returns `NoElement`
    /// exactly if there is no such element or it already has its port.
    pub fn port<R: Wait>(&self, rt: &R, element: u16) -> Result<Port<K>, Refusal>
        ensures found { IfOk result (λ p. (p.element ≡ element) × (p.told ≡ record { lines = 0; marked = 0 })) }
        ensures refused { IfErr result (λ e. e ≡ NoElement) }
    {
        let mut guard = self.shared.lock(rt);
        let port = make_port(&mut *guard, element);
        let _lock = MutexGuard::unlock(guard);
        port
    }

    /// Makes an element's glance, which has seen the full cells of the memory that was opened. A glance reads the full
    /// cells and waits for nobody. Returns `NoElement` if there is no such element or it already has its glance.
    pub fn glance<R: Wait>(&self, rt: &R, element: u16) -> Result<Glance<Shown<K>>, Refusal>
        ensures found { IfOk result (λ g. IsPrefix (opening K.origin.memory) g) }
        ensures refused { IfErr result (λ e. e ≡ NoElement) }
    {
        let mut guard = self.shared.lock(rt);
        let glance = make_glance(&mut *guard, element);
        let _lock = MutexGuard::unlock(guard);
        match glance {
            Some(glance) => Ok(glance),
            None => Err(Refusal::NoElement),
        }
    }

    /// Ends the loops of [`Controller::keep_checkpoints`] at their next holding of the lock, and changes nothing else.
    pub fn end<R: Wait>(&self, rt: &R) {
        let mut guard = self.shared.lock(rt);
        mark_ended(&mut *guard);
        let _lock = MutexGuard::unlock(guard);
        self.work.ring(rt);
    }

    /// The loop of the thread that keeps checkpoints. It makes one turn each time it holds the lock, sleeps while there
    /// is nothing to do, and returns when the controller ends.
    ///
    /// It goes last in the queue, so it makes its turns while no port asks. If the journal is short of room, whoever is
    /// about to lend the engine makes room in its place. It is short of room if it has less than one group takes, or
    /// than is asked for, but not if half of its slots are free. If the keeper has its turn in the queue then, it keeps
    /// that turn.
    ///
    /// Returns `Device` if a call of the disk failed in its turn, and `Failed` if an earlier one did.
    pub fn keep_checkpoints<R: Wait>(&self, rt: &R) -> Result<(), Refusal>
        ensures only { IfErr result IsTurnFault }
    {
        self.keep_checkpoints_and_tell(rt, &mut Unobserved)
    }

    /// Does what [`Controller::keep_checkpoints`] does, and also tells an observer how things stand. It tells after
    /// each turn before which the observer listened, except after one after which the keeper keeps its turn in the
    /// queue.
    pub fn keep_checkpoints_and_tell<O: Observer<Standing>, R: Wait>(
        &self,
        rt: &R,
        observer: &mut O,
    ) -> Result<(), Refusal>
        ensures only { IfErr result IsTurnFault }
    {
        let mut listens = observer.listens();
        let mut turn = self.turns.wait_to_keep(rt);
        for _ in rt.forever() {
            let mut guard = self.shared.lock(rt);
            let kept = keep_once(&mut *guard);
            let standing = stands_for(&*guard, listens);
            // Read before the lock is let go: whoever changes something after this rings later.
            let seen = self.work.read(rt);
            let _lock = MutexGuard::unlock(guard);
            if matches!(kept, Ok(KeeperStep::Pressed)) {
                continue;
            }
            self.turns.pass_on(rt, turn, &[]);
            if let Some(standing) = standing {
                observer.tell(standing);
            }
            match kept {
                Ok(KeeperStep::Ended) => return Ok(()),
                Ok(KeeperStep::Worked) | Ok(KeeperStep::Pressed) => {}
                Ok(KeeperStep::Idle) => self.work.wait_past(rt, seen),
                Err(refusal) => {
                    self.answers.ring_all(rt);
                    return Err(refusal);
                }
            }
            listens = observer.listens();
            turn = self.turns.wait_to_keep(rt);
        }
        unreachable!()
    }

    // Wakes the sleepers.
    pub(crate) fn wake<R: Wait>(&self, rt: &R, sleepers: Sleepers) {
        if sleepers.keeper {
            self.work.ring(rt);
        }
        self.answers.ring(rt, sleepers.ports.as_slice());
    }

    // Serves a port's command: it asks, and holds the lock until there is an answer.
    pub(crate) fn serve<R: Wait>(
        &self,
        rt: &R,
        port: &mut Port<K>,
        command: &Command,
    ) -> Result<Receipt<K>, Refusal>
        ensures asked { IfOk result (λ r. r.command ≡ command.now) }
        ensures planned { TellsOf K.origin.memory K.origin.plan result }
        ensures legal { IfOk result (λ r. IsLegal K.origin.memory r.history) }
        ensures last { IfOk result (λ r. EndsIn r.history (line_of (Commands r.command) (plain result))) }
        ensures counts { port.new.told
            ≡ counts_after K.origin.marks port.old.told (left_lines (Commands command.now) (plain result)) }
        ensures order { SeesReceipt port.old.history command.now result port.new.history }
        ensures element { port.new.element ≡ port.old.element }
    {
        self.inbox.lock(rt).ask(command);
        for _ in rt.forever() {
            if let Some(answer) = self.serve_all(rt, port, command) {
                return answer;
            }
        }
        unreachable!()
    }

    // Holds the lock once, in the queue's order, for a port that has asked. Returns the answer to its command, if there
    // is one.
    fn serve_all<R: Wait>(
        &self,
        rt: &R,
        port: &mut Port<K>,
        command: &Command,
    ) -> Option<Result<Receipt<K>, Refusal>>
        ensures holds { CountsAnswer K.origin.marks port.old.told command.now result port.new.told }
        ensures planned { IfSome result (TellsOf K.origin.memory K.origin.plan) }
        ensures order { SeesAnswer port.old.history command.now result port.new.history }
        ensures element { port.new.element ≡ port.old.element }
    {
        let turn = self.turns.wait(rt, element_of(command) as usize);
        let mut guard = self.shared.lock(rt);
        let answer = hold(rt, &mut *guard, &self.inbox, port, command);
        let sleepers = who_sleeps(&mut *guard);
        let answered = who_is_answered(&*guard);
        let _lock = MutexGuard::unlock(guard);
        self.turns.pass_on(rt, turn, answered.as_slice());
        self.wake(rt, sleepers);
        answer
    }
}
