//! Does what a line asks that is no command.
ghost use Rattle.std.specs.Prelude.{◌≡◌, ◌≤◌, true, ◌++◌, IfOk, OnOk, Some, None};
ghost use Rattle.im_front.specs.State.{FrontRests};
ghost use Rattle.im_dialogue.specs.{Asking.question_command, declared.look.Look.Look};
ghost use Rattle.im_dialogue.specs.declared.asking.Question.TheVariants.{Backup, Count, Room, Turn, Window};
ghost use Rattle.im_dialogue.specs.Talk.{about_of, AnswersOrHalts, backup_by, BreaksOff, KeepsAnswered, KeepsNone};
ghost use Rattle.im_dialogue.specs.Talk.{OnlyTurned, SaysNow, SaysOrHalts};
ghost use Rattle.im_dialogue.specs.declared.answers.LineAnswer.TheVariants as answer;

use crate::about::About;
use crate::answers::LineAnswer;
use crate::asking::Question;
use crate::backup_name::BackupName;
use crate::backups::Backups;
use im_checkpoint::TurnDone;
use im_disk::Disk;
use im_engine::Engine;
use im_front::Front;
use im_listening::Ear;
use im_script::LineFault;
use im_turning::MOST_TURNS;
use im_types::Refusal;
use im_types::layout::Version;

/// Takes turns of a checkpoint while nothing is heard, there is room for fewer than `least` commands, and something is
/// left to do. It does nothing if there is room for `least` commands, or if a read never waits. Returns `Device` if a
/// call of the disk failed, or `Failed` if one had failed before. Nothing is said by it.
pub(crate) fn turn_while_quiet<D: Disk, E: Ear>(
    front: &mut Front<D>,
    ear: &mut E,
    least: u32,
) -> Result<(), Refusal>
    ensures same { FrontRests front.old front.new }
    ensures turned { OnOk result (OnlyTurned front.old.session front.new.session) }
    ensures enough { least ≤ front.old.session.engine.room → front.new ≡ front.old }
    ensures ready { E.is_ready ear.old ≡ true → front.new ≡ front.old }
    ensures kept { E.remaining ear.new ≡ E.remaining ear.old }
{
    for _turn in 0..MOST_TURNS {
        if front.engine().room() >= least || !ear.is_quiet() {
            return Ok(());
        }
        // A crash in this call leaves the memory as it is.
        let done = match front.turn() {
            Ok(done) => done,
            Err(refusal) => return Err(refusal),
        };
        if let TurnDone::Idle = done {
            return Ok(());
        }
    }
    Ok(())
}

// Takes a turn, and returns what it did as an answer. It is refused only if a call of the disk failed.
fn turn<D: Disk>(front: &mut Front<D>) -> Result<LineAnswer, Refusal>
    ensures answered { SaysOrHalts front.old.session front.new.session (Some Turn) result }
    ensures asked { front.new.asked ≡ front.old.asked }
    ensures same { IfOk result (λ answer. KeepsNone answer) }
    ensures refused { BreaksOff result front.new.session }
{
    // A crash in this call leaves the memory as it is.
    match front.turn() {
        Ok(done) => Ok(LineAnswer::Turned(done)),
        Err(refusal) => Err(refusal),
    }
}

// Returns an element's window, as an answer.
fn window<D: Disk>(front: &Front<D>, element: u16) -> LineAnswer
    ensures answered { SaysNow front.now.session (Some (Window element)) result }
    ensures same { KeepsNone result }
{
    LineAnswer::Window(element, front.engine().window(element))
}

// Returns how many commands were accepted, as an answer.
fn count<D: Disk>(front: &Front<D>) -> LineAnswer
    ensures answered { SaysNow front.now.session (Some Count) result }
    ensures same { KeepsNone result }
{
    LineAnswer::Count(front.engine().count())
}

// Returns how many more commands there is room for, as an answer.
fn room<D: Disk>(front: &Front<D>) -> LineAnswer
    ensures answered { SaysNow front.now.session (Some Room) result }
    ensures room { result ≡ answer.Room front.now.session.engine.room }
{
    LineAnswer::Room(front.engine().room())
}

// Returns what the image is and how far it has come, as an answer. `slots` is how many slots its journal has.
fn about<D: Disk>(engine: &Engine<D>, slots: u32) -> LineAnswer
    ensures { result ≡ answer.About (about_of engine.now.memory slots engine.now.count engine.now.room) }
{
    let memory = engine.memory();
    LineAnswer::About(About {
        version: Version::Two.number(),
        cells: memory.cells(),
        elements: memory.elements(),
        slots,
        count: engine.count(),
        room: engine.room(),
    })
}

// Keeps a copy of the image, and returns the answer. `slots` is how many slots the journal has.
fn keep<D: Disk, B: Backups>(
    front: &Front<D>,
    backups: &mut B,
    slots: u32,
    name: BackupName,
) -> LineAnswer
    ensures answered { SaysNow front.now.session (Some (Backup name)) result }
    ensures kept { B.kept backups.new ≡ backup_by front.now.session.engine.memory result ++ B.kept backups.old }
{
    let count = front.engine().count();
    match backups.keep(front.memory(), slots, count, name) {
        Ok(()) => LineAnswer::Backup(name, Ok(count)),
        Err(fault) => LineAnswer::Backup(name, Err(fault)),
    }
}

/// Returns the answer to a line that isn't in the grammar: its number, and where it goes wrong.
pub(crate) fn wrong<D: Disk>(front: &Front<D>, number: u64, fault: LineFault) -> LineAnswer
    ensures answered { SaysNow front.now.session None result }
    ensures answer { result ≡ answer.Wrong number fault }
{
    LineAnswer::Wrong(number, fault)
}

/// Does what a line asks that is no command, and returns the answer. Returns `None` if that ends the dialogue. The
/// answer to a line that only looks is what the memory shows then ([`crate::add_answer`]). `room` and `about` tell the
/// engine's room, and `turn` the turn that was taken. `slots` is how many slots the journal has.
///
/// A backup is kept of the memory as it is, with the count of its commands. Each other line leaves the backups as they
/// are.
///
/// Returns `Device` if a call of the disk failed, or `Failed` if one had failed before, and nothing else. What was said
/// before stays.
pub(crate) fn answer<D: Disk, B: Backups>(
    front: &mut Front<D>,
    backups: &mut B,
    slots: u32,
    asked: Question,
) -> Result<Option<LineAnswer>, Refusal>
    requires other { question_command (Some asked) ≡ None }
    ensures answered { AnswersOrHalts front.old.session front.new.session asked result }
    ensures asked { front.new.asked ≡ front.old.asked }
    ensures same { (look : Look) → asked ≡ Question.Look look → front.new ≡ front.old }
    ensures kept { KeepsAnswered front.old.session.engine.memory (B.kept backups.old) (B.kept backups.new) result }
    ensures refused { BreaksOff result front.new.session }
{
    match asked {
        Question::Serve(_command) => Ok(None), // It is no command.
        Question::Turn => match turn(front) {
            Ok(answer) => Ok(Some(answer)),
            Err(refusal) => Err(refusal),
        },
        Question::Look(look) => Ok(Some(LineAnswer::Looked(look))),
        Question::Window(element) => Ok(Some(window(front, element))),
        Question::Room => Ok(Some(room(front))),
        Question::Count => Ok(Some(count(front))),
        Question::About => Ok(Some(about(front.engine(), slots))),
        Question::Backup(name) => Ok(Some(keep(front, backups, slots, name))),
        Question::Quit => Ok(None),
    }
}
