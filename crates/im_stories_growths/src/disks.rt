//! Images on disks in memory, and engines over these. If a call is refused, the disk comes back, and its bytes are the
//! same if memory was wanted.

use crate::requests::{has_first, is_refused, lacks_memory, request};
use im_image::inspect;
use im_story::Saying;
use im_story_disk::StoryFile;
use im_types::layout::image_length;
use im_types::{Command, Limits, Refusal};

/// What an engine shows besides its memory.
#[derive(Clone, Copy, PartialEq, Eq, Default)]
pub struct EngineState {
    /// The calls of its disk so far.
    pub calls: u64,
    /// The commands so far.
    pub count: u64,
    /// The room for more commands.
    pub room: u64,
    /// Whether its disk has failed.
    pub failed: bool,
}

/// Returns what the engine shows now. It is nothing if there is no engine.
pub fn state(place: &StoryFile) -> EngineState {
    let Some(engine) = &place.engine else {
        return EngineState::default();
    };
    EngineState {
        calls: engine.disk().calls(),
        count: engine.count(),
        room: u64::from(engine.room()),
        failed: engine.failed(),
    }
}

/// Returns whether the engine's memory has answered the first `many` requests, and nothing else was asked.
pub fn has_answered(place: &StoryFile, many: usize) -> bool {
    place
        .engine
        .as_ref()
        .is_some_and(|engine| has_first(engine, many))
}

/// Returns a sum by which the bytes of the disk are recognised.
pub fn sum(place: &StoryFile) -> u64 {
    let mut sum = 0u64;
    for byte in place.bytes() {
        sum = sum.wrapping_mul(31).wrapping_add(u64::from(*byte));
    }
    sum
}

/// Makes a new image of these sizes, or opens the one that is there, and again if that is refused. If memory was
/// wanted, no call of the disk was made for a new image. An opening writes nothing, however it is refused.
pub fn start(place: &mut StoryFile, new: Option<Limits>, said: &mut Saying) {
    let before = sum(place);
    if let Err(refusal) = place.start(new) {
        let is_same = sum(place) == before && (new.is_none() || place.calls == 0);
        let is_written = new.is_some() && refusal == Refusal::Device;
        is_refused(refusal, is_same || is_written, said);
        said.so(place.start(new).is_ok(), "");
    }
}

/// Makes a new image on a new disk.
pub fn format(place: &mut StoryFile, limits: Limits, said: &mut Saying) {
    let length = image_length(limits);
    if let Err(refusal) = place.blank(length) {
        lacks_memory(refusal, true, said);
        said.so(place.blank(length).is_ok(), "");
    }
    start(place, Some(limits), said)
}

// Returns whether the engine refuses everything, since its disk has failed.
fn refuses_all(place: &mut StoryFile) -> bool {
    let Some(engine) = &mut place.engine else {
        return false;
    };
    engine.serve(&Command::Request(request(0))) == Err(Refusal::Failed)
        && engine.turn() == Err(Refusal::Failed)
        && engine.collect(0, 1) == Err(Refusal::Failed)
        && engine.failed()
}

/// Opens the disk of an engine that its disk has failed.
pub fn open_again(place: &mut StoryFile, said: &mut Saying) {
    said.so(refuses_all(place), "");
    place.close();
    start(place, None, said)
}

// Returns the count and the room of the image.
fn look(place: &mut StoryFile) -> Result<(u64, u32), Refusal> {
    let mut disk = place.taken().ok_or(Refusal::NoHeader)?;
    let report = inspect(place.alloc, &mut disk);
    place.lay_down(disk);
    report.map(|it| (it.header.count.saturating_add(it.run), it.room))
}

/// Tells the same, and looks again if that is refused.
pub fn look_again(place: &mut StoryFile, said: &mut Saying) {
    let before = sum(place);
    let mut found = look(place);
    if let Err(refusal) = found {
        is_refused(refusal, sum(place) == before, said);
        found = look(place);
    }
    said.result(found, |(count, room), said| {
        write!(said, "  inspected: count {count}, room {room}\n")
    })
}
