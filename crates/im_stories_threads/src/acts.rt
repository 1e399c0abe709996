//! Acts: what is done with a new controller, which gets a name, and what is told of it.

ghost use Rattle.im_controller.specs.Kept.{IsOriginOf};

use crate::casts::Cast;
use crate::plans::{Planned, tell_planned};
use crate::plays::Play;
use crate::scenes::tell_scene;
use crate::stops::tell_stop;
use im_controller::{Name, Opening, finish};
use im_disk::{Crash, Disk, FuseDisk};
use im_serving::Host;
use im_session::Session;
use im_story::Saying;
use im_story_disk::{STEADY, StoryFile, begin_session};
use im_types::Limits;
use std::alloc::Global;
use std::marker::Brand;

/// How many cells, elements and slots a memory has.
pub type Sizes = (u32, u16, u32);

/// What is done with a controller.
#[derive(Clone, Copy)]
pub enum Act<'a> {
    /// Plays a scene.
    Plays(&'a Play),
    /// Lets servers of a memory of these sizes be stopped by their disk, which then crashes.
    Stops(Sizes, Crash),
    /// Serves requests under a plan.
    Serves(Planned),
}

/// Returns these sizes as limits, if they are allowed.
pub fn limits_of(sizes: Sizes) -> Option<Limits> {
    let (cells, elements, slots) = sizes;
    Limits::new(cells, elements, slots)
}

/// Makes a new memory on a disk that never fails.
pub fn new_memory(alloc: Global, sizes: Sizes) -> Option<Session<FuseDisk>> {
    let limits = limits_of(sizes)?;
    let mut file = StoryFile::new(alloc);
    let _begun = file.begin(limits, STEADY);
    begin_session(file.engine.take()?).ok()
}

// Does an act with a controller that has a name, ends it, and tells of both.
fn act_named<K: Name + Send + Sync, R: Host>(
    rt: &R,
    alloc: Global,
    act: Act,
    opening: Opening<FuseDisk>,
) -> Saying
    requires origin { IsOriginOf ⟦<FuseDisk as Disk>⟧ opening K.origin }
{
    let controller = opening.named::<K>();
    let mut cast = Cast {
        rt,
        alloc,
        controller: &controller,
        ports: Vec::new(alloc),
        told: Vec::new(alloc),
        said: Saying::new(alloc),
    };
    match act {
        Act::Plays(play) => cast.play(play),
        Act::Stops(_, _) => cast.play_stopped(),
        Act::Serves(planned) => cast.play_planned(planned),
    }
    let (ports, told, mut said) = (cast.ports, cast.told, cast.said);
    let finished = finish(rt, controller, ports);
    match act {
        Act::Plays(play) => tell_scene(play, finished, &mut said),
        Act::Stops(sizes, crash) => tell_stop(sizes, crash, finished, told.as_slice(), &mut said),
        Act::Serves(planned) => tell_planned(planned, &finished, told.as_slice(), &mut said),
    }
    said
}

/// Does an act with a controller of its own, over the memory that was opened. Returns what is told of it.
pub fn act_on<R: Host>(rt: &R, alloc: Global, act: Act, opening: Opening<FuseDisk>) -> Saying {
    act_named::<Brand, R>(rt, alloc, act, opening)
}
