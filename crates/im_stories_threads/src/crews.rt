//! Threads that run at once: one for each port that plays a role, one for each glance, and one that keeps checkpoints.

use crate::casts::Cast;
use crate::glances::{Looked, watch};
use crate::players::Player;
use crate::plays::Play;
use im_controller::{Controller, Name, Shown, Standing};
use im_disk::Disk;
use im_glass::Glance;
use im_serving::Host;
use im_types::Observer;
use std::alloc::Global;
use std::sync::{Mutex, Wait};
use std::thread;
use std::thread::{JoinHandle, Scope, Threads};

// How often at most it is looked whether the journal has its room.
const MOST_LOOKS: u32 = 200_000_000;

// Notes the room of the journal after the keeper's last turn.
#[derive(Drop)]
struct LastRoom<'a, R> {
    rt: &'a R,
    room: &'a Mutex<u32>,
}

impl<R: Wait> Observer<Standing> for LastRoom<'_, R> {
    fn listens(&mut self) -> bool {
        true
    }

    fn tell(&mut self, standing: Standing) {
        let mut room = self.room.lock(self.rt);
        *room = standing.room;
    }
}

// Plays all roles to their ends: all at once, or each after the one before it has ended. If no thread can be made, the
// port is gone, and the end tells that.
fn play_each<'s, E, D: Disk + Drop + Send, K: Name + Send + Sync, R: Host>(
    rt: &'s R,
    scope: &Scope<'s, E>,
    controller: &'s Controller<D, K>,
    is_in_turn: bool,
    players: Vec<Player<K>>,
) -> Vec<Player<K>> {
    let alloc = *players.allocator();
    let (mut threads, mut played) = (Vec::new(alloc), Vec::new(alloc));
    for player in players {
        if let Ok(thread) = scope.spawn(move || player.play(rt, controller)) {
            if is_in_turn {
                let _kept = played.push(thread.join(rt));
            } else {
                let _kept = threads.push(thread);
            }
        }
    }
    end_all(rt, threads, &mut played);
    played
}

// Starts the thread that keeps checkpoints, if it can be made. It returns whether nothing was refused.
fn keep<'s, E, D: Disk + Drop + Send, K: Name + Send + Sync, R: Host>(
    rt: &'s R,
    scope: &Scope<'s, E>,
    controller: &'s Controller<D, K>,
    room: &'s Mutex<u32>,
) -> Option<JoinHandle<bool>> {
    let keeper = scope.spawn(move || {
        let mut watch = LastRoom { rt, room };
        controller.keep_checkpoints_and_tell(rt, &mut watch).is_ok()
    });
    keeper.ok()
}

// Waits until the journal has the wanted room, while no port asks. Only the thread that keeps checkpoints can make it.
fn rest<R: Wait>(rt: &R, room: &Mutex<u32>, wanted: Option<u32>) -> bool {
    let Some(wanted) = wanted else {
        return true;
    };
    for _ in 0..MOST_LOOKS {
        let seen = room.lock(rt);
        if *seen == wanted {
            return true;
        }
    }
    false
}

// Starts a thread for each glance.
fn watch_all<'s, E, K: Name + Send + Sync + 's>(
    alloc: Global,
    scope: &Scope<'s, E>,
    glances: Vec<Glance<Shown<K>>>,
) -> Vec<JoinHandle<Looked<Shown<K>>>> {
    let mut watchers = Vec::new(alloc);
    for glance in glances {
        if let Ok(watcher) = scope.spawn(move || watch(glance)) {
            let _kept = watchers.push(watcher);
        }
    }
    watchers
}

// Waits for the ends of all these threads.
fn end_all<T: Drop, R: Threads>(rt: &R, threads: Vec<JoinHandle<T>>, results: &mut Vec<T>) {
    for thread in threads {
        let _kept = results.push(thread.join(rt));
    }
}

impl<K: Name + Send + Sync, R: Host> Cast<'_, K, R> {
    /// Plays all roles of a scene, each in a thread of its own, beside one for each glance and the thread that keeps
    /// checkpoints until they have returned. If the scene waits for room in the journal, that is waited for then.
    /// Returns the glances. A thread that can't be made or kept is missing in what is told.
    pub fn play_all(
        &mut self,
        play: &Play,
        players: Vec<Player<K>>,
        glances: Vec<Glance<Shown<K>>>,
    ) -> Vec<Looked<Shown<K>>> {
        let (rt, alloc, controller) = (self.rt, self.alloc, self.controller);
        let (is_in_turn, wanted) = (play.is_in_turn, play.rests);
        let room = Mutex::new(0);
        let room = &room;
        let env = thread::scope_env();
        let (played, looked, is_rested, has_kept) = thread::scope(env, rt, move |scope| {
            let keeper = keep(rt, scope, controller, room);
            let watchers = watch_all(alloc, scope, glances);
            let played = play_each(rt, scope, controller, is_in_turn, players);
            let mut looked = Vec::new(alloc);
            end_all(rt, watchers, &mut looked);
            let is_rested = rest(rt, room, wanted);
            controller.end(rt);
            let has_kept = match keeper {
                Some(keeper) => keeper.join(rt),
                None => false,
            };
            (played, looked, is_rested, has_kept)
        });
        self.gather(played, looked.as_slice());
        if let Some(room) = wanted {
            writeln!(
                self.said,
                "  the journal has room for {room} again: {is_rested}"
            );
        }
        writeln!(self.said, "  checkpoints were kept to the end: {has_kept}");
        looked
    }

    // Tells what came of the roles and of the glances, and takes the ports back.
    fn gather(&mut self, played: Vec<Player<K>>, looked: &[Looked<Shown<K>>]) {
        for it in played {
            write!(self.said, "  accepted {}, last ", it.accepted);
            self.said.outcome(it.last);
            self.said.text("\n");
            self.keep(it.port)
        }
        for it in looked {
            let (refused, wrong, back) = (it.refused, it.wrong, it.back);
            writeln!(
                self.said,
                "  looked: refused {refused}, wrong {wrong}, back {back}"
            );
        }
    }
}
