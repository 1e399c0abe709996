//! How a scene is played, and what is told of it.

use crate::casts::{Cast, keep, outcome_of};
use crate::players::{Player, Role, entry_of};
use crate::plays::Play;
use crate::traces::{add_fetches, alike};
use im_controller::{Finished, Name, Port};
use im_disk::FuseDisk;
use im_engine::Engine;
use im_serving::Host;
use im_story::Saying;
use im_types::{Kind, Op, Refusal};

impl<K: Name + Send + Sync, R: Host> Cast<'_, K, R> {
    // The port of element 0 makes the blocks, and serves nobody.
    fn set_up(&mut self, (simple, mutable): (u32, u32)) {
        let Some(mut port) = self.port(0) else {
            return;
        };
        for (number, kind, cells) in [(1, Kind::I, simple), (2, Kind::M, mutable)] {
            if cells != 0 {
                self.submit(&mut port, number, Op::Alloc(kind, cells))
            }
        }
        port.retire(self.rt, self.controller);
        self.keep(port)
    }

    // Makes the ports that play these roles. One that waits for an answer has asked for it.
    fn players(&mut self, roles: &[Role]) -> Vec<Player<K>> {
        let mut players = Vec::new(self.alloc);
        let mut element = 0u16;
        for role in roles {
            element = element.saturating_add(1);
            if let Some(mut port) = self.port(element) {
                if let Role::Waits | Role::RetiresAndWaits = role {
                    self.submit(&mut port, 1, Op::Fetch(0))
                }
                let player = Player {
                    element,
                    port,
                    role: *role,
                    accepted: 0,
                    last: Err(Refusal::Gap),
                };
                keep(&mut players, player, &mut self.said)
            }
        }
        players
    }

    // Tells what a port that has played is answered now.
    fn ask(&mut self, port: &mut Port<K>, number: u64) {
        let found = entry_of(port.collect(self.rt, self.controller, number));
        self.tell("collect", found);
        let upto = number.saturating_add(1);
        let confirmed = outcome_of(&port.confirm(self.rt, self.controller, upto));
        self.tell("confirm", confirmed);
        let is_helped = port.help(self.rt, self.controller).is_ok();
        writeln!(self.said, "  help: {is_helped}")
    }

    /// Plays a scene, and then asks the last port. The ports come back.
    pub fn play(&mut self, play: &Play) {
        self.set_up(play.blocks);
        if play.roles.is_empty() {
            return self.look_far();
        }
        let players = self.players(play.roles);
        let glances = self.glances(play.readers);
        let looked = self.play_all(play, players, glances);
        let Some(mut port) = self.ports.pop() else {
            return;
        };
        if let Some(number) = play.asks {
            self.ask(&mut port, number)
        }
        if !looked.is_empty() {
            self.teach(&mut port, looked)
        }
        self.keep(port)
    }
}

/// Tells whether the plain memory answers each line of a scene alike, whether all ports came back, and how many
/// commands the image has.
pub fn tell_scene(play: &Play, finished: Finished<FuseDisk>, said: &mut Saying) {
    let (alloc, trace) = (said.alloc(), finished.trace.as_slice());
    if let Some(Role::Fetches(_)) = play.roles.first() {
        for element in 1..3u16 {
            add_fetches(trace, element, said)
        }
    }
    let (lines, again) = (trace.len(), alike(alloc, play.sizes, trace));
    writeln!(
        said,
        "  lines {lines}, the plain memory answers alike {again}"
    );
    let (came, claimed) = (finished.came, finished.claimed);
    writeln!(
        said,
        "  all ports came: {came}, all answers claimed: {claimed}"
    );
    match Engine::open(alloc, finished.session.close()) {
        Ok(engine) => writeln!(said, "  opened again: count {}", engine.count()),
        Err(_) => said.text("  no image\n"),
    }
}
