//! Servers of what elements ask for.

use crate::casts::{Cast, keep};
use im_controller::Name;
use im_serving::{Done, Gate, Glances, Host, Intent, Part, ServedNumbers, serve_elements};
use im_types::{Entry, Op, Refusal, Unobserved};

/// A request: its element, from 1 to 3, its number and its operation.
pub type Wish = (u16, u64, Op);

impl<K: Name + Send + Sync, R: Host> Cast<'_, K, R> {
    // Makes the part of an element that was never served, if it asks for something among these requests.
    fn part(&mut self, wishes: &[Wish], element: u16) -> Option<Part<K>> {
        let mut intents = Vec::new(self.alloc);
        for (of, _, op) in wishes {
            if *of == element {
                keep(&mut intents, Intent::Request(*op), &mut self.said)
            }
        }
        if intents.is_empty() {
            return None;
        }
        let glances = Glances::new(self.rt, self.alloc, self.controller, element).ok()?;
        let port = self.port(element)?;
        let entries = Vec::new(self.alloc);
        let served = ServedNumbers {
            element,
            first: 1,
            base: 1,
            untold: 1,
            entries,
        };
        Some(Part {
            port,
            served,
            glances,
            intents,
        })
    }

    /// Tells why an element has ended, unless the disk has stopped or its last request is answered.
    pub fn tell_end(&mut self, element: u16, ended: Result<(), Refusal>, is_answered: bool) {
        match ended {
            Ok(()) if is_answered => {}
            Ok(()) => writeln!(self.said, "  {element} has no answer"),
            Err(Refusal::Device | Refusal::Failed) => {}
            Err(refusal) => {
                write!(self.said, "  {element} ");
                self.said.refusal(refusal);
                self.said.text("\n")
            }
        }
    }

    // Takes the port of a server back, notes what its requests were told, and tells why it has ended.
    fn end(&mut self, done: Done<K>) {
        let element = done.served.element;
        let mut number = done.served.first;
        let mut is_answered = false;
        for entry in done.served.entries.iter() {
            self.note(element, number, *entry);
            number = number.saturating_add(1);
            is_answered = *entry != Entry::Waiting;
        }
        self.tell_end(element, done.done, is_answered);
        self.keep(done.port)
    }

    /// Lets servers play, each of what its element asks for among these requests. Their ports come back.
    pub fn serve<G: Gate + Sync>(&mut self, wishes: &[Wish], gate: &G) {
        let mut parts = Vec::new(self.alloc);
        for element in 1..4u16 {
            if let Some(part) = self.part(wishes, element) {
                keep(&mut parts, part, &mut self.said)
            }
        }
        let (rt, alloc, controller) = (self.rt, self.alloc, self.controller);
        match serve_elements(rt, alloc, controller, gate, Unobserved, parts) {
            Ok(all) => {
                for done in all {
                    self.end(done)
                }
            }
            Err(_) => self.said.text("  no memory\n"),
        }
    }
}
