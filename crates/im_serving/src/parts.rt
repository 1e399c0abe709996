//! What is done for an element: before it is served, while a thread serves it, and at its end.
ghost use Rattle.std.specs.Prelude.{◌≡◌};

use crate::glances::Glances;
use crate::intent::Intent;
use crate::numbers::ServedNumbers;
use im_controller::{Name, Port};
use im_types::Refusal;
use std::marker::Model;

/// An element's port, its numbers, its reader, and what it asks for. Contracts see what was done for the element, and
/// what it asks for.
#[derive(Drop)]
pub struct Part<K: Name> {
    /// The port.
    pub port: Port<K>,
    /// What is known of its numbers.
    pub served: ServedNumbers,
    /// Its reader.
    pub glances: Glances<K>,
    /// What it asks for, in order.
    pub intents: Vec<Intent>,
}

impl<K: Name> Model for Part<K> {
    ghost use Rattle.im_serving.specs.Elements.{Asked};

    ghost Value = { Asked };

    ghost view = { λ p. record {
      deeds = record {
        port = p.port;
        served = p.served;
        last = p.glances.last;
        seen = p.glances.glance;
        made = p.glances.made.items;
      };
      intents = p.intents.items;
    } };
}

/// An element at its end: its port, the entries of its requests, and its refusal, if there is one. Contracts see what
/// was done for the element, and the refusal.
#[derive(Drop)]
pub struct Done<K: Name> {
    /// The port, which is retired.
    pub port: Port<K>,
    /// Its numbers and entries.
    pub served: ServedNumbers,
    /// Its glances.
    pub glances: Glances<K>,
    /// The refusal, if one ended it before the last of its operations.
    pub done: Result<(), Refusal>,
}

impl<K: Name> Model for Done<K> {
    ghost use Rattle.im_serving.specs.Elements.{End};

    ghost Value = { End };

    ghost view = { λ d. record {
      deeds = record {
        port = d.port;
        served = d.served;
        last = d.glances.last;
        seen = d.glances.glance;
        made = d.glances.made.items;
      };
      result = d.done;
    } };
}

/// What a server's thread starts with, besides its end of the pipe. Contracts see what was done before.
#[derive(Drop)]
pub(crate) struct ServerStart<K: Name> {
    pub(crate) port: Port<K>,
    pub(crate) served: ServedNumbers,
    pub(crate) glances: Glances<K>,
}

impl<K: Name> Model for ServerStart<K> {
    ghost use Rattle.im_serving.specs.Elements.{Deeds};

    ghost Value = { Deeds };

    ghost view = { λ s. record {
      port = s.port;
      served = s.served;
      last = s.glances.last;
      seen = s.glances.glance;
      made = s.glances.made.items;
    } };
}

impl<K: Name> Part<K> {
    /// Returns what its server starts with, and what it asks for.
    pub(crate) fn split(self) -> (ServerStart<K>, Vec<Intent>)
        ensures deeds { result.0 ≡ self.deeds }
        ensures intents { result.1.items ≡ self.intents }
    {
        let Part {
            port,
            served,
            glances,
            intents,
        } = self;
        (
            ServerStart {
                port,
                served,
                glances,
            },
            intents,
        )
    }
}
