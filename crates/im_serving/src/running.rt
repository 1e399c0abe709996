//! The two threads of an element, and what they promise.

use crate::intent::Intent;
use crate::parts::{Done, Part, ServerStart};
use crate::sender::Sent;
use im_controller::Name;
use im_pipes::{Inlet, Outlet};
use std::marker::Model;
use std::snapshot::Snapshot;
use std::thread::{Promise, PromisedHandle};

/// What a server's thread returns: what was done, and its end of the pipe.
#[derive(Drop)]
pub(crate) struct Stopped<K: Name> {
    pub(crate) done: Done<K>,
    pub(crate) outlet: Outlet<Intent>,
}

/// What a server's thread promises, given what it starts with and its end of the pipe.
#[derive(Drop)]
pub(crate) struct Serves<K: Name> {
    pub(crate) server: Snapshot<ServerStart<K>>,
    pub(crate) outlet: Snapshot<Outlet<Intent>>,
}

impl<K: Name> Promise<Stopped<K>> for Serves<K> {
    ghost use Rattle.std.specs.Prelude.{◌≡◌};
    ghost use Rattle.im_serving.specs.Elements.{HasStopped};

    ghost kept_by = { λ p r. (r.outlet.pipe ≡ p.outlet.value.pipe)
        × HasStopped K.origin.memory K.origin.marks p.server.value r.done r.outlet };
}

/// What a sender's thread promises, given its end of the pipe and these intents.
#[derive(Drop)]
pub(crate) struct Sends {
    pub(crate) inlet: Snapshot<Inlet<Intent>>,
    pub(crate) intents: Snapshot<Vec<Intent>>,
}

impl Promise<Sent> for Sends {
    ghost use Rattle.im_serving.specs.Elements.{HasSent};

    ghost kept_by = { λ p r. HasSent p.inlet.value.pipe p.intents.value.items r.finished r.all };
}

/// The threads of an element. If the sending thread couldn't be made, its end of the pipe has ended.
#[derive(Drop)]
pub(crate) struct Pair<K: Name> {
    pub(crate) server: PromisedHandle<Stopped<K>, Serves<K>>,
    pub(crate) sender: Result<PromisedHandle<Sent, Sends>, Sent>,
}

/// An element that is being served, or that couldn't be. Contracts see its part.
#[derive(Drop)]
pub(crate) struct Running<K: Name> {
    pub(crate) part: Snapshot<Part<K>>,
    pub(crate) state: Result<Pair<K>, Done<K>>,
}

impl<K: Name> Model for Running<K> {
    ghost use Rattle.std.specs.Prelude.{◌≡◌, MatchResult};
    ghost use Rattle.im_serving.specs.Elements.{Asked, HasSent, IsEnded};

    ghost Value = { Asked };

    ghost view = { λ r. r.part.value };

    ghost invariant = { λ r. MatchResult r.state
        (λ pair. (pair.server.promise.server.value ≡ r.part.value.deeds)
        × MatchResult pair.sender
        (λ s. (s.promise.inlet.value.pipe ≡ pair.server.promise.outlet.value.pipe)
        × (s.promise.intents.value.items ≡ r.part.value.intents))
        (λ s. HasSent pair.server.promise.outlet.value.pipe r.part.value.intents s.finished s.all))
        (λ done. IsEnded K.origin.memory K.origin.marks r.part.value done) };
}
