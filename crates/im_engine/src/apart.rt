//! Requests that can be served as a group.
ghost use Rattle.std.specs.Prelude.{◌≡◌, ◌↔◌, IfSome, IsNone, IsTrue};
ghost use Rattle.im_types.specs.Types.{AreApart};

use crate::groups::are_apart;
use arrayvec::ArrayVec;
use im_types::{MAX_GROUP, Request};
use std::marker::Model;

/// The requests of a group: 16 at most, with no two of one element. Contracts see their list.
#[derive(Debug, Drop)]
pub struct Group {
    requests: ArrayVec<Request, MAX_GROUP>,
}

impl Model for Group {
    ghost use Rattle.std.specs.Prelude.{List};
    ghost use Rattle.im_types.specs.Types.{Request, AreApart};

    ghost Value = { List Request };

    ghost view = { λ g. g.requests.items };

    ghost invariant = { λ g. AreApart g.requests.items };
}

impl Group {
    /// Makes a group of these requests, in their order. Returns `None` exactly if two are of one element.
    pub fn new(requests: ArrayVec<Request, MAX_GROUP>) -> Option<Group>
        ensures found { IfSome result (λ g. g ≡ requests.items) }
        ensures none { IsNone result ↔ (AreApart requests.items → ⊥) }
    {
        if !are_apart(requests.as_slice()) {
            return None;
        }
        Some(Group { requests })
    }

    /// Returns the requests, in their order.
    pub fn requests(&self) -> &ArrayVec<Request, MAX_GROUP>
        ensures found { result.now.items ≡ self.now }
        ensures apart { AreApart self.now }
    {
        &self.requests
    }
}
