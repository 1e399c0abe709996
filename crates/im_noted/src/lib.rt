//! A list that clauses alone read: what was noted so far, of any type. It takes one byte and no memory, no code reads
//! it, and its contracts are proved without a proof by hand.
//!
//! It is a chain: a list keeps a snapshot of itself as it was before the last note, and one of the value that was
//! noted. A snapshot takes no bytes.
#![tactic(auto)]

ghost use Rattle.std.specs.Prelude.{◌≡◌, [], ◌∷◌};

use std::marker::Model;
use std::snapshot::Snapshot;

/// The values that were noted. Contracts see them as a list, the newest first.
#[cycle(noted)]
#[derive(Drop)]
pub struct NoteList<T> {
    past: NoteChain<T>,
}

#[cycle(noted)]
#[derive(Drop)]
enum NoteChain<T> {
    Nothing,
    // The list before, and the value.
    Behind(Snapshot<NoteList<T>>, Snapshot<T>),
}

impl<T> Model for NoteList<T> {
    ghost use Rattle.std.{specs.Prelude.List, specs.Prelude.length, proofs.Common.arith};

    ghost Value = { List T };

    ghost use Rattle.im_noted.specs.Items.{noted_items};

    ghost view = { λ n. noted_items n.past };

    ghost size = { length };

    ghost size_decreases = { λ n is. Prim.grind arith };
}

impl<T> NoteList<T> {
    /// Makes an empty list.
    pub fn new() -> NoteList<T>
        ensures { result ≡ [] }
    {
        NoteList {
            past: NoteChain::Nothing,
        }
    }
}

impl<T: Drop> NoteList<T> {
    /// Notes a value.
    pub fn note(&mut self, value: &T)
        ensures { self.new ≡ value.now ∷ self.old }
    {
        let before = Snapshot::of(&*self);
        self.past = NoteChain::Behind(before, Snapshot::of(value));
    }
}
