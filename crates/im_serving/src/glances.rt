//! An element's glances, in their place among its requests.
ghost use Rattle.std.specs.Prelude.{◌≡◌, [], ◌∷◌, ◌++◌, IfOk, OnOk, OnErr, None};
ghost use Rattle.im_types.specs.Types.{value_after, opening, shown_by};
ghost use mathlib.Core.List.{IsPrefix};

use im_controller::{Controller, Name, Receipt, Shown};
use im_disk::Disk;
use im_glass::Glance;
use im_types::{Outcome, Refusal};
use std::alloc::Global;
use std::sync::Wait;

/// A glance that was made.
#[derive(Clone, Copy, Debug, PartialEq, Eq)]
pub struct Glanced {
    /// How many of the element's requests were served before it.
    pub behind: usize,
    /// The number of the last of the element's requests that was answered before it, if one was.
    pub after: Option<u64>,
    /// The cell's address.
    pub address: u32,
    /// The value, if it was a full I cell.
    pub value: Option<u64>,
}

/// The reader by which an element reads the full cells, and the glances that it made.
#[derive(Drop)]
pub struct Glances<K: Name> {
    /// Its reader.
    pub glance: Glance<Shown<K>>,
    /// The number of its last request that was answered, if one was.
    pub last: Option<u64>,
    /// The glances that were made, in their order.
    pub made: Vec<Glanced>,
}

impl<K: Name> Glances<K> {
    /// Makes the reader of an element. It has seen the full cells of the memory that was opened, and has made no glance
    /// yet. Returns `NoElement` if there is no such element or it already has its reader.
    pub fn new<D: Disk, R: Wait>(
        rt: &R,
        alloc: Global,
        controller: &Controller<D, K>,
        element: u16,
    ) -> Result<Glances<K>, Refusal>
        ensures found { IfOk result (λ g. (g.last ≡ None) × IsPrefix (opening K.origin.memory) g.glance) }
        ensures none { IfOk result (λ g. g.made.items ≡ []) }
    {
        match controller.glance(rt, element) {
            Ok(glance) => Ok(Glances {
                glance,
                last: None,
                made: Vec::new(alloc),
            }),
            Err(refusal) => Err(refusal),
        }
    }

    // Learns what was shown when a command was answered, and returns the command's outcome.
    pub(crate) fn learn(&mut self, receipt: &Receipt<K>) -> Outcome
        ensures found { result ≡ receipt.now.outcome }
        ensures kept { IsPrefix self.old.glance self.new.glance }
        ensures shown { IsPrefix (shown_by K.origin.memory receipt.now.history) self.new.glance }
        ensures same { (self.new.made ≡ self.old.made) × (self.new.last ≡ self.old.last) }
    {
        self.glance.learn(receipt.told());
        receipt.outcome()
    }

    // Reads a cell after the given number of requests.
    pub(crate) fn read(&mut self, behind: usize, address: u32) -> Result<(), Refusal>
        ensures kept { OnOk result (IsPrefix self.old.glance self.new.glance) }
        ensures made { OnOk result (self.new.made.items ≡ self.old.made.items ++ record {
          behind = behind;
          after = self.old.last;
          address = address;
          value = value_after address None self.new.glance;
        } ∷ []) }
        ensures last { self.new.last ≡ self.old.last }
        ensures same { OnErr result ((self.new.made.items ≡ self.old.made.items)
            × (self.new.glance ≡ self.old.glance)) }
    {
        if self.made.reserve(1).is_err() {
            return Err(Refusal::NoMemory);
        }
        match self.glance.glance(address) {
            Ok(value) => {
                self.made.push_reserved(Glanced {
                    behind,
                    after: self.last,
                    address,
                    value,
                });
                Ok(())
            }
            Err(refusal) => Err(refusal),
        }
    }
}
