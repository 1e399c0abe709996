//! The rule of the book of the lines, and the steps that keep it.
use im_disk::Disk;
use im_types::Line;
use logbook::{Gain, Pen, Plain, Play, Rule};
use std::snapshot::Snapshot;

/// An entry of the book. Contracts alone see it, and no value of it is made.
pub struct Link {
    /// The key of the pen that wrote it.
    pub from: u64,
    /// The line.
    pub line: Line,
    /// Its time: how many calls the disk had made when it was left.
    pub time: u64,
    /// The key of the pen that writes the next one.
    pub next: u64,
}

/// The rule of the book: the pen of each entry is used up.
pub struct Chained;

impl Rule<Link, u64> for Chained {
    ghost use Rattle.std.specs.Prelude.{[]};
    ghost use Rattle.im_trace.specs.Chains.{IsChained};
    ghost use base.Fml.{ftrue};

    ghost holds = { λ cells log. IsChained cells log };

    ghost first = { [] };

    ghost hinted = { λ n log. Unit {0} };

    ghost shows = { λ log. [] };

    ghost keeps = { λ names log. ftrue };

    ghost moves = { λ ask before after answer. Unit {0} };
}

// Nothing is traded.
pub struct NoGain;

impl Gain<Link, u64> for NoGain {
    ghost use base.Fml.{ftrue};

    ghost after = { λ names about answer. ftrue };
}

// A step that makes a pen.
pub struct MakePen;

impl Play<Link, u64> for MakePen {
    ghost use Rattle.im_trace.specs.Chains.{MakesPen};

    ghost then = { MakesPen };
}

// A step that adds nothing.
pub struct KeepPen;

impl Play<Link, u64> for KeepPen {
    ghost use Rattle.im_trace.specs.Chains.{KeepsPen};

    ghost then = { KeepsPen };
}

impl Plain<u64, Link, u64> for KeepPen {
    ghost use Rattle.std.specs.Prelude.{None, Err};
    ghost use Rattle.im_types.specs.Types.{Collect, NoElement};

    ghost ask = { λ n. record {
      from = 0;
      line = record { call = Collect 0 0; answer = Err NoElement };
      time = 0;
      next = 0;
    } };

    ghost state = { λ n. None };
}

// What is to be added: a line, the disk at its time, and the pen of the next one. It has no bytes.
#[derive(Drop)]
pub struct Signed<D: Disk> {
    pub(crate) line: Snapshot<Line>,
    pub(crate) disk: Snapshot<D>,
    pub(crate) next: Pen,
}

// A step that adds a line.
pub struct UsePen;

impl Play<Link, u64> for UsePen {
    ghost use Rattle.im_trace.specs.Chains.{UsesPen};

    ghost then = { UsesPen };
}

impl<D: Disk> Plain<Signed<D>, Link, u64> for UsePen {
    ghost use Rattle.std.specs.Prelude.{length, None};

    ghost ask = { λ s. record {
      from = 0;
      line = s.line.value;
      time = length (D.past s.disk.value);
      next = s.next.nib.key;
    } };

    ghost state = { λ s. None };
}
