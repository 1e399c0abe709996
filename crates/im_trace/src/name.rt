//! What a controller's parts agree on.
use im_glass::PaneName;
use std::marker::{Brand, PhantomData};
use std::sync::ledger::Ledger;

/// What all parts of one controller agree on. Contracts alone see it. A caller's function has it as a type parameter,
/// and each call of that function picks its member.
pub trait Name {
    ghost use Rattle.im_trace.specs.Origin.{Origin};

    /// Where the trace begins: the memory, the plan, which lines are counted apart, the ledgers and the books of the
    /// lines, how many ports there are, and what was known of the session that is lent.
    ghost origin: { Origin };
}

impl Name for Brand {
    ghost use Rattle.std.specs.Prelude.{false, [], None};

    ghost origin = { record {
      memory = record { cells = []; windows = [] };
      plan = None;
      marks = λ _. false;
      lines_name = 0;
      marked_name = 0;
      ports = 0;
      book = record {
        shown = record { number = 0; log_name = 0; cells_name = 0 };
        lines = record { book = record { number = 0; log_name = 0; cells_name = 0 }; root = 0 };
        recorded = false;
      };
      begun = record {
        now = record { bytes = []; ranges = [] };
        past = [];
        failures = 0;
        memory = record { cells = []; windows = [] };
        count = 0;
      };
      first = [];
      time = 0;
      failed = false;
      honest = Unit {0};
    } };
}

/// The ledger of all lines.
pub struct LineLedger<K>(PhantomData<K>);

impl<K: Name> Ledger for LineLedger<K> {
    ghost name = { K.origin.lines_name };

    ghost parts = { K.origin.ports };
}

/// The ledger of the marked lines.
pub struct Marked<K>(PhantomData<K>);

impl<K: Name> Ledger for Marked<K> {
    ghost name = { K.origin.marked_name };

    ghost parts = { K.origin.ports };
}

/// What is shown of the full cells.
pub struct Shown<K>(PhantomData<K>);

impl<K: Name> PaneName for Shown<K> {
    ghost book = { K.origin.book.shown };
}
