//! The trace of what an engine under a lock answered: its lines, the books that count them, the answers that wait for
//! their ports, and the receipts that go out of the lock. Nothing here knows the engine or the lock.
#![tactic(auto)]

mod books; // The ledgers that count the lines, and the ports' shares in them.
mod chain; // The book of the lines, of which each port has seen a prefix.
mod ending; // A log at its end.
mod log; // The trace, with all that is counted of it.
mod name; // What the parts of one controller agree on.
mod places; // The answers that wait for their ports.
mod receipts; // What a port is told.
mod record; // The lines, and whether they are recorded.
mod rule; // The rule of the book, and its steps.
mod starting; // A log before it has a name.
mod traced; // A line in few bytes.
mod when; // The times of lines.

pub use books::{Reserve, Tally};
pub use chain::Prefix;
pub use ending::Ended;
pub use log::{Log, element_of};
pub use name::{LineLedger, Marked, Name, Shown};
pub use receipts::{Found, Receipt};
pub use record::Recording;
pub use starting::NewLog;
pub use traced::{Since, Traced};
pub use when::When;
