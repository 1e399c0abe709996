//! A pipe from one sender to one receiver: a channel of bounded capacity under a rule. By the rule, what was received
//! is at each moment a prefix of what was sent, in order, each item once.
#![tactic(auto)]

mod ends;
mod rule;

pub use ends::{FinishedInlet, Inlet, Outlet, Received, pipe};
pub use rule::PassLog;
