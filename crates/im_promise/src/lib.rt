//! The promise: contracts of public functions over public calls alone. This is a client's view of the whole.
//!
//! An image is formatted or opened. Its engine gets commands, groups of requests, turns and sweeps, and the disk may
//! stop at any call. A crash leaves any file that the model of a disk allows, and the image is opened again. It then
//! has the memory after all acknowledged commands, with or without those of the one call in doubt: a single command, or
//! all of a group. A request that is sent again is answered as before, and acts once.
#![tactic(auto)]

mod again;
mod groups;
mod recovery;
mod traces;

pub use again::{Repeat, ask_again, ask_over_a_crash, send_over_a_crash, send_twice};
pub use groups::{GroupRepeat, ask_group_again, ask_group_over_a_crash, recover_group};
pub use recovery::{
    Outage, Recovered, recover, recover_again, recover_from_format, recover_session, reopen,
};
pub use traces::traces_tell_a_request_alike;
