//! Groups of commands: the effect of their members in order, and how the members are judged before any of them acts.
//! The engine first puts the accepted commands on the disk, and then lets them act.
#![tactic(auto)]

mod ahead;
mod judging;
mod line;
mod marks;

pub use ahead::{accepts, judge_behind};
pub use judging::{
    judge_each, judge_members, judge_next, judge_whole, judge_whole_next, takes_place,
};
pub use line::CommandsAhead;
