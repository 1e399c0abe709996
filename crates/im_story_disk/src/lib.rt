//! Files in memory for stories: how their disks fail, what a crash leaves of them, images on them, and the words for
//! all that.
//!
//! The crate stands on `im_engine`, by which an image is made and opened, and on `im_session`. Like `im_story` it
//! promises nothing but that it ends.
#![tactic(auto)]

mod calls;
mod sessions;
mod story_file;

pub use sessions::begin_session;
pub use story_file::{STEADY, StoryFile};
