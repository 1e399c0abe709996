//! Files of images: makes, opens and removes one, with the note that a failed sync leaves beside it.
//!
//! After a failed sync the system may show bytes that the disk doesn't have, and return `Ok` the next time. So the
//! program leaves a *note* beside the image's file, `PATH.unsynced`, which names the run of the machine. An opening for
//! writing is refused while the note is of this run. docs/CRASH.md says what to do with such a file.
//!
//! Stands on `im_disk`.
#![tactic(auto)]

mod beside;
mod image;
mod notes;
mod noting;
mod waiting;

pub use beside::{FileNotes, note_name, note_path};
pub use image::{
    FileFault, leave_note, make_image, note_failed_sync, open_image, open_image_to_read,
    remove_image,
};
pub use notes::{Notes, Noting, Sight};
pub use noting::{admit, note_on, stands};
pub use waiting::Waiting;
