//! Stories of runs: what is printed when each element has a server of its own, whatever the order in which they come,
//! and when servers wait for each other; and what a script comes to that is stopped again and again.
//!
//! A file of scenes has titles, which are told, and calls.
//!
//! ```text
//! new, old                       an image with nothing in it, of this version of the layout or the first
//! run NAME, plan NAME, trace NAME    runs a script on the image, as a plan, or for its trace. With `after N` the
//!                                requests of the other of elements 1 and 2 are held until one of N's is answered
//! held TEXT                      tells the text, and whether the last run held requests back so
//! strict NAME                    the same as run, with the status of a strict script
//! report, report windows         the image's cells and entries, or its windows
//! owed NAME, once-owed NAME, owed-plan NAME    the same as run, once and plan, but it tells what the run told of
//!                                earlier scripts: before it was confirmed, or at the end
//! fault NAME                     a run on an image whose calls fail behind its opening
//! once NAME, once-plan NAME      runs what the image doesn't have of a script, or goes on with its plan
//! again NAME N, again NAME N by M    the same on new images, stopped behind 0 to N calls of the disk, or each M of
//!                                them, with each crash, until the script is done. It tells how many ends the plain
//!                                memory has for it in all orders, and how often it came to one of them and one more
//!                                run printed that; again-plan NAME N: the same of a plan that is gone on with
//! ```
#![tactic(auto)]

mod again;
mod desk;
mod ends;
mod gates;
mod heard;
mod scripts;

use desk::RunDesk;
use im_serving::Host;
use im_story::Saying;
use std::fs;

/// Plays the scenes of a file with these threads, and tells what came of them.
pub fn show<R: Host>(rt: &HostRuntime, threads: &R, file: &str, said: &mut Saying) {
    let Ok(text) = fs::read_to_string(rt, file) else {
        return said.fail("the scenes can't be read");
    };
    let mut desk = RunDesk::new(rt.alloc(), text.as_str());
    let (scenes, _) = text.as_str().split_once("\nscript ").unwrap_or(("", ""));
    for line in scenes.lines() {
        desk.tell(threads, line);
    }
    said.also(&desk.said)
}
