//! Scripts that are run once. A run is stopped at a call of the disk, the disk crashes, and the same words are said
//! again, until the script is done.

use crate::desk::{How, RunDesk};
use crate::ends::{End, ends_of, few, has_end};
use crate::scripts::{requests_of, script_of};
use im_disk::{Crash, Mode};
use im_serving::{Host, Open};

// What a crash leaves.
const CRASHES: [Crash; 3] = [Crash::Kept, Crash::Lost, Crash::Byte(0xA5)];

// How often a script is run at most, and how many calls more than before the disk passes at least each time.
const MOST_RUNS: u64 = 100;

const MORE: u64 = 16;

// The lines of a report that tell an end.
const KEPT: [&str; 3] = ["cell", "element", "entry"];

// Reads a word as a number.
fn number(word: &str) -> u64 {
    word.parse::<u64>().unwrap_or(0)
}

// A script that is stopped: how it is run, its text, and its ends by the plain memory.
#[derive(Clone, Copy)]
struct StoppedScript<'s> {
    how: How,
    script: &'s str,
    ends: &'s [End],
}

impl StoppedScript<'_> {
    // Runs the script on a new image, with this crash after each run, until it is done. The disk passes so many calls
    // at first, and so many and some more each time. Returns how many runs were stopped, if it is done then.
    fn run_to_end<R: Host>(
        &self,
        rt: &R,
        desk: &mut RunDesk,
        passes: u64,
        crash: Crash,
    ) -> Option<u64> {
        let is_new = desk.place.renew(few()?);
        desk.said.so(is_new, "");
        let mut many = passes;
        for stops in 0..MOST_RUNS {
            desk.place.fuse = (many, Mode::Stop);
            many = many.saturating_add(passes).saturating_add(MORE);
            let status = desk.serve(rt, self.how, self.script, &Open);
            let _crashed = desk.place.crash(crash);
            if status == 0 {
                return Some(stops);
            }
        }
        None
    }

    // Returns whether the image has one of the ends, which one more run prints and leaves.
    fn has_come_to<R: Host>(&self, rt: &R, desk: &mut RunDesk) -> bool {
        let left = desk.report(&KEPT);
        let status = desk.serve(rt, self.how, self.script, &Open);
        let is_printed = has_end(self.ends, left.said(), desk.out.text());
        status == 0 && is_printed && desk.report(&KEPT).said() == left.said()
    }

    // Stops the script behind so many calls, with each crash. Returns how often it comes to one of its ends.
    fn stop_at<R: Host>(&self, rt: &R, desk: &mut RunDesk, passes: u64) -> u64 {
        let mut right = 0u64;
        for crash in CRASHES {
            let is_done = self.run_to_end(rt, desk, passes, crash).is_some();
            let is_right = is_done && self.has_come_to(rt, desk);
            right = right.saturating_add(u64::from(is_right));
        }
        right
    }
}

/// Stops a script behind each number of calls, as the words behind its name tell. Tells how many ends there are by the
/// plain memory, how often it comes to one of them, and whether the disk that passed the most calls stopped no run.
pub fn run_again<R: Host>(rt: &R, desk: &mut RunDesk, how: How, words: &str) {
    let (words, by) = words.split_once(" by ").unwrap_or((words, "1"));
    let (name, most) = words.rsplit_once(' ').unwrap_or((words, "0"));
    let (alloc, most, by) = (desk.place.alloc, number(most), number(by));
    let script = script_of(alloc, desk.text, name);
    let ends = ends_of(alloc, requests_of(alloc, desk.text, name).as_slice());
    let stopped = StoppedScript {
        how,
        script: script.said(),
        ends: ends.as_slice(),
    };
    let mut right = 0u64;
    for times in 0..=most / by.max(1) {
        let passes = times.saturating_mul(by);
        right = right.saturating_add(stopped.stop_at(rt, desk, passes));
    }
    // How many calls a run makes hangs on its groups: four times as many are enough for each request alone.
    let enough = most.saturating_mul(4);
    let is_whole = stopped.run_to_end(rt, desk, enough, Crash::Kept) == Some(0);
    write!(desk.said, "ends {}, runs to them {right}, ", ends.len());
    desk.said
        .either(is_whole, "the last at once\n", "the last stopped\n")
}
