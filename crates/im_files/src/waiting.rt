//! Openings that wait for a file's lock.
ghost use Rattle.std.specs.Prelude.{◌≡◌, ◌*◌, None};
ghost use Rattle.im_files.specs.Lasting.{counted_from, longest};

use im_disk::Start;
use std::thread::sleep;
use std::time::{Clock, Duration, Instant};

// The milliseconds between two tries.
const PAUSE: u64 = 20;

/// A start about which nothing is known, like [`Unknown`](im_disk::Unknown). Its opening waits for the file's lock.
#[derive(Drop)]
pub struct Waiting<R> {
    rt: R,
    // The first time that the file was found in use.
    began: Option<Instant>,
    most: Duration,
}

impl<R: Drop> Waiting<R> {
    /// An opening that waits at most `seconds` seconds, counted from the moment when the file is found in use. It
    /// doesn't wait if the clock can't be read.
    pub fn new(rt: R, seconds: u32) -> Waiting<R>
        ensures longest { longest result ≡ seconds * 1_000_000_000 }
        ensures begins { counted_from result ≡ None }
    {
        Waiting {
            rt,
            began: None,
            most: Duration::from_secs(u64::from(seconds)),
        }
    }
}

impl<R: Clock + Drop> Start for Waiting<R> {
    ghost use Rattle.std.specs.Prelude.{◌≡◌, false, [], IfSome, Some};
    ghost use Rattle.im_files.specs.Lasting.{counted_from, longest};

    ghost path = { [] };

    ghost first = { record { bytes = []; ranges = [] } };

    ghost outcomes = { [] };

    fn tries_again(&mut self) -> bool
        ensures none { longest self.old ≡ 0 → result ≡ false }
        ensures same { longest self.new ≡ longest self.old }
        ensures begins { IfSome (counted_from self.old) (λ moment. counted_from self.new ≡ Some moment) }
    {
        let Ok(now) = Instant::now(&self.rt) else {
            return false;
        };
        let began = self.began.unwrap_or(now);
        self.began = Some(began);
        let left = self.most.saturating_sub(now.duration_since(began));
        if left.is_zero() {
            return false;
        }
        sleep(&self.rt, left.min(Duration::from_millis(PAUSE)));
        true
    }
}
