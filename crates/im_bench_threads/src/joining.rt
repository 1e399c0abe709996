//! Waits for threads to end.

use std::thread::{JoinHandle, Threads};

/// Waits for all threads that could be started. Returns the sum of their results.
pub fn join_all<R: Threads>(rt: &R, threads: Vec<Option<JoinHandle<u64>>>) -> u64 {
    let mut sum = 0u64;
    for thread in threads {
        if let Some(thread) = thread {
            sum = sum.wrapping_add(thread.join(rt));
        }
    }
    sum
}
