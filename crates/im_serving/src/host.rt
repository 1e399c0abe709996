//! What runs the threads of elements.

use std::sync::Wait;
use std::thread::Threads;

/// A host starts threads, waits, and is shared by all threads. Each type that may do so is one.
pub trait Host: Threads + Wait + Sync {}

impl<R: Threads + Wait + Sync> Host for R {}
