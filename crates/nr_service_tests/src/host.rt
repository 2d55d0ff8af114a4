//! What the program needs of its process.

use std::process::Abort;
use std::sync::Wait;
use std::thread::Threads;

/// What the program needs of the process of a test.
pub(crate) trait Host: Abort + Threads + Wait + Copy + Drop + Send + Sync + 'static {}

impl<R: Abort + Threads + Wait + Copy + Drop + Send + Sync + 'static> Host for R {}
