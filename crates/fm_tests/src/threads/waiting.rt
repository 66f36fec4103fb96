//! Waiting for another thread, for a while.

use std::sync::atomic::{AtomicBool, Ordering};
use std::thread;

/// Whether the flag is set before this thread gave way a million times.
pub(crate) fn is_set_soon(flag: &AtomicBool) -> bool {
    for _ in 0..1_000_000u32 {
        if flag.load(Ordering::SeqCst) {
            return true;
        }
        thread::yield_now();
    }
    false
}
