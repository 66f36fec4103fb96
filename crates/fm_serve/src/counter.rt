//! How many rounds of a fleet are done, for observers.
//!
//! A gate is called within a round, and is not told when the round ends. So a round is counted when the next one
//! begins, and the last one when the solver drops its gate.

use fm_fleet::round::Gate;
use std::sync::atomic::{AtomicU64, Ordering};

/// The gate of a solver, which counts its rounds: each when the next begins, and the last when the solver lets its gate
/// go.
pub(crate) struct RoundCounter<'a> {
    done: &'a AtomicU64,
    has_begun: bool,
}

impl<'a> RoundCounter<'a> {
    /// Adds to what the counter has.
    pub(crate) fn new(done: &'a AtomicU64) -> RoundCounter<'a> {
        RoundCounter {
            done,
            has_begun: false,
        }
    }
}

impl Gate for RoundCounter<'_> {
    fn hold(&mut self) {
        if self.has_begun {
            self.done.fetch_add(1, Ordering::SeqCst);
        }
        self.has_begun = true;
    }
}

impl Drop for RoundCounter<'_> {
    fn drop(self) {
        let RoundCounter { done, has_begun } = self;
        if has_begun {
            done.fetch_add(1, Ordering::SeqCst);
        }
    }
}
