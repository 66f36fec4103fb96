//! How far a run is, for observers: a counter that threads add to and any may read, and on which no answer depends.

use std::fmt;
use std::sync::atomic::{AtomicBool, AtomicU64, Ordering};

/// How many steps of a script are done, or how many rounds of a fleet. The thread that does them counts, and any
/// thread may read: no contract says more of it, and nothing that is answered turns on it. Its `Display` says what
/// was counted.
#[derive(Drop)]
pub struct RunProgress {
    done: AtomicU64,
    is_fleet: AtomicBool,
    is_hidden: AtomicBool,
}

impl RunProgress {
    /// Nothing is done.
    pub fn new() -> RunProgress {
        RunProgress {
            done: AtomicU64::new(0),
            is_fleet: AtomicBool::new(false),
            is_hidden: AtomicBool::new(false),
        }
    }

    /// One step more is done.
    pub fn count_step(&self) {
        self.done.fetch_add(1, Ordering::SeqCst);
    }

    /// Where a fleet's rounds are counted. From now on they are what is counted.
    pub fn rounds(&self) -> &AtomicU64 {
        self.is_fleet.store(true, Ordering::SeqCst);
        &self.done
    }

    /// From now on nothing is to be said: a stream says itself how far it is.
    pub fn hide(&self) {
        self.is_hidden.store(true, Ordering::SeqCst);
    }

    /// Whether nothing is to be said.
    pub fn is_hidden(&self) -> bool {
        self.is_hidden.load(Ordering::SeqCst)
    }

    /// Whether rounds of a fleet are counted.
    pub fn is_fleet(&self) -> bool {
        self.is_fleet.load(Ordering::SeqCst)
    }
}

impl fmt::Display for RunProgress {
    fn fmt<W: fmt::Write>(&self, f: &mut fmt::Formatter<W>) -> fmt::Result {
        let done = self.done.load(Ordering::SeqCst);
        let things = if self.is_fleet() { "rounds" } else { "steps" };
        write!(f, "{done} {things} done")
    }
}
