//! What threads of a fleet wait for: a packet, or the end of the fleet.
//!
//! A thread that waited for a packet of one that has stopped would wait for ever. So there is one bell for both (a
//! condition variable): it rings when packets were put, and when the fleet is stopped. A thread waits for one ring
//! more than it had counted, so no ring is missed. Why a fleet is stopped is said by what the refused thread leaves.
use std::sync::{Condvar, Mutex, Wait};

// How often the bell rang, modulo 2^64, and whether the fleet is stopped.
#[derive(Drop)]
struct Told {
    rings: u64,
    is_stopped: bool,
}

/// A bell that rings when packets were put and when the fleet stops. Threads that wait for it sleep.
#[derive(Drop)]
pub(crate) struct StopSignal {
    told: Mutex<Told>,
    rang: Condvar,
}

impl StopSignal {
    /// One that did not ring yet.
    pub(crate) fn new() -> StopSignal {
        let told = Mutex::new(Told {
            rings: 0,
            is_stopped: false,
        });
        StopSignal {
            told,
            rang: Condvar::new(),
        }
    }

    /// How often it rang.
    pub(crate) fn rings<R: Wait>(&self, rt: &R) -> u64 {
        self.told.lock(rt).rings
    }

    /// Wakes all that wait: packets were put.
    pub(crate) fn ring<R: Wait>(&self, rt: &R) {
        self.tell(rt, false);
    }

    /// Stops the fleet, and wakes all that wait.
    pub(crate) fn stop<R: Wait>(&self, rt: &R) {
        self.tell(rt, true);
    }

    /// Whether the fleet is stopped.
    pub(crate) fn is_stopped<R: Wait>(&self, rt: &R) -> bool {
        self.told.lock(rt).is_stopped
    }

    /// Waits until it rings once more than so often, or the fleet is stopped. Whether it is.
    pub(crate) fn wait<R: Wait>(&self, rt: &R, rings: u64) -> bool {
        let told = self.rang.wait_while(
            rt,
            self.told.lock(rt),
            |told| told.rings == rings && !told.is_stopped,
        );
        told.is_stopped
    }

    // Rings, and stops the fleet if that is asked for.
    fn tell<R: Wait>(&self, rt: &R, stops: bool) {
        let mut told = self.told.lock(rt);
        told.rings = told.rings.wrapping_add(1);
        told.is_stopped = told.is_stopped || stops;
        drop(told);
        self.rang.notify_all();
    }
}
