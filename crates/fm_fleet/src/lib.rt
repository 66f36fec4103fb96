//! Coordinators that threads share: nodes with their seats, rounds, and the audit of what the threads did.
#![tactic(auto)]

pub mod audit;
pub mod closing;
pub mod laws;
mod locked_coordinator;
pub mod node;
mod owners;
pub mod round;
pub mod seat;

// The inboxes by which nodes pass packets on.
pub use fm_inbox::{inbox, owned_port};
