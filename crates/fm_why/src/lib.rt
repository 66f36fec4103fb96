//! Why a task waits or runs: how much dearer each schedule is that does otherwise, at least.
#![tactic(auto)]

mod alternative;
mod bounds;
mod changes;
pub mod laws;
mod options;
pub mod reasons;
mod running;
mod tighten;
pub mod why;
