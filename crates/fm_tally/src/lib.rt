//! The tally of a knowledge: what a plan needs of it, without a network.
#![tactic(auto)]

pub mod guide;
mod holdings;
pub mod job_counts;
pub mod sorted;
pub mod tally;
pub mod unfinished;
pub mod way;
pub mod winner_scan;
