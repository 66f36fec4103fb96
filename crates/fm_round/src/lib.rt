//! Rounds: plans, their admission, and what a coordinator has to stop.
#![tactic(auto)]

pub mod admission;
pub mod from_network;
pub mod from_units;
pub mod laws;
pub mod listed;
mod machine_holdings;
pub mod plan;
mod rules;
pub mod stops;
