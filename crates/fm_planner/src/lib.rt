//! Plans of what is known: from a tally alone, with no network, or else that of a least flow of the network.
//!
//! From a tally it is the plan of a claim, which a search finds (`fm_search`) and a check takes.
#![tactic(auto)]

mod checking;
mod claim;
mod claim_of_assignment;
mod machine_index;
mod move_counts;
pub mod network_plan;
mod plan_of_moves;
pub mod plan_source;
pub mod planner;
mod tally_instance;
