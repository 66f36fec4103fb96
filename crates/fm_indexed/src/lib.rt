//! A network by numbers, in flat arrays: nodes by their place in node order, arcs in the network's order.
//!
//! Units and potentials by number go back to flows and potentials of the network.
#![tactic(auto)]

pub mod feasible_units;
pub mod improved;
pub mod indexed_network;
mod node_index;
pub mod node_ranges;
mod numbering;
pub mod sums;
pub mod to_named;
pub mod unscheduled;
