//! The network: nodes, and arcs that have a capacity and a cost.
#![tactic(auto)]

pub mod apply;
pub mod edit;
mod hybrid_map;
pub mod laws;
pub mod network;
pub mod node;
pub mod node_guesses;
mod slab_map;
pub mod walks;
