//! The network-aware policy: the network of what is known, and keepers of it.
#![tactic(auto)]

pub mod arc_prices;
pub mod build;
pub mod changed;
mod inputs;
pub mod keeper;
pub mod laws;
pub mod node_facts;
mod nodes;
mod put_arcs;
pub mod rebuilder;
pub mod room;
pub mod stale_keys;
