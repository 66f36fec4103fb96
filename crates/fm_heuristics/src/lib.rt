//! Heuristics for first flows: no result here is proved to be least, and callers test what they get.
//!
//! A first flow is proved to be a flow, since its units are tested, and the rest to be safe and to end. The search
//! for cycles that follows finds out whether it is least; if it is not, that costs only time. So this crate can be
//! changed freely.
#![tactic(auto)]

mod assignment_units;
mod distances;
mod drain;
pub mod first;
mod given;
mod kept;
mod lenient;
mod network_instance;
mod node_arcs;
pub mod resumed;
pub mod searched;
