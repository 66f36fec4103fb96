//! Flows of a network, what they cost, and the checker of certificates: what a reader believes of a least flow.
#![tactic(auto)]

pub mod check;
pub mod cost;
pub mod feasible;
pub mod flow;
pub mod flow_iter;
mod inflow;
pub mod laws;
mod outflow;
pub mod potentials;
