//! Shares: the part of a plan that a coordinator carries out.
#![tactic(auto)]

pub mod laws;
pub mod part;
pub mod share;
mod taken_places;
pub mod writers;
