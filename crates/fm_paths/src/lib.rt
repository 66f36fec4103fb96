//! Laws of flows made of the ways of tasks, and of the plans that they come to.
//!
//! Each is the contract of a function that does nothing.
#![tactic(auto)]

pub mod laws;
