//! A solver for least flows, and the flows, potentials and checker of `fm_certificate` that it answers by.
//!
//! What is tried to be fast is `fm_heuristics`; what is here is proved, whatever that crate answers.
#![tactic(auto)]

pub mod solve;

pub use fm_certificate::{check, cost, flow, flow_iter, laws, potentials};
