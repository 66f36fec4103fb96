//! Ids, operations, records and refusals, and what a set of operations means.
#![tactic(auto)]

pub mod ids;
pub mod laws;
pub mod ops;
pub mod prefer;
pub mod records;
pub mod refusal;
