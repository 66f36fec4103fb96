//! Streams that outlive their process: what was answered `ok` is in a store first.
//!
//! Start with `durable_stream`. Not here: how a store is written and read (`fm_store`), what a line does (`fm_service`), and how lines are
//! read in groups and answered (`fm_io`).
#![tactic(auto)]

pub mod durable_service;
pub mod durable_stream;
mod found;
mod growth;
pub mod laws;
