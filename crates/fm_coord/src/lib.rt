//! One coordinator: its state, deltas and network, with the history of its calls.
#![tactic(auto)]

mod calling;
pub mod coordinator;
pub mod decision;
pub mod entry;
pub mod entry_equality;
pub mod laws;
pub mod output;
mod tally_cache;
pub mod view;

// The values with several owners that calls return.
pub use fm_lattice::shared;
