//! What a coordinator knows: the replicated state, its joins, and its facts.
//!
//! It is a delta-state CRDT (Almeida, Shoker and Baquero, "Delta state replicated data types", 2018).
#![tactic(auto)]

pub mod facts;
pub mod from_maps;
pub mod from_ops;
pub mod knowledge;
pub mod laws;
pub mod mutators;
pub mod record_facts;
