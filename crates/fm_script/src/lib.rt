//! Scripts and lines of a stream, how they are read from JSON, and the world with which a run of one begins.
#![tactic(auto)]

pub mod coordinators;
pub mod fault_laws;
pub mod find_fault;
pub mod initial_world;
pub mod names;
pub mod parse_request;
pub mod parse_script;
mod parse_share;
pub mod parse_tells;
pub mod request;
pub mod script;
pub mod script_fault;
