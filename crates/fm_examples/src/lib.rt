//! One layer at a time, as an engineer would embed it: a caller of each crate that is useful alone, with a contract
//! that follows from that crate's. The page `CALLING.md` of each crate shows its caller from here.

#![tactic(auto)]

pub mod coord;
pub mod delta;
pub mod dimacs;
pub mod edit;
pub mod exchange;
pub mod fleet;
pub mod gather;
pub mod inbox;
pub mod know;
pub mod lattice;
pub mod lines;
pub mod net;
pub mod policy;
pub mod records;
pub mod round;
pub mod schedule;
pub mod store;
pub mod wire;
pub mod world;
