//! Several coordinators, run in steps, the main theorem about them, and one list of steps gathered from histories.
#![tactic(auto)]

mod cut_packets;
mod dispatch;
pub mod distinct;
pub mod gather;
pub mod laws;
mod linearization;
pub mod step;
mod sweeping;
pub mod world;
