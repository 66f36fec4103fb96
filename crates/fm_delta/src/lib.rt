//! What coordinators exchange: buffers of deltas, from which delta groups are cut, and packets.
//!
//! A coordinator can send what came since its last packet, and need not send its complete state (delta-state CRDTs:
//! Almeida, Shoker and Baquero, 2018).
#![tactic(auto)]

pub mod buffer;
pub mod packet;
