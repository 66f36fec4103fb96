//! Packets as bytes: the one encoding of each packet in each version, and the first fault of bytes that encode none.
//!
//! The definitions call an encoding a *spelling*.
#![tactic(auto)]

mod codec;
mod decode_error;
mod flat_proposals;
pub mod laws;
mod number_codecs;
pub mod packet_size;
mod preferences;
pub mod reading;
mod record_codecs;
mod record_lists;
mod version;
pub mod writing;
