//! A store: the packets of a cluster's coordinators in a file, which outlives crashes.
//!
//! A coordinator that restarts must know at least what it told others, since they act on it. So each packet is added to a file that grows
//! at its end, and is on the disk before it is sent. A crash can leave a torn end, which is cut off; all else that is not as it was
//! written is told as damage, and never as packets.
#![tactic(auto)]

pub mod device;
pub mod disk;
mod disk_files;
mod end_mark;
pub mod frames;
pub mod head;
pub mod known;
pub mod laws;
pub mod memory;
pub mod packet_sink;
pub mod pieces;
pub mod recovery;
pub mod store;
pub mod store_fault;
