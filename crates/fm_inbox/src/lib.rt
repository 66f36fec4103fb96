//! Inboxes: bounded queues of packets that threads share.
#![tactic(auto)]

mod conservation;
pub mod inbox;
pub mod owned_port;
