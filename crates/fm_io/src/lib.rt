//! The input and output of a program: bytes from a source and to a sink, and lines of a stream, each answered in order.
#![tactic(auto)]

pub mod committer;
pub mod follow;
pub mod group_commit;
mod held_replies;
pub mod input;
pub mod interrupts;
pub mod lines;
pub mod read_ahead;
mod replies;
pub mod responder;
pub mod sending;
pub mod sink;
pub mod source;
pub mod waiting;
