//! What a coordinator can be asked, as data: one type for commands, scripts and lines of a stream.
#![tactic(auto)]

pub mod question;
