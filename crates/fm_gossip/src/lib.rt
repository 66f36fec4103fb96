//! Fleets: coordinators that run at the same time, exchange what they know, and run rounds meanwhile.
#![tactic(auto)]

pub mod agreeing;
mod early;
pub mod exchange;
mod intake;
pub mod member;
mod member_end;
pub mod member_threads;
mod serving;
mod solver;
mod stop_signal;
mod work;
