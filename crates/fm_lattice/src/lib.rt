//! Joins: values that merge, in any order and any number of times.
#![tactic(auto)]

mod block;
mod blocks;
pub mod chain;
pub mod constructors;
pub mod join;
pub mod map;
mod merging;
mod pairs;
pub mod shared;
pub mod sorted_vec;
mod split_budget;
mod staged_join;
