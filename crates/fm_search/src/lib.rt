//! The search for a cheapest way to place tasks: one for the solver of networks, and for plans of what is known.
//!
//! It works on machines, requests and tasks by number (`instance`), which an adapter makes of whatever lists them
//! (`draft`). Nothing is proved of its result but that it is safe and ends: whoever uses an answer checks it first.
#![tactic(auto)]

use fm_lattice::join::OutOfMemory;

/// What is made or done, unless memory is refused.
type Tried<T> = Result<T, OutOfMemory>;

pub mod assignment;
mod augmenting;
mod bit_set;
mod board;
mod costs;
pub mod draft;
mod exits;
mod full_machines;
pub mod instance;
mod lower_bounds;
mod movable;
mod path_search;
mod path_steps;
mod placing;
mod prices;
pub mod search;
mod segment_tree;
mod start;
