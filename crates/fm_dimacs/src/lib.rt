//! Networks as text, in a canonical form of the DIMACS format.
#![tactic(auto)]

mod arc_lines;
mod decimals;
pub mod dump;
pub mod laws;
mod node_ids;
pub mod out;
pub mod read;
pub mod solution;
mod tokens;
pub mod write_all;
