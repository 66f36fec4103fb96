//! The words of a command line, and what they ask for.
#![tactic(auto)]

mod help;
pub mod laws;
mod matched;
mod parser;
pub mod words;
