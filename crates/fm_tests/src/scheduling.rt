//! Tests of networks, of what builds, edits and writes them, of flows, and of plans.

mod certificate;
mod dimacs;
mod edit;
mod flow;
mod following;
mod net;
mod networks;
mod node_guesses;
mod policy;
mod round;
mod tally;
