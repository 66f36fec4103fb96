//! Tests of the lattice, of operations, of what is known, of deltas, of packets in bytes and of stores.

mod delta;
mod know;
mod lattice;
mod records;
mod store;
mod versions;
mod wire;
