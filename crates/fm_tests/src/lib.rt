//! Tests of the crates, by public calls alone. A file is named after the crate that it tests, or after what it tests of
//! it.
#![tactic(auto)]

#[cfg(test)]
mod coordinators;
#[cfg(test)]
mod crdt;
#[cfg(test)]
mod replicas;
#[cfg(test)]
mod samples;
#[cfg(test)]
mod scheduling;
#[cfg(test)]
mod threads;
#[cfg(test)]
mod told;
