//! Tests of coordinators, of worlds, of scripts, of streams, and of gathering.

mod coord;
mod deferred;
mod exchanges;
mod gather;
mod groups;
mod input;
mod streams;
mod views;
mod world;
