//! Salvage: what the file of a store has, whoever's it is and however damaged, as text for people and as packets.
//!
//! A store that is damaged is not opened, since what is behind the damage could be missed. What stands before it can still be read: all
//! records are listed, or what each coordinator knew by its packets is given as one packet, which a stream takes in.
//!
//! Nothing is changed or locked, and what is behind damage is not looked for. `fm_store` opens a store, and adds to it.
//! Start at `listing` and `recovering`.
#![tactic(auto)]

pub mod file;
mod frame_reading;
pub mod listing;
mod opening;
pub mod recovering;
pub mod salvaged;
