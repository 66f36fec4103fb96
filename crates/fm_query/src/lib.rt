//! Queries of a world of coordinators, and the texts that answer them.
#![tactic(auto)]

pub mod agree;
pub mod end_text;
pub mod field_ranges;
mod id_text;
pub mod list_text;
pub mod next_text;
pub mod over_text;
pub mod packet_text;
pub mod plan_text;
pub mod query;
pub mod reasons_text;
pub mod round_text;
pub mod size_text;
pub mod solution_text;
pub mod stops_text;
mod text_lines;
pub mod unpack;
pub mod version_text;
pub mod winners_text;
