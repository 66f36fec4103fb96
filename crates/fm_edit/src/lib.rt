//! Networks that are edited instead of rebuilt, what a delta can change in them, and looking up single records.
//!
//! To maintain a view by what changed is incremental view maintenance (Gupta and Mumick, 1995).
#![tactic(auto)]

mod affected;
mod affected_pairs;
mod cache_updates;
pub mod deferred;
mod diff;
mod dirty;
pub mod editor;
mod editor_state;
pub mod keepers;
pub mod laws;
pub mod look;
mod record_cache;
mod shown;
mod task_index;
