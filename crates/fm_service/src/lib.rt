//! Coordinators that answer the lines of a stream, as long as it lasts.
#![tactic(auto)]

pub mod acting;
mod causes;
mod cut_names;
pub mod laws;
mod own_news;
pub mod renewing;
mod request_causes;
mod session;
mod storing;
pub mod stream;
pub mod stream_service;
mod verdict;
mod verdict_text;
