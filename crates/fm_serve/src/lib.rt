//! One run of the program `firmament`, as a library.
//!
//! It goes from the words of a command line and the bytes of an input to what is written and how the run ends. `fm_cli`
//! gives it the words, the input and the output of a process.
#![tactic(auto)]

pub mod answer;
mod check_text;
mod counter;
pub mod counts;
pub mod ending;
pub mod fault;
pub mod fleet;
pub mod laws;
mod members;
pub mod muster;
pub mod progress;
pub mod progress_line;
mod refusals;
pub mod respond;
pub mod run;
pub mod salvage;
mod script_check;
pub mod serve;
mod stored_stream;
mod telling_device;
