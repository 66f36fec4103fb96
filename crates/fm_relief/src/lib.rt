//! Relief of machines that hold more than their bandwidth: which of their tasks to preempt.
#![tactic(auto)]

mod excess;
pub mod held_task;
mod held_tasks;
pub mod laws;
mod preempted;
pub mod relief;
