//! Cycle cancelling on nodes and arcs with indices: cycles of negative cost are found and cancelled until none is left.
//!
//! The search is label correcting, after Bellman, Ford and Moore, with a parent for each node: memory O(nodes), and
//! O(nodes + arcs) once a search takes more than four sweeps. A walk back over parents that closes is a cycle of
//! negative cost, in whatever order arcs are relaxed (Cherkassky and Goldberg, "Negative-cycle detection algorithms",
//! 1999). Cancelling is Klein's (1967). If there is no cycle, the labels are potentials, which show that the units cost
//! least.
#![tactic(auto)]

pub mod cancel;
pub mod cancel_all;
pub mod check_potentials;
pub mod cycle_search;
pub mod indexed_arcs;
mod labels;
pub mod lookup;
mod parent_graph;
mod queue;
