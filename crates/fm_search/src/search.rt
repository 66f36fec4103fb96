//! The search: waiting tasks are placed one after another, each over a cheapest path.
//!
//! It works on tasks and machines, without an arc for each request and machine, by successive shortest paths (Ford and
//! Fulkerson, 1962; Jewell, 1958), with labels that are kept from search to search (Jonker and Volgenant, 1987). Nearly all
//! costs sit at the two ends of a path. So most tasks need no walk over others: their next slot costs no more than the
//! label. Nothing is claimed of its answer, which is checked before use: as a flow of a network (`fm_heuristics`), or as
//! the claim of a plan (`fm_planner`).

use crate::assignment::{Assignment, assignment_of};
use crate::board::Board;
use crate::instance::Instance;
use crate::path_search::Paths;
use crate::placing::place_all;
use fm_lattice::join::OutOfMemory;
use std::alloc::Global;

/// How many nodes all searches together look at, for each task, machine and request, at most. No more than 130 were seen.
pub const MOST_LOOKS: usize = 4096;

/// Where the tasks of the instance go at the least cost, with prices that show it. None if the searches would look at more
/// than 4,096 nodes for each task, machine and request, or if there are more than 2^26 pairs of a request and a machine.
/// Refused if memory runs out, and for nothing else. O(n log n) in the tasks and machines, and a search over requests
/// and full machines for about each machine that fills up. Memory O(n), and two bits for each request and machine.
pub fn search(alloc: Global, instance: Instance) -> Result<Option<Assignment>, OutOfMemory> {
    search_within(alloc, instance, MOST_LOOKS)
}

/// As `search`, and looks at so many nodes at most for each task, machine and request.
pub fn search_within(
    alloc: Global,
    instance: Instance,
    most: usize,
) -> Result<Option<Assignment>, OutOfMemory> {
    let Some(board) = Board::of(alloc, instance)? else {
        return Ok(None);
    };
    answer_of(alloc, Paths::of(alloc, board, most)?)
}

// Where the tasks go by searches for paths, if these come to their ends.
fn answer_of(alloc: Global, mut paths: Paths) -> Result<Option<Assignment>, OutOfMemory> {
    let is_done = place_all(alloc, &mut paths);
    answer_if(alloc, is_done, paths.into_board())
}

// What was placed on the board, if the searches came to their ends.
fn answer_if(
    alloc: Global,
    is_done: Result<bool, OutOfMemory>,
    board: Board,
) -> Result<Option<Assignment>, OutOfMemory> {
    if !is_done? {
        return Ok(None);
    }
    let answer = assignment_of(alloc, board)?;
    Ok(Some(answer))
}
