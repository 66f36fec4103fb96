//! What a search answers: where tasks go, and prices that show that no other way is cheaper.

use crate::Tried;
use crate::board::Board;
use crate::instance::Instance;
use crate::prices::prices_of;
use std::alloc::Global;

/// How many tasks of a request go to a machine.
#[derive(Clone, Copy, Drop)]
pub struct RequestUnits {
    pub request: usize,
    pub units: i64,
}

/// Where a task that prefers machines goes.
#[derive(Clone, Copy, PartialEq, Eq, Drop)]
pub enum Destination {
    /// It waits.
    Nowhere,
    /// Where its request sends it, as a task without preferences.
    ByRequest,
    /// To the machine, which it prefers.
    Straight(usize),
}

/// Where the tasks of an instance go, and prices. All numbers are those of the instance.
#[derive(Drop)]
pub struct Assignment {
    /// What was to be placed.
    pub instance: Instance,
    /// Of each machine, how many of its held tasks, the cheapest, are preempted.
    pub gone: Vec<usize>,
    /// Of each machine, how many tasks go there by their requests.
    pub shares: Vec<Vec<RequestUnits>>,
    /// Of each request, how many of its tasks without preferences are placed: those that are worth most.
    pub placed: Vec<usize>,
    /// Of each task that prefers machines, where it goes.
    pub destinations: Vec<Destination>,
    /// What one more task costs at each machine, its load included.
    pub machine_prices: Vec<i64>,
    /// What one more task of each request costs, without the request.
    pub request_prices: Vec<i64>,
}

// Of each machine, how many of its held tasks are preempted.
fn gone_of(alloc: Global, board: &Board) -> Tried<Vec<usize>> {
    let mut gone = Vec::with_capacity(alloc, board.slots.len())?;
    for slots in &board.slots {
        gone.push(slots.gone)?;
    }
    Ok(gone)
}

// The prices of machines, and how many held tasks are preempted at each.
fn found_of(alloc: Global, board: &Board) -> Tried<(Vec<i64>, Vec<usize>)> {
    let machine_prices = prices_of(alloc, board)?;
    Ok((machine_prices, gone_of(alloc, board)?))
}

// What was placed on the board, with these.
fn with_found(board: Board, machine_prices: Vec<i64>, gone: Vec<usize>) -> Assignment {
    let movable = board.movable;
    Assignment {
        instance: board.instance,
        gone,
        shares: board.shares,
        placed: board.placed,
        destinations: movable.destinations,
        machine_prices,
        request_prices: board.request_labels,
    }
}

/// What was placed on the board, and its prices. O(n log n) in the tasks and machines.
pub(crate) fn assignment_of(alloc: Global, board: Board) -> Tried<Assignment> {
    let (machine_prices, gone) = found_of(alloc, &board)?;
    Ok(with_found(board, machine_prices, gone))
}
