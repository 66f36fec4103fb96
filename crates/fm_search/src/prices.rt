//! The prices of what was placed: what one more task would cost at each machine and at each request.
//!
//! They are what a check needs beside the moves, as potentials are with a flow. Those of requests are the labels. That of
//! a machine is the least of its next slot, of the labels of requests with tasks there, and of what it costs to move on
//! the tasks there that prefer machines. The last of these depends on prices of other machines. So prices are lowered as
//! long as one is too high (labels corrected in turn: Ford, 1956), nearest to the kept labels first: then few fall twice.

use crate::Tried;
use crate::assignment::Destination;
use crate::board::Board;
use crate::costs::{cost_at, put};
use std::alloc::Global;
use std::collections::BinaryHeap;

// How many falls are followed, for each machine and each choice of a task: after that, the check refuses the prices.
const MOST_TURNS: usize = 64;

// A task at a machine may move on to another one, which costs so much more there. Sorted by these fields.
#[derive(Clone, Copy, PartialEq, Eq, PartialOrd, Ord, Drop)]
struct Move {
    to: usize,
    from: usize,
    cost: i64,
}

// A price that fell. The greatest is followed first: that which is the least above its label.
#[derive(Clone, Copy, PartialEq, Eq, PartialOrd, Ord, Drop)]
struct Fall {
    // How far the price is above the label, and the price, negated.
    below: i64,
    price_below: i64,
    machine: usize,
}

// Prices of machines, which fall, and the moves to each machine.
#[derive(Drop)]
struct Prices {
    costs: Vec<i64>,
    moves: Vec<Move>,
    falls: BinaryHeap<Fall>,
}

/// What one more task costs at each machine. That of a request is its label.
pub(crate) fn prices_of(alloc: Global, board: &Board) -> Tried<Vec<i64>> {
    let mut costs = Vec::with_capacity(alloc, board.slots.len())?;
    for machine in 0..board.slots.len() {
        costs.push(price_by_requests(board, machine))?;
    }
    if board.instance.preferring.is_empty() {
        return Ok(costs);
    }
    lowered(alloc, board, costs)
}

// The least of the machine's next slot and the labels of requests with tasks there.
fn price_by_requests(board: &Board, machine: usize) -> i64 {
    let slots = board.slots_of(machine);
    let mut price = slots.price;
    if slots.free > 0 {
        return price;
    }
    for share in board.shares_of(machine) {
        if share.units > 0 {
            price = price.min(board.request_label(share.request));
        }
    }
    price
}

// These prices, lowered by what it costs to move on tasks that prefer machines.
fn lowered(alloc: Global, board: &Board, costs: Vec<i64>) -> Tried<Vec<i64>> {
    let mut prices = Prices {
        costs,
        moves: Vec::with_capacity(alloc, board.instance.choices.len())?,
        falls: BinaryHeap::new(alloc),
    };
    prices.begin(board)?;
    prices.moves.sort_unstable();
    prices.follow(board)?;
    Ok(prices.costs)
}

impl Prices {
    // Lists the moves, and lowers each price to what it costs to move on a task there.
    fn begin(&mut self, board: &Board) -> Tried<()> {
        for task in 0..board.instance.preferring.len() {
            if let Destination::Straight(machine) = board.movable.destination(task) {
                self.begin_with(board, task, machine)?;
            }
        }
        Ok(())
    }

    // The same of a task at the machine.
    fn begin_with(&mut self, board: &Board, task: usize, machine: usize) -> Tried<()> {
        let preferring = board.instance.task(task);
        let gain = board.instance.gain(task, machine);
        let mut least = preferring
            .worth
            .min(board.request_label(preferring.request));
        for choice in board.instance.choices_of(&preferring) {
            let there = cost_at(&self.costs, choice.machine).saturating_sub(choice.gain);
            if choice.machine != machine {
                least = least.min(there);
            }
            self.moves.push(Move {
                to: choice.machine,
                from: machine,
                cost: gain.saturating_sub(choice.gain),
            })?;
        }
        self.lower(board, machine, gain.saturating_add(least))
    }

    // Lowers the price of a machine, if it is more.
    fn lower(&mut self, board: &Board, machine: usize, price: i64) -> Tried<()> {
        if price >= cost_at(&self.costs, machine) {
            return Ok(());
        }
        put(&mut self.costs, machine, price);
        let above = price.saturating_sub(board.machine_label(machine));
        self.falls.push(Fall {
            below: above.saturating_neg(),
            price_below: price.saturating_neg(),
            machine,
        })?;
        Ok(())
    }

    // Follows each fall to the machines whose tasks may move to where it was.
    fn follow(&mut self, board: &Board) -> Tried<()> {
        let turns = self.costs.len().saturating_add(self.moves.len());
        for _ in 0..turns.saturating_mul(MOST_TURNS) {
            let Some(fall) = self.falls.pop() else {
                break;
            };
            let price = fall.price_below.saturating_neg();
            if price <= cost_at(&self.costs, fall.machine) {
                self.follow_one(board, fall.machine, price)?;
            }
        }
        Ok(())
    }

    // Lowers the prices of machines whose tasks may move to one, which now costs so much.
    fn follow_one(&mut self, board: &Board, machine: usize, price: i64) -> Tried<()> {
        let first = self.moves.partition_point(|there| there.to < machine);
        for number in first..self.moves.len() {
            let Some(there) = self.moves.get(number).copied() else {
                break;
            };
            if there.to != machine {
                break;
            }
            self.lower(board, there.from, price.saturating_add(there.cost))?;
        }
        Ok(())
    }
}
