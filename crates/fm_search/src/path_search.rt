//! The cheapest path of a unit to a slot, where tasks that were placed move on to make room.
//!
//! A path leads from a request, or from a task that prefers machines, over full machines and the tasks that were placed
//! there. It ends at a free slot, at one that a held task gives up, or with a task that waits again. The search is by
//! cost so far plus label (Hart, Nilsson and Raphael, 1968), and stops at the best end. Then each node that was reached
//! has a better label: the best cost less the cost so far (Jonker and Volgenant, 1987). Labels may be too low here and
//! there, so a node that is reached again at less cost is looked at again.
//!
//! Nodes are requests and full machines. Between requests all steps cost nothing, so a request leads to others by rows of
//! bits (`full_machines`). A machine is a node of its own only where a task that prefers machines moves.

use crate::Tried;
use crate::board::Board;
use crate::costs::{NONE, raise};
use std::alloc::Global;
use std::collections::BinaryHeap;

/// How a path ends.
#[derive(Clone, Copy, PartialEq, Eq, Drop)]
pub(crate) enum End {
    /// There is no path below the bound.
    Stay,
    /// The last request leads to a slot of the machine.
    Slot(usize),
    /// The last machine has the slot.
    Here,
    /// A task of the last request waits again.
    Unplace,
    /// A task that prefers machines waits again.
    Leave(usize),
}

/// How a node was reached: from which node, over which machine if both are requests, and by which task that prefers machines.
#[derive(Clone, Copy, Drop)]
pub(crate) struct Step {
    pub(crate) from: usize,
    pub(crate) over: usize,
    pub(crate) task: usize,
}

/// The first step of a path.
pub(crate) const FIRST_STEP: Step = Step {
    from: NONE,
    over: NONE,
    task: NONE,
};

/// A node: in which search it was reached last, at what cost, and how.
#[derive(Clone, Copy, Drop)]
pub(crate) struct Node {
    reached: u64,
    cost: i64,
    step: Step,
}

const NOT_REACHED: Node = Node {
    reached: 0,
    cost: 0,
    step: FIRST_STEP,
};

/// A node that waits to be looked at. The greatest is looked at first: that of least cost and label, then of least number.
#[derive(Clone, Copy, PartialEq, Eq, PartialOrd, Ord, Drop)]
struct Turn {
    // Cost and label, negated.
    below: i64,
    // The number, from the other end.
    behind: usize,
    cost: i64,
}

/// Searches for cheapest paths, one after another.
#[derive(Drop)]
pub(crate) struct Paths {
    pub(crate) board: Board,
    // Requests, and then machines.
    requests: usize,
    pub(crate) nodes: Vec<Node>,
    now: u64,
    seen: Vec<usize>,
    queue: BinaryHeap<Turn>,
    // How many more nodes may be looked at.
    looks: usize,
    /// The full machines to which a request led, and the greatest cost at which one did.
    pub(crate) near: Vec<u64>,
    pub(crate) near_cost: i64,
    /// Of those, the ones that the last request reached first, as words with their numbers.
    pub(crate) fresh: Vec<(usize, u64)>,
    /// The requests with tasks on full machines that are yet to be reached.
    pub(crate) rest: Vec<usize>,
    /// What the cheapest path so far costs, its last node, and how it ends.
    pub(crate) best: i64,
    pub(crate) last: usize,
    pub(crate) end: End,
}

impl Paths {
    /// No search yet. All together look at so many nodes at most for each task, machine and request, and for one more.
    pub(crate) fn of(alloc: Global, board: Board, most: usize) -> Tried<Paths> {
        let instance = &board.instance;
        let requests = instance.requests.len();
        let nodes = requests.saturating_add(instance.machines.len());
        let tasks = instance
            .held
            .len()
            .saturating_add(instance.worths.len())
            .saturating_add(instance.preferring.len());
        let looks = nodes
            .saturating_add(tasks)
            .saturating_add(1)
            .saturating_mul(most);
        Ok(Paths {
            board,
            requests,
            nodes: vec![in alloc; NOT_REACHED; nodes]?,
            now: 0,
            seen: Vec::new(alloc),
            queue: BinaryHeap::new(alloc),
            looks,
            near: Vec::new(alloc),
            near_cost: i64::MIN,
            fresh: Vec::new(alloc),
            rest: Vec::new(alloc),
            best: 0,
            last: NONE,
            end: End::Stay,
        })
    }

    /// The board, with what was placed on it.
    pub(crate) fn into_board(self) -> Board {
        self.board
    }

    /// The node of a machine.
    pub(crate) fn machine_node(&self, machine: usize) -> usize {
        self.requests.saturating_add(machine)
    }

    /// The machine of a node, None for a request's.
    pub(crate) fn machine_at(&self, node: usize) -> Option<usize> {
        node.checked_sub(self.requests)
    }

    /// How the node was reached.
    pub(crate) fn step_to(&self, node: usize) -> Step {
        match self.nodes.get(node) {
            Some(node) => node.step,
            None => FIRST_STEP,
        }
    }

    /// Whether more nodes may be looked at: if not, what was found may be wrong.
    pub(crate) fn may_go_on(&self) -> bool {
        self.looks > 0
    }

    // Begins a search for a path that costs less than the bound.
    fn begin(&mut self, bound: i64) -> Tried<()> {
        self.now = self.now.saturating_add(1);
        self.seen.clear();
        self.queue.clear();
        self.near.clear();
        self.near
            .resize(self.board.full.machines.len().div_ceil(64), 0)?;
        self.near_cost = i64::MIN;
        self.renew_rest()?;
        self.best = bound;
        self.last = NONE;
        self.end = End::Stay;
        Ok(())
    }

    /// All requests with tasks on full machines are yet to be reached.
    pub(crate) fn renew_rest(&mut self) -> Tried<()> {
        self.rest.clear();
        self.rest.extend_from_slice(&self.board.full.active)?;
        Ok(())
    }

    /// Searches for the cheapest path of a unit of the request, if one costs less than the bound.
    pub(crate) fn search_for(&mut self, request: usize, bound: i64) -> Tried<()> {
        self.begin(bound)?;
        self.reach_request(request, 0, FIRST_STEP)?;
        self.go_on()
    }

    /// The same of a task that prefers machines.
    pub(crate) fn search_for_task(&mut self, task: usize, bound: i64) -> Tried<()> {
        self.begin(bound)?;
        self.leave_task(task, 0, NONE)?;
        self.go_on()
    }

    // Looks at nodes, as long as a path over one may be cheaper than the best.
    fn go_on(&mut self) -> Tried<()> {
        for _ in 0..self.looks {
            let Some(turn) = self.queue.pop() else {
                break;
            };
            if turn.below.saturating_neg() >= self.best {
                break;
            }
            self.look_at(turn)?;
        }
        self.learn();
        Ok(())
    }

    // Goes on from a node, unless it was reached at less cost meanwhile.
    fn look_at(&mut self, turn: Turn) -> Tried<()> {
        self.looks = self.looks.saturating_sub(1);
        let number = usize::MAX.saturating_sub(turn.behind);
        if turn.cost != self.cost(number) {
            return Ok(());
        }
        match self.machine_at(number) {
            Some(machine) => self.leave_machine(machine, turn.cost),
            None => self.leave_request(number, turn.cost),
        }
    }

    // Each node that was reached costs at least what the best path does from there.
    fn learn(&mut self) {
        for place in 0..self.seen.len() {
            let number = self.seen.get(place).copied().unwrap_or(NONE);
            let rest = self.best.saturating_sub(self.cost(number));
            match self.machine_at(number) {
                Some(machine) => raise(&mut self.board.machine_labels, machine, rest),
                None => raise(&mut self.board.request_labels, number, rest),
            }
        }
    }

    // The cost at which the node was reached, or one beyond all others.
    fn cost(&self, number: usize) -> i64 {
        match self.nodes.get(number) {
            Some(node) if node.reached == self.now => node.cost,
            _ => i64::MAX,
        }
    }

    // Reaches a node.
    fn reach(&mut self, number: usize, cost: i64, step: Step) -> Tried<()> {
        let Some(node) = self.nodes.get_mut(number) else {
            return Ok(());
        };
        if node.reached != self.now {
            self.seen.push(number)?;
        }
        *node = Node {
            reached: self.now,
            cost,
            step,
        };
        Ok(())
    }

    // Looks at a node later.
    fn put_off(&mut self, number: usize, cost: i64, least: i64) -> Tried<()> {
        self.queue.push(Turn {
            below: least.saturating_neg(),
            behind: usize::MAX.saturating_sub(number),
            cost,
        })?;
        Ok(())
    }

    /// Takes the end of a path, if it is the cheapest so far.
    pub(crate) fn take_end(&mut self, cost: i64, last: usize, end: End) {
        if cost < self.best {
            self.best = cost;
            self.last = last;
            self.end = end;
        }
    }

    /// Whether a request is of no use at that cost.
    pub(crate) fn is_too_dear(&self, request: usize, cost: i64) -> bool {
        cost.saturating_add(self.board.request_label(request)) >= self.best
            || self.cost(request) <= cost
    }

    /// Reaches a request, if that is of use.
    pub(crate) fn reach_request(&mut self, request: usize, cost: i64, step: Step) -> Tried<()> {
        if self.is_too_dear(request, cost) {
            return Ok(());
        }
        self.reach(request, cost, step)?;
        let exit = self.board.exit(request)?;
        let end = End::Slot(exit.machine);
        self.take_end(cost.saturating_add(exit.price), request, end);
        if let Some(worth) = self.board.last_worth(request) {
            self.take_end(cost.saturating_add(worth), request, End::Unplace);
        }
        let least = cost.saturating_add(self.board.request_label(request));
        self.put_off(request, cost, least)
    }

    /// Reaches a machine, if that is of use.
    pub(crate) fn reach_machine(&mut self, machine: usize, cost: i64, step: Step) -> Tried<()> {
        let number = self.machine_node(machine);
        let least = cost.saturating_add(self.board.machine_label(machine));
        if least >= self.best || self.cost(number) <= cost {
            return Ok(());
        }
        let floor = self.board.floor(machine);
        raise(&mut self.board.machine_labels, machine, floor);
        let least = cost.saturating_add(self.board.machine_label(machine));
        if least >= self.best {
            return Ok(());
        }
        self.reach(number, cost, step)?;
        let price = self.board.price(machine);
        self.take_end(cost.saturating_add(price), number, End::Here);
        if self.board.full_number(machine) == NONE {
            return Ok(());
        }
        self.put_off(number, cost, least)
    }
}
