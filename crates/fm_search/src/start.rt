//! The board of an instance, on which nothing is placed yet.

use crate::Tried;
use crate::assignment::RequestUnits;
use crate::board::{Board, Slots};
use crate::costs::{FAR, NONE};
use crate::exits::{Exits, NO_EXIT, Sought};
use crate::full_machines::Full;
use crate::instance::{Instance, Machine};
use crate::movable::Movable;
use crate::segment_tree::{LEAST, Tree};
use std::alloc::Global;

// For more pairs of a request and a machine, a network is built.
const MOST_PAIRS: usize = 1 << 26;

// The slots of a machine: held tasks stay, and beyond the slots the cheapest are preempted.
fn slots_of(instance: &Instance, machine: &Machine) -> Slots {
    let held = instance.held_by(machine);
    let count = i64::try_from(held.len()).unwrap_or(i64::MAX);
    let free = machine.slots.saturating_sub(count).max(0);
    let gone = usize::try_from(count.saturating_sub(machine.slots)).unwrap_or(0);
    let price = match held.get(gone) {
        _ if free > 0 => machine.load,
        Some(price) => machine.load.saturating_add(*price),
        None => FAR,
    };
    Slots {
        free,
        price,
        gone,
        rank: NONE,
        full: NONE,
    }
}

// The machines by falling spare, each with its spare, negated. None of them if no task is held.
fn ranked_of(alloc: Global, instance: &Instance) -> Tried<Vec<(i64, usize)>> {
    let mut ranked = Vec::new(alloc);
    if instance.held.is_empty() {
        return Ok(ranked);
    }
    for (number, machine) in instance.machines.iter().enumerate() {
        if machine.spare >= 0 {
            ranked.push((machine.spare.saturating_neg(), number))?;
        }
    }
    ranked.sort_unstable();
    Ok(ranked)
}

// What the rows of so many machines are kept in: their slots, the tasks there, and their labels.
type MachineRows = (Vec<Slots>, Vec<Vec<RequestUnits>>, Vec<i64>);

// The three values, if none is lacking.
fn all_three<A: Drop, B: Drop, C: Drop>(
    first: Tried<A>,
    second: Tried<B>,
    third: Tried<C>,
) -> Tried<(A, B, C)> {
    Ok((first?, second?, third?))
}

// Room for so many machines.
fn machine_rows(alloc: Global, machines: usize) -> Tried<MachineRows> {
    let slots = Vec::with_capacity(alloc, machines)?;
    let shares = Vec::with_capacity(alloc, machines)?;
    let labels = Vec::with_capacity(alloc, machines)?;
    Ok((slots, shares, labels))
}

// Of so many requests, how many tasks are placed, their labels, and what is known of their exits.
fn request_rows(alloc: Global, requests: usize) -> Tried<(Vec<usize>, Vec<i64>, Exits)> {
    let placed = vec![in alloc; 0; requests]?;
    let labels = vec![in alloc; 0; requests]?;
    let exits = Exits::none(alloc, requests)?;
    Ok((placed, labels, exits))
}

// No full machines, and no placed tasks that prefer machines.
fn both_of(
    alloc: Global,
    tasks: usize,
    machines: usize,
    requests: usize,
) -> Tried<(Full, Movable)> {
    let full = Full::none(alloc, requests, machines)?;
    let movable = Movable::of(alloc, tasks, machines, requests)?;
    Ok((full, movable))
}

impl Board {
    /// The board of an instance, on which waiting tasks wait. None for too many requests and machines. O(n log n) in machines, and two
    /// bits for each machine and request.
    pub(crate) fn of(alloc: Global, instance: Instance) -> Tried<Option<Board>> {
        let (requests, machines) = (instance.requests.len(), instance.machines.len());
        if requests.saturating_mul(machines) > MOST_PAIRS {
            return Ok(None);
        }
        let mut board = Board::empty(alloc, instance)?;
        board.begin(alloc)?;
        Ok(Some(board))
    }

    // The board of an instance of which nothing is known yet.
    fn empty(alloc: Global, instance: Instance) -> Tried<Board> {
        let (requests, machines) = (instance.requests.len(), instance.machines.len());
        let tasks = instance.preferring.len();
        let (by_machine, by_request, (full, movable)) = all_three(
            machine_rows(alloc, machines),
            request_rows(alloc, requests),
            both_of(alloc, tasks, machines, requests),
        )?;
        let (slots, shares, machine_labels) = by_machine;
        let (placed, request_labels, exits) = by_request;
        Ok(Board {
            instance,
            slots,
            shares,
            placed,
            exits,
            full,
            movable,
            request_labels,
            machine_labels,
        })
    }

    fn begin(&mut self, alloc: Global) -> Tried<()> {
        self.open(alloc)?;
        self.rank(alloc)
    }

    // Frees the slots of machines that no held task has. The label of a machine is the price of its next slot.
    fn open(&mut self, alloc: Global) -> Tried<()> {
        let mut spares = Vec::with_capacity(alloc, self.instance.machines.len())?;
        for number in 0..self.instance.machines.len() {
            let machine = self.instance.machine(number);
            let slots = slots_of(&self.instance, &machine);
            self.slots.push(slots)?;
            self.shares.push(Vec::new(alloc))?;
            self.machine_labels.push(slots.price)?;
            let spare = if slots.free > 0 { machine.spare } else { LEAST };
            spares.push(spare)?;
        }
        self.exits.free = Tree::of(alloc, &spares)?;
        Ok(())
    }

    // Ranks the machines by falling spare. Of each request it is known how many of them have bandwidth for it.
    fn rank(&mut self, alloc: Global) -> Tried<()> {
        let ranked = ranked_of(alloc, &self.instance)?;
        for request in &self.instance.requests {
            let most = request.size.saturating_neg();
            self.exits.sought.push(Sought {
                from: 0,
                roomy: ranked.partition_point(|pair| pair.0 <= most),
                is_known: false,
                exit: NO_EXIT,
            })?;
        }
        let mut prices = Vec::with_capacity(alloc, ranked.len())?;
        for (rank, (_, machine)) in ranked.iter().enumerate() {
            self.exits.ranked.push(*machine)?;
            prices.push(self.ranked_price(rank, *machine))?;
        }
        self.exits.kept = Tree::of(alloc, &prices)?;
        Ok(())
    }

    // Ranks the machine. Answers what its next slot costs, negated, if none is free.
    fn ranked_price(&mut self, rank: usize, machine: usize) -> i64 {
        match self.slots.get_mut(machine) {
            Some(slots) => {
                slots.rank = rank;
                if slots.free > 0 {
                    LEAST
                } else {
                    slots.price.saturating_neg()
                }
            }
            None => LEAST,
        }
    }
}
