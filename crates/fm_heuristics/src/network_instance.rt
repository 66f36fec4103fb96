//! From a network by numbers to what is to be placed (`fm_search`).
//!
//! A network of the policy has an arc from each request to each machine with room for it. Its cost is the request and the
//! machine's load, and its capacity is for how many such tasks the machine has slots and bandwidth. So these arcs tell
//! the load and the spare bandwidth of a machine, or as much of it as matters for these requests.

use crate::node_arcs::{arcs_between, arcs_of_node, first_from};
use fm_cycles::indexed_arcs::IndexedArc;
use fm_cycles::lookup::value_or;
use fm_indexed::indexed_network::IndexedNetwork;
use fm_indexed::node_ranges::NodeKind;
use fm_lattice::join::OutOfMemory;
use fm_search::draft::{Draft, TaskNumbers};
use fm_search::instance::Instance;
use std::alloc::Global;

/// What the numbers of an instance stand for.
#[derive(Drop)]
pub(crate) struct Numbers {
    /// Of each machine of the instance, its number in the network.
    pub(crate) machines: Vec<usize>,
    /// Where the arcs of each request begin, and where the last ones end.
    pub(crate) rows: Vec<usize>,
    /// Of each task, the number of its first arc.
    pub(crate) tasks: TaskNumbers,
}

// What the arcs of a machine say of it.
#[derive(Clone, Copy, Drop)]
struct Outline {
    slots: i64,
    load: i64,
    // The first so many requests reach it.
    requests: usize,
    // How much bandwidth it has to spare: at least so much, and at most so much.
    least: i64,
    most: i64,
}

// A machine of which nothing is known yet.
const BLANK: Outline = Outline {
    slots: 0,
    load: 0,
    requests: 0,
    least: 0,
    most: i64::MAX,
};

// The capacity of an arc.
fn capacity_of(arc: &IndexedArc) -> i64 {
    i64::try_from(arc.capacity).unwrap_or(i64::MAX)
}

// The size of a request.
fn size_of(numbered: &IndexedNetwork, request: usize) -> i64 {
    i64::from(value_or(&numbered.requests, request, 0))
}

impl Outline {
    // Takes in the arc from the request, of this size. Answers whether it fits to those from smaller requests.
    fn take_in(&mut self, arc: &IndexedArc, request: usize, size: i64) -> bool {
        let load = i64::from(arc.cost).saturating_sub(size);
        if self.requests != request || request > 0 && self.load != load {
            return false;
        }
        self.requests = request.saturating_add(1);
        self.load = load;
        let fitting = capacity_of(arc);
        self.least = self.least.max(fitting.saturating_mul(size));
        if fitting < self.slots {
            let beyond = fitting.saturating_add(1).saturating_mul(size);
            self.most = self.most.min(beyond.saturating_sub(1));
        }
        true
    }

    // The next request would not fit, if there is one. Answers whether there is so much bandwidth that all this can be.
    fn close(&mut self, numbered: &IndexedNetwork) -> bool {
        if let Some(size) = numbered.requests.get(self.requests) {
            self.most = self.most.min(i64::from(*size).saturating_sub(1));
        }
        self.least <= self.most || self.requests == 0
    }

    // How much bandwidth it has to spare, as far as that matters.
    fn spare(&self) -> i64 {
        if self.most < i64::MAX {
            self.most
        } else {
            self.least
        }
    }
}

// What the arcs of machines say of each. None if the network is not one of the policy.
fn outlines_of(
    alloc: Global,
    numbered: &IndexedNetwork,
) -> Result<Option<Vec<Outline>>, OutOfMemory> {
    let places = &numbered.places;
    let mut outlines = vec![in alloc; BLANK; places.machines_len()]?;
    for arc in arcs_between(numbered, places.machines, places.tasks) {
        let machine = arc.from.saturating_sub(places.machines);
        if let Some(outline) = outlines.get_mut(machine) {
            outline.slots = capacity_of(arc);
        }
    }
    let is_well = take_in_requests(numbered, &mut outlines)
        && outlines.iter_mut().all(|outline| outline.close(numbered));
    Ok(is_well.then_some(outlines))
}

// Takes in the arcs of requests. Answers whether they fit together.
fn take_in_requests(numbered: &IndexedNetwork, outlines: &mut [Outline]) -> bool {
    let places = &numbered.places;
    for arc in arcs_between(numbered, places.requests, places.machines) {
        let request = arc.from.saturating_sub(places.requests);
        let machine = arc.to.saturating_sub(places.machines);
        let size = size_of(numbered, request);
        let fits = match outlines.get_mut(machine) {
            Some(outline) => outline.take_in(arc, request, size),
            None => false,
        };
        if !fits {
            return false;
        }
    }
    true
}

// The machines by rising load.
fn order_of(alloc: Global, outlines: &[Outline]) -> Result<Vec<(i64, usize)>, OutOfMemory> {
    let mut order = Vec::with_capacity(alloc, outlines.len())?;
    for (machine, outline) in outlines.iter().enumerate() {
        order.push((outline.load, machine))?;
    }
    order.sort_unstable();
    Ok(order)
}

// Where the arcs of each request begin, and where the last ones end.
fn rows_of(alloc: Global, numbered: &IndexedNetwork) -> Result<Vec<usize>, OutOfMemory> {
    let places = &numbered.places;
    let mut rows = Vec::new(alloc);
    for node in places.requests..places.machines {
        rows.push(first_from(numbered, node))?;
    }
    rows.push(first_from(numbered, places.machines))?;
    Ok(rows)
}

// An instance while it is made, and the numbers of machines in it.
#[derive(Drop)]
struct Reading<'a> {
    numbered: &'a IndexedNetwork,
    draft: Draft,
    // By number in the network.
    numbers: Vec<usize>,
}

impl<'a> Reading<'a> {
    // Machines and requests, without tasks.
    fn of(
        alloc: Global,
        numbered: &'a IndexedNetwork,
        outlines: &[Outline],
        order: &[(i64, usize)],
    ) -> Result<Self, OutOfMemory> {
        let mut draft = Draft::new(alloc);
        let mut numbers = vec![in alloc; 0usize; outlines.len()]?;
        for (number, (load, machine)) in order.iter().enumerate() {
            let outline = value_or(outlines, *machine, BLANK);
            draft.add_machine(*load, outline.spare(), outline.slots)?;
            if let Some(there) = numbers.get_mut(*machine) {
                *there = number;
            }
        }
        for size in &numbered.requests {
            draft.add_request(i64::from(*size))?;
        }
        Ok(Reading {
            numbered,
            draft,
            numbers,
        })
    }

    // Adds all tasks. Answers whether each has the arcs of a task of the policy.
    fn add_tasks(&mut self) -> Result<bool, OutOfMemory> {
        let places = &self.numbered.places;
        let mut first = first_from(self.numbered, places.tasks);
        for task in places.tasks..places.end {
            let arcs = arcs_of_node(self.numbered, task, first);
            if !self.add_task(arcs, first)? {
                return Ok(false);
            }
            first = first.saturating_add(arcs.len());
        }
        Ok(true)
    }

    // Adds the task whose arcs these are, from this number on: one to its job, then one to the machine that holds it, or to its
    // request.
    fn add_task(&mut self, arcs: &[IndexedArc], first: usize) -> Result<bool, OutOfMemory> {
        let (Some(job), Some(place)) = (arcs.get(0), arcs.get(1)) else {
            return Ok(false);
        };
        let saving = i64::from(job.cost).saturating_sub(i64::from(place.cost));
        match self.numbered.places.kind(place.to) {
            NodeKind::Machine(machine) => {
                let machine = value_or(&self.numbers, machine, 0);
                self.draft.hold(machine, saving, first)?;
                Ok(arcs.len() == 2)
            }
            NodeKind::Request(request) => {
                let size = size_of(self.numbered, request);
                let base = i64::from(place.cost).saturating_add(size);
                let is_well = self.add_choices(arcs, base)?;
                self.draft
                    .wait(request, saving.saturating_sub(size), first)?;
                Ok(is_well)
            }
            NodeKind::Sink | NodeKind::Unscheduled(_) | NodeKind::Task(_) => Ok(false),
        }
    }

    // Adds the machines that a task prefers: by its request it costs so much to get to one, and the load. Answers whether it prefers
    // nothing else.
    fn add_choices(&mut self, arcs: &[IndexedArc], base: i64) -> Result<bool, OutOfMemory> {
        for arc in arcs.get(2..).unwrap_or(&[]) {
            let NodeKind::Machine(machine) = self.numbered.places.kind(arc.to) else {
                return Ok(false);
            };
            let number = value_or(&self.numbers, machine, 0);
            let over_request = base.saturating_add(self.draft.machine(number).load);
            let gain = over_request.saturating_sub(i64::from(arc.cost));
            self.draft.choose(number, gain)?;
        }
        Ok(true)
    }
}

/// What is to be placed by a network, and what the numbers stand for. None if the network is not one of the policy. O(arcs), and
/// O(n log n) in machines and tasks.
pub(crate) fn instance_of(
    alloc: Global,
    numbered: &IndexedNetwork,
) -> Result<Option<(Instance, Numbers)>, OutOfMemory> {
    match outlines_of(alloc, numbered)? {
        Some(outlines) => instance_by(alloc, numbered, &outlines),
        None => Ok(None),
    }
}

// The same by what the arcs of machines say of each.
fn instance_by(
    alloc: Global,
    numbered: &IndexedNetwork,
    outlines: &[Outline],
) -> Result<Option<(Instance, Numbers)>, OutOfMemory> {
    let order = order_of(alloc, outlines)?;
    match draft_of(alloc, numbered, outlines, &order)? {
        Some(draft) => with_numbers(
            draft.finish(alloc),
            machines_of(alloc, &order),
            rows_of(alloc, numbered),
        ),
        None => Ok(None),
    }
}

// Machines, requests and tasks, as a draft. None if a task does not have the arcs of one of the policy.
fn draft_of(
    alloc: Global,
    numbered: &IndexedNetwork,
    outlines: &[Outline],
    order: &[(i64, usize)],
) -> Result<Option<Draft>, OutOfMemory> {
    let mut reading = Reading::of(alloc, numbered, outlines, order)?;
    let is_well = reading.add_tasks()?;
    Ok(is_well.then_some(reading.draft))
}

// The machines in this order.
fn machines_of(alloc: Global, order: &[(i64, usize)]) -> Result<Vec<usize>, OutOfMemory> {
    let mut machines = Vec::with_capacity(alloc, order.len())?;
    for (_, machine) in order {
        machines.push(*machine)?;
    }
    Ok(machines)
}

// The instance, with what its numbers stand for, if nothing is lacking.
fn with_numbers(
    finished: Result<(Instance, TaskNumbers), OutOfMemory>,
    machines: Result<Vec<usize>, OutOfMemory>,
    rows: Result<Vec<usize>, OutOfMemory>,
) -> Result<Option<(Instance, Numbers)>, OutOfMemory> {
    let (machines, rows, (instance, tasks)) = (machines?, rows?, finished?);
    let numbers = Numbers {
        machines,
        rows,
        tasks,
    };
    Ok(Some((instance, numbers)))
}
