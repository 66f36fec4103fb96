//! From the assignment of a search to the units of a network's arcs, and to what a unit costs from each node.

use crate::drain::drain;
use crate::lenient::{part, put};
use crate::network_instance::Numbers;
use fm_cycles::lookup::value_or;
use fm_indexed::indexed_network::IndexedNetwork;
use fm_lattice::join::OutOfMemory;
use fm_search::assignment::{Assignment, Destination};
use std::alloc::Global;

/// The units of the arcs by the assignment. O(arcs).
pub(crate) fn units_of(
    alloc: Global,
    numbered: &IndexedNetwork,
    assignment: &Assignment,
    numbers: &Numbers,
) -> Result<Vec<u64>, OutOfMemory> {
    let mut units = vec![in alloc; 0u64; numbered.arcs.len()]?;
    put_held(&mut units, assignment, numbers);
    put_waiting(&mut units, assignment, numbers);
    put_preferring(&mut units, assignment, numbers);
    put_shares(&mut units, numbered, assignment, numbers);
    drain(alloc, numbered, &mut units)?;
    Ok(units)
}

// Sends the first so many tasks over their second arcs, or over their first ones, and the others the other way. They are known by their
// first arcs.
fn put_tasks(units: &mut [u64], tasks: &[usize], count: usize, are_second: bool) {
    for (place, first) in tasks.iter().enumerate() {
        let is_second = (place < count) == are_second;
        put(units, first.saturating_add(is_second as usize), 1);
    }
}

// Sends the held tasks: the cheapest of each machine to their jobs, the others to the machine.
fn put_held(units: &mut [u64], assignment: &Assignment, numbers: &Numbers) {
    for (machine, gone) in assignment
        .instance
        .machines
        .iter()
        .zip(assignment.gone.iter())
    {
        let tasks = part(&numbers.tasks.held, machine.first, machine.end);
        put_tasks(units, tasks, *gone, false);
    }
}

// Sends the waiting tasks without preferences: the dearest of each request to it, the others to their jobs.
fn put_waiting(units: &mut [u64], assignment: &Assignment, numbers: &Numbers) {
    for (request, placed) in assignment
        .instance
        .requests
        .iter()
        .zip(assignment.placed.iter())
    {
        let tasks = part(&numbers.tasks.waiting, request.first, request.end);
        put_tasks(units, tasks, *placed, true);
    }
}

// Sends the waiting tasks that prefer machines: an arc to the job comes first, then one to the request, then one for each choice.
fn put_preferring(units: &mut [u64], assignment: &Assignment, numbers: &Numbers) {
    for (task, first) in numbers.tasks.preferring.iter().enumerate() {
        let behind = match value_or(&assignment.destinations, task, Destination::Nowhere) {
            Destination::Nowhere => 0,
            Destination::ByRequest => 1,
            Destination::Straight(machine) => choice_of(assignment, task, machine).saturating_add(
                2,
            ),
        };
        put(units, first.saturating_add(behind), 1);
    }
}

// The place of the machine among the choices of the task.
fn choice_of(assignment: &Assignment, task: usize, machine: usize) -> usize {
    let Some(waiting) = assignment.instance.preferring.get(task) else {
        return 0;
    };
    let choices = part(&assignment.instance.choices, waiting.first, waiting.end);
    for (place, choice) in choices.iter().enumerate() {
        if choice.machine == machine {
            return place;
        }
    }
    0
}

// Sends on from requests to machines.
fn put_shares(
    units: &mut [u64],
    numbered: &IndexedNetwork,
    assignment: &Assignment,
    numbers: &Numbers,
) {
    for (machine, shares) in numbers.machines.iter().zip(assignment.shares.iter()) {
        let node = numbered.places.machines.saturating_add(*machine);
        for share in shares {
            let arc = arc_to(numbered, numbers, share.request, node);
            put(units, arc, u64::try_from(share.units).unwrap_or(0));
        }
    }
}

// The number of the arc from the request to the node.
fn arc_to(numbered: &IndexedNetwork, numbers: &Numbers, request: usize, node: usize) -> usize {
    let first = value_or(&numbers.rows, request, 0);
    let end = value_or(&numbers.rows, request.saturating_add(1), first);
    let row = part(&numbered.arcs, first, end);
    first.saturating_add(row.partition_point(|arc| arc.to < node))
}

/// What a unit costs from each node that is no task to the sink, by the prices of the assignment; 0 for tasks. O(nodes).
pub(crate) fn costs_of(
    alloc: Global,
    numbered: &IndexedNetwork,
    assignment: &Assignment,
    numbers: &Numbers,
) -> Result<Vec<i64>, OutOfMemory> {
    let places = &numbered.places;
    let mut costs = vec![in alloc; 0i64; places.end]?;
    for (request, price) in assignment.request_prices.iter().enumerate() {
        let size = i64::from(value_or(&numbered.requests, request, 0));
        put(
            &mut costs,
            places.requests.saturating_add(request),
            price.saturating_add(size),
        );
    }
    let machines = assignment
        .instance
        .machines
        .iter()
        .zip(assignment.machine_prices.iter());
    for (number, (machine, price)) in numbers.machines.iter().zip(machines) {
        put(
            &mut costs,
            places.machines.saturating_add(*number),
            price.saturating_sub(machine.load),
        );
    }
    Ok(costs)
}
