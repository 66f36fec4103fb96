//! The least cost of a unit from each node to the sink, from which a first flow gets its potentials.
//!
//! If the flow is least and no task has several places, the negated costs are potentials. The search for cycles then
//! only confirms them, and need not find them by many sweeps. Arcs with room are relaxed forwards and arcs with units
//! backwards (Ford, 1956; Bellman, 1958), by passes over the arcs of requests. After 64 passes costs that still fall
//! are left to the search for cycles.

ghost use Rattle.std.specs.Prelude.{◌≡◌, ◌^◌, ◌≤ℤ◌, length, IfOk, neg_ℤ, pos};
ghost use Rattle.fm_cycles.specs.Walks.{AreBounded};
ghost use Rattle.fm_cycles.specs.Found.{costs_in};

use crate::lenient::part;
use crate::node_arcs::first_from;
use fm_cycles::indexed_arcs::IndexedArc;
use fm_cycles::lookup::value_or;
use fm_indexed::indexed_network::IndexedNetwork;
use fm_lattice::join::OutOfMemory;
use std::alloc::Global;

// More than a path costs on which there are fewer than a million requests: an arc into a machine costs 1,000,000 at
// most, and the one to a job 1,000,000,000. A node from which no unit gets to the sink keeps it.
const LOST: i64 = 1 << 40;

// After so many turns, each a pass over the arcs of requests, costs that still fall are left to the search for cycles.
const TURNS: usize = 64;

// Arcs that leave nodes of one kind, with their units.
#[derive(Debug, Clone, Copy, Drop)]
struct Part<'a> {
    arcs: &'a [IndexedArc],
    units: &'a [u64],
}

// The arcs that leave nodes from the first place to before the end.
fn leaving<'a>(
    numbered: &'a IndexedNetwork,
    units: &'a [u64],
    first: usize,
    end: usize,
) -> Part<'a> {
    let begin = first_from(numbered, first);
    let behind = first_from(numbered, end);
    Part {
        arcs: part(&numbered.arcs, begin, behind),
        units: part(units, begin, behind),
    }
}

// The cost at a node.
fn cost_at(costs: &[i64], node: usize) -> i64 {
    value_or(costs, node, LOST)
}

// Lowers the cost at a node to this one, and returns whether it was higher.
fn lower(costs: &mut [i64], node: usize, cost: i64) -> bool {
    match costs.get_mut(node) {
        Some(there) if cost < *there => {
            *there = cost;
            true
        }
        _ => false,
    }
}

// Lowers the costs of sources by arcs with room, and returns whether one fell.
fn go_ahead(part: Part<'_>, costs: &mut [i64]) -> bool {
    let mut falls = false;
    for (arc, sent) in part.arcs.iter().zip(part.units) {
        if *sent < arc.capacity {
            let cost = cost_at(costs, arc.to).saturating_add(i64::from(arc.cost));
            falls = lower(costs, arc.from, cost) || falls;
        }
    }
    falls
}

// Lowers the costs of targets by arcs with units, backwards, and returns whether one fell.
fn go_back(part: Part<'_>, costs: &mut [i64]) -> bool {
    let mut falls = false;
    for (arc, sent) in part.arcs.iter().zip(part.units) {
        if *sent > 0 {
            let cost = cost_at(costs, arc.from).saturating_sub(i64::from(arc.cost));
            falls = lower(costs, arc.to, cost) || falls;
        }
    }
    falls
}

// Takes the cost of each source over the arc on which its unit is.
fn take(part: Part<'_>, costs: &mut [i64]) {
    for (arc, sent) in part.arcs.iter().zip(part.units) {
        let cost = cost_at(costs, arc.to).saturating_add(i64::from(arc.cost));
        match costs.get_mut(arc.from) {
            Some(there) if *sent > 0 => *there = cost,
            _ => {}
        }
    }
}

// The costs from jobs, machines and tasks straight to the sink or to a job, and what the places of tasks would save.
fn begin(alloc: Global, numbered: &IndexedNetwork, units: &[u64]) -> Result<Vec<i64>, OutOfMemory> {
    let places = &numbered.places;
    let mut costs = vec![in alloc; LOST; places.end]?;
    for node in 0..places.requests {
        lower(&mut costs, node, 0);
    }
    let tasks = leaving(numbered, units, places.tasks, places.end);
    go_ahead(
        leaving(numbered, units, places.machines, places.tasks),
        &mut costs,
    );
    go_ahead(tasks, &mut costs);
    go_back(tasks, &mut costs);
    Ok(costs)
}

// The costs from all nodes: units of requests go to machines and back, by turns, until no cost falls.
fn costs_of(
    alloc: Global,
    numbered: &IndexedNetwork,
    units: &[u64],
) -> Result<Vec<i64>, OutOfMemory> {
    let places = &numbered.places;
    let mut costs = begin(alloc, numbered, units)?;
    let requests = leaving(numbered, units, places.requests, places.machines);
    for _ in 0..TURNS {
        let falls = go_ahead(requests, &mut costs);
        if !go_back(requests, &mut costs) && !falls {
            break;
        }
    }
    take(
        leaving(numbered, units, places.tasks, places.end),
        &mut costs,
    );
    Ok(costs)
}

// The potential of a node: its negated cost.
fn potential(costs: &[i64], node: usize) -> i128
    ensures at_least { neg_ℤ (pos (2 ^ 64)) ≤ℤ result }
    ensures at_most { result ≤ℤ pos (2 ^ 64) }
{
    0 - i128::from(cost_at(costs, node))
}

// The potentials of so many nodes.
#[tactic(auto, using(crate::proofs::Bounded::bounded_set))]
fn turned_round(alloc: Global, nodes: usize, costs: &[i64]) -> Result<Vec<i128>, OutOfMemory>
    ensures sized { IfOk result (λ potentials. length potentials.items ≡ nodes) }
    ensures small { IfOk result (λ potentials. AreBounded (2 ^ 64) (costs_in potentials.items)) }
{
    let mut potentials = vec![in alloc; 0i128; nodes]?;
    for node in 0..nodes {
        potentials[node] = potential(costs, node);
    }
    Ok(potentials)
}

/// A number for each node, none beyond 2^64 in size. If the units are a least flow, tasks have one place each beside
/// their job, and jobs and machines send on for nothing, these are potentials that show it: no clause says so, a search
/// confirms it. O(arcs), and O(arcs of requests) for each machine at which a unit would change over on the longest
/// path.
pub(crate) fn potentials_from(
    alloc: Global,
    numbered: &IndexedNetwork,
    units: &[u64],
) -> Result<Vec<i128>, OutOfMemory>
    ensures sized { IfOk result (λ potentials. length potentials.items ≡ numbered.now.places.end) }
    ensures small { IfOk result (λ potentials. AreBounded (2 ^ 64) (costs_in potentials.items)) }
{
    let costs = costs_of(alloc, numbered, units)?;
    let potentials = turned_round(alloc, numbered.places.end, &costs)?;
    Ok(potentials)
}

/// As `potentials_from`, if what a unit costs from each node but the tasks is known. O(arcs).
pub(crate) fn potentials_over(
    alloc: Global,
    numbered: &IndexedNetwork,
    units: &[u64],
    mut costs: Vec<i64>,
) -> Result<Vec<i128>, OutOfMemory>
    ensures sized { IfOk result (λ potentials. length potentials.items ≡ numbered.now.places.end) }
    ensures small { IfOk result (λ potentials. AreBounded (2 ^ 64) (costs_in potentials.items)) }
{
    let places = &numbered.places;
    take(
        leaving(numbered, units, places.tasks, places.end),
        &mut costs,
    );
    let potentials = turned_round(alloc, places.end, &costs)?;
    Ok(potentials)
}
