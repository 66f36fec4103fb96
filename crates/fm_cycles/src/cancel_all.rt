//! Cycle cancelling (Klein, 1967): a flow is made cheaper until no cycle of negative cost is left, and so is least.
//!
//! Each turn cancels the cycles that one search finds, no two of which share a node. The next search starts from the
//! costs at which the last one ended. Each turn lowers the cost by at least 1, so it ends, and the costs of the last
//! search are potentials.

ghost use Rattle.std.specs.Prelude.{◌≡◌, ◌<◌, ◌^◌, ◌≤◌, length, IfOk, IsTrue};
ghost use Rattle.fm_cycles.specs.Walks.{ArePotentials, AreBounded};
ghost use Rattle.fm_cycles.specs.Residual.{residual, AreArcs};
ghost use Rattle.fm_cycles.specs.Found.{costs_in};
ghost use Rattle.fm_cycles.specs.Units.{AreCapacities, AreWithin, HaveSameBalance, cost_of_units};

use crate::cancel::cancel_all;
use crate::cycle_search::search;
use crate::indexed_arcs::IndexedArc;
use crate::lookup::cost_at;
use std::alloc::{AllocError, Global};

// The greatest size of a number that a search starts from.
const MOST: i128 = 1 << 64;

// Whether no number is beyond 2^64 in size.
fn are_small(costs: &[i128]) -> bool
    ensures { IsTrue result → AreBounded (2 ^ 64) (costs_in costs.now) }
{
    for node in 0..costs.len() {
        let cost = cost_at(costs, node);
        if cost < -MOST || cost > MOST {
            return false;
        }
    }
    true
}

// The numbers, if none is beyond 2^64 in size, else zeros: a search may start from them.
fn restarted(alloc: Global, nodes: usize, costs: Vec<i128>) -> Result<Vec<i128>, AllocError>
    requires sized { length costs.items ≡ nodes }
    ensures sized { IfOk result (λ r. length r.items ≡ nodes) }
    ensures small { IfOk result (λ r. AreBounded (2 ^ 64) (costs_in r.items)) }
{
    if are_small(&costs) {
        return Ok(costs);
    }
    vec![in alloc; 0i128; nodes]
}

/// Improves the units until no cycle makes them cheaper, and returns them with potentials that show it: within the
/// capacities, with the same balance at each node, and at no greater cost. The caller must pass arcs between the
/// nodes, fewer than 2^63 of these, units for exactly the arcs, within their capacities, and a number for each node to
/// start the search from (from zeros if one is beyond 2^64 in size): the closer they are to potentials of the units,
/// the sooner a search ends. Each search starts from the costs of the one before. Refused if memory runs out, and for
/// nothing else.
///
/// Klein's cycle cancelling (1967), of all cycles that a search finds. Each search lowers the cost by at least 1, so
/// there are at most as many searches as the units cost at first. Memory O(nodes + arcs).
pub fn cancel_negative_cycles(
    alloc: Global,
    nodes: usize,
    arcs: &[IndexedArc],
    units: Vec<u64>,
    first: Vec<i128>,
) -> Result<(Vec<u64>, Vec<i128>), AllocError>
    requires arcs { AreArcs arcs.now nodes }
    requires first { length first.items ≡ nodes }
    requires few { nodes < 2 ^ 63 }
    requires sized { length units.items ≡ length arcs.now }
    requires within { AreWithin arcs.now units.items }
    requires fits { AreCapacities arcs.now }
    ensures sized { IfOk result (λ r. length r.0.items ≡ length arcs.now) }
    ensures within { IfOk result (λ r. AreWithin arcs.now r.0.items) }
    ensures kept { IfOk result (λ r. HaveSameBalance arcs.now units.items r.0.items) }
    ensures no_dearer { IfOk result (λ r. cost_of_units arcs.now r.0.items ≤ cost_of_units arcs.now units.items) }
    ensures all { IfOk result (λ r. length r.1.items ≡ nodes) }
    ensures potentials { IfOk result (λ r. ArePotentials (residual arcs.now r.0.items) (costs_in r.1.items)) }
{
    let mut units = units;
    let mut costs = first;
    'rounds: loop {
        let from = restarted(alloc, nodes, costs)?;
        let searched = search(alloc, nodes, arcs, &units, from)?;
        costs = searched.costs;
        if searched.cycles.is_empty() {
            return Ok((units, costs));
        }
        cancel_all(arcs, &mut units, &searched.cycles);
    }
}
