//! Whether units by number are a flow: what a heuristic answers is tested before it is used.
//!
//! Each arc has a number within its capacity, each task sends one unit, and jobs, requests and machines send on what
//! enters. O(nodes + arcs).

ghost use Rattle.std.specs.Prelude.{◌≡◌, ◌<◌, ◌↔◌, ℕ, IfOk, IsTrue, slice_index};
ghost use Rattle.fm_cycles.specs.Units.{AreWithin};
ghost use Rattle.fm_indexed.specs.NodeRanges.{kind_at};
ghost use Rattle.fm_indexed.specs.Feasible.{IsFlowOf, IsConserved};

use crate::indexed_network::IndexedNetwork;
use crate::node_ranges::{NodeKind, NodeRanges};
use crate::sums::{at, inflow, outflow, sum_at};
use fm_cycles::indexed_arcs::IndexedArc;
use fm_lattice::join::OutOfMemory;
use std::alloc::Global;

// Whether no arc has more units than its capacity.
fn are_within(arcs: &[IndexedArc], units: &[u64]) -> bool
    ensures { IsTrue result ↔ AreWithin arcs.now units.now }
{
    for (place, arc) in arcs.iter().enumerate() {
        if at(units, place) > arc.capacity {
            return false;
        }
    }
    true
}

// Whether a node sends what it has to: a task one unit, one between tasks and sink what enters it.
fn sends(kind: NodeKind, entered: u128, left: u128) -> bool
    ensures { IsTrue result ↔ IsConserved kind entered left }
{
    match kind {
        NodeKind::Sink => true,
        NodeKind::Task(_) => left == 1,
        NodeKind::Unscheduled(_) | NodeKind::Request(_) | NodeKind::Machine(_) => entered == left,
    }
}

// Whether all nodes send what they have to.
fn all_send(places: &NodeRanges, entered: &[u128], left: &[u128]) -> bool
    ensures { IsTrue result ↔ ((v : ℕ) → v < places.now.end
        → IsConserved (kind_at places.now v) (slice_index entered.now v) (slice_index left.now v)) }
{
    for place in 0..places.end {
        let kind = places.kind(place);
        if !sends(kind, sum_at(entered, place), sum_at(left, place)) {
            return false;
        }
    }
    true
}

/// Whether the units are a flow: a number for each arc within its capacity, one out of each task, and what enters a node
/// between tasks and sink leaves it. O(nodes + arcs).
pub fn is_feasible(
    alloc: Global,
    numbered: &IndexedNetwork,
    units: &[u64],
) -> Result<bool, OutOfMemory>
    ensures { IfOk result
        (λ feasible. IsTrue feasible ↔ IsFlowOf numbered.now.places numbered.now.arcs.items units.now) }
{
    if units.len() != numbered.arcs.len() || !are_within(&numbered.arcs, units) {
        return Ok(false);
    }
    let entered = inflow(alloc, numbered, units)?;
    let left = outflow(alloc, numbered, units)?;
    Ok(all_send(&numbered.places, &entered, &left))
}
