//! All tasks unscheduled: a flow that every network of the policy has, for when a heuristic finds none.

ghost use Rattle.std.specs.Prelude.{◌≡◌, ◌^◌, ◌-◌, IfOk, map, min, slice_index};
ghost use Rattle.fm_indexed.specs.NodeRanges.{kind_at};
ghost use Rattle.fm_indexed.specs.Unscheduled.{AreFlows, all_unscheduled, unscheduled_by, unit_on_job_arcs};

use crate::indexed_network::IndexedNetwork;
use crate::node_ranges::{NodeKind, NodeRanges};
use crate::sums::{inflow, sum_at};
use fm_cycles::indexed_arcs::IndexedArc;
use fm_lattice::join::OutOfMemory;
use std::alloc::Global;

// The units on an arc, if so many enter its source.
fn units_on(places: &NodeRanges, arc: &IndexedArc, entered: u64) -> u64
    ensures { result ≡ unscheduled_by (kind_at places.now arc.now.to) entered }
{
    match places.kind(arc.to) {
        NodeKind::Sink => entered,
        NodeKind::Unscheduled(_) => 1,
        NodeKind::Request(_) | NodeKind::Machine(_) | NodeKind::Task(_) => 0,
    }
}

// The sum at a place, at most what 64 bits hold.
fn entered_at(entered: &[u128], place: usize) -> u64
    ensures { result ≡ min (slice_index entered.now place) (2 ^ 64 - 1) }
{
    sum_at(entered, place).min(18_446_744_073_709_551_615) as u64
}

// A unit on each arc to a job.
fn leave(alloc: Global, numbered: &IndexedNetwork) -> Result<Vec<u64>, OutOfMemory>
    ensures { IfOk result (λ units. units.items ≡ unit_on_job_arcs numbered.now.places numbered.now.arcs.items) }
{
    let units = numbered
        .arcs
        .iter()
        .map(|arc| units_on(&numbered.places, arc, 0))
        .collect(alloc)?;
    Ok(units)
}

// The same, and on each arc to the sink as many as enter its source.
fn drain(
    alloc: Global,
    numbered: &IndexedNetwork,
    entered: &[u128],
) -> Result<Vec<u64>, OutOfMemory>
    ensures { IfOk result (λ units. units.items ≡ map
        (λ a. unscheduled_by (kind_at numbered.now.places a.to)
        (min (slice_index entered.now a.from) (2 ^ 64 - 1))) numbered.now.arcs.items) }
{
    let units = numbered
        .arcs
        .iter()
        .map(|arc| units_on(&numbered.places, arc, entered_at(entered, arc.from)))
        .collect(alloc)?;
    Ok(units)
}

/// A unit from each task to its job, and on to the sink. O(arcs).
pub fn unscheduled(alloc: Global, numbered: &IndexedNetwork) -> Result<Vec<u64>, OutOfMemory>
    ensures { IfOk result (λ units. units.items ≡ all_unscheduled numbered.now.places numbered.now.arcs.items) }
{
    let left = leave(alloc, numbered)?;
    let entered = inflow(alloc, numbered, &left)?;
    let units = drain(alloc, numbered, &entered)?;
    Ok(units)
}

/// In every network that the policy can build, all tasks unscheduled is a flow.
pub fn law_unscheduled()
    ensures { AreFlows }
{}
