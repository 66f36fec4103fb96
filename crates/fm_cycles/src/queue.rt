//! Relaxing along a queue (Moore, 1959): the arcs at the nodes whose costs fell, longest waiting first.
//!
//! Any order keeps the labels labels, so nothing proved rests on the queue: its order decides only how soon a search
//! ends.

ghost use Rattle.std.specs.Prelude.{◌≡◌, ◌<◌, ◌^◌, vec_len, length, ℕ, ◌≤ℤ◌, pos, IfOk, OnOk};
ghost use Rattle.fm_cycles.specs.Residual.{residual, AreArcs};
ghost use Rattle.fm_cycles.specs.inner.Labels.{costs_of, HasFirst, IsBoundedBelow, IsCorrected, IsCorrectedWithin};
ghost use Rattle.fm_cycles.specs.Found.{AreNegative};

use crate::indexed_arcs::{IndexedArc, ResidualArc};
use crate::labels::{Labels, relax};
use crate::parent_graph::cycles_in;
use std::alloc::{AllocError, Global};
use std::collections::VecDeque;

// So many sweeps come first: most cycles are short, and are found by then. Chains whose arcs come in no order need a
// sweep for nearly each of their nodes.
const SWEEPS_FIRST: usize = 4;

// So often as many arcs are relaxed as there are, between two sweeps.
const PASSES: usize = 8;

// The nodes whose arcs are to be relaxed, each once.
#[derive(Debug, Drop)]
struct Queue {
    nodes: VecDeque<usize>,
    waits: Vec<bool>,
}

// A queue in which each node waits.
fn all_waiting(alloc: Global, nodes: usize) -> Result<Queue, AllocError> {
    let waits = vec![in alloc; true; nodes]?;
    let mut queue = Queue {
        nodes: VecDeque::new(alloc),
        waits,
    };
    for node in 0..nodes {
        queue.nodes.push_back(node)?;
    }
    Ok(queue)
}

// Puts a node at the end, unless it waits.
fn put(queue: &mut Queue, node: usize) -> Result<(), AllocError> {
    if let Some(waits) = queue.waits.get_mut(node) {
        if !*waits {
            *waits = true;
            queue.nodes.push_back(node)?;
        }
    }
    Ok(())
}

// Takes the node that has waited longest.
fn next(queue: &mut Queue) -> Option<usize> {
    let node = queue.nodes.pop_front()?;
    if let Some(waits) = queue.waits.get_mut(node) {
        *waits = false;
    }
    Some(node)
}

// Puts an arc into the list of a node.
fn list(lists: &mut [Vec<usize>], node: usize, place: usize) -> Result<(), AllocError> {
    if let Some(places) = lists.get_mut(node) {
        places.push(place)?;
    }
    Ok(())
}

// The places of the arcs at each node.
fn arcs_at(
    alloc: Global,
    nodes: usize,
    arcs: &[IndexedArc],
) -> Result<Vec<Vec<usize>>, AllocError> {
    let mut lists: Vec<Vec<usize>> = Vec::new(alloc);
    for _ in 0..nodes {
        lists.push(Vec::new(alloc))?;
    }
    for (place, arc) in arcs.iter().enumerate() {
        list(&mut lists, arc.from, place)?;
        list(&mut lists, arc.to, place)?;
    }
    Ok(lists)
}

// Relaxes the arcs at these places, and puts the nodes that fall into the queue.
fn scan(
    arcs: &[IndexedArc],
    units: &[u64],
    places: &[usize],
    queue: &mut Queue,
    labels: &mut Labels,
) -> Result<(), AllocError>
    requires arcs { AreArcs arcs.now (vec_len labels.old.costs) }
    requires low { IsBoundedBelow (2 ^ 98) (costs_of labels.old) }
    requires high { (v : ℕ) → costs_of labels.old v ≤ℤ pos (2 ^ 64) }
    requires parents { vec_len labels.old.parents ≡ vec_len labels.old.costs }
    ensures { OnOk result (IsCorrected (residual arcs.now units.now) (length places.now) labels.old labels.new) }
{
    for place in places {
        if *place < arcs.len() {
            labels.fell = None;
            relax(arcs, units, *place, labels);
            if let Some(node) = labels.fell {
                put(queue, node)?;
            }
        }
    }
    Ok(())
}

// Relaxes as many arcs as there are, or a few more: those at the node that has waited longest, and so on.
fn relax_waiting(
    arcs: &[IndexedArc],
    units: &[u64],
    lists: &[Vec<usize>],
    queue: &mut Queue,
    labels: &mut Labels,
) -> Result<(), AllocError>
    requires arcs { AreArcs arcs.now (vec_len labels.old.costs) }
    requires low { IsBoundedBelow (2 ^ 97) (costs_of labels.old) }
    requires high { (v : ℕ) → costs_of labels.old v ≤ℤ pos (2 ^ 64) }
    requires parents { vec_len labels.old.parents ≡ vec_len labels.old.costs }
    ensures { OnOk result (IsCorrectedWithin (residual arcs.now units.now) (2 ^ 61) labels.old labels.new) }
{
    let mut left = arcs.len();
    while left > 0 {
        let Some(node) = next(queue) else {
            return Ok(());
        };
        let Some(places) = lists.get(node) else {
            return Ok(());
        };
        scan(arcs, units, places, queue, labels)?;
        left = left.saturating_sub(places.len() + 1);
    }
    Ok(())
}

/// Relaxes arcs until the labels have a cycle, no node waits, or it was done for long enough, and returns the cycles.
/// Does nothing before the first sweeps are done. O(nodes + arcs) in time and memory. Refused if memory runs out.
pub(crate) fn relax_by_queue(
    alloc: Global,
    arcs: &[IndexedArc],
    units: &[u64],
    sweeps: usize,
    labels: &mut Labels,
) -> Result<Vec<Vec<ResidualArc>>, AllocError>
    requires arcs { AreArcs arcs.now (vec_len labels.old.costs) }
    requires labels { HasFirst (residual arcs.now units.now) labels.old }
    requires low { IsBoundedBelow (2 ^ 96) (costs_of labels.old) }
    requires high { (v : ℕ) → costs_of labels.old v ≤ℤ pos (2 ^ 64) }
    requires parents { vec_len labels.old.parents ≡ vec_len labels.old.costs }
    ensures corrected { OnOk result (IsCorrectedWithin (residual arcs.now units.now) (2 ^ 64) labels.old labels.new) }
    ensures negative { IfOk result (λ cycles. AreNegative (residual arcs.now units.now) cycles.items) }
{
    let none: Vec<Vec<ResidualArc>> = Vec::new(alloc);
    if sweeps < SWEEPS_FIRST {
        return Ok(none);
    }
    let lists = arcs_at(alloc, labels.costs.len(), arcs)?;
    let mut queue = all_waiting(alloc, labels.costs.len())?;
    for pass in 0..PASSES {
        relax_waiting(arcs, units, &lists, &mut queue, labels)?;
        let cycles = cycles_in(alloc, arcs, units, &labels.parents)?;
        if !cycles.is_empty() || queue.nodes.is_empty() {
            return Ok(cycles);
        }
    }
    Ok(none)
}
