//! The cycles of the parents, each of which is a cycle of negative cost, in whatever order arcs were relaxed.
//!
//! They are looked for after each sweep, and not after each step: the amortized search of Cherkassky and Goldberg
//! ("Negative-cycle detection algorithms", 1999). From each node a walk goes back over parents until it meets a node
//! that was visited before. It has found a cycle if that visit was its own. So each node is visited once, O(nodes), and
//! no two cycles share a node.

ghost use Rattle.std.specs.Prelude.{◌≡◌, ◌<◌, length, IfOk, slice_index_or, None, [], drop};
ghost use Rattle.fm_cycles.specs.Residual.{residual, AreArcs};
ghost use Rattle.fm_cycles.specs.inner.Labels.{parents_in, AreParents};
ghost use Rattle.fm_cycles.specs.inner.ParentGraph.{AreBefore, AreCyclesOf, IsWalkedBack};

use crate::indexed_arcs::{IndexedArc, ResidualArc};
use crate::lookup::value_or;
use std::alloc::{AllocError, Global};

/// A walk back visited a node: where the walk started, and how many steps it had.
#[derive(Debug, Clone, Copy, Drop)]
pub(crate) struct Visit {
    pub(crate) start: usize,
    pub(crate) place: usize,
}

// The node from which a step comes.
fn source(arcs: &[IndexedArc], step: ResidualArc) -> usize
    ensures { result ≡ (residual arcs.now []).source step }
{
    match arcs.get(step.arc) {
        Some(arc) if step.forward => arc.from,
        Some(arc) => arc.to,
        None => 0,
    }
}

// The parent of a node.
fn parent_at(parents: &[Option<ResidualArc>], node: usize) -> Option<ResidualArc>
    ensures { result ≡ parents_in parents.now node }
{
    value_or(parents, node, None)
}

// The visit of a node, if a walk came there.
fn visit_at(visits: &[Option<Visit>], node: usize) -> Option<Visit>
    ensures { result ≡ slice_index_or visits.now node None }
{
    value_or(visits, node, None)
}

// The steps of the walk from some place of it on.
fn behind(alloc: Global, walk: &[ResidualArc], first: usize) -> Result<Vec<ResidualArc>, AllocError>
    ensures { IfOk result (λ cycle. cycle.items ≡ drop first walk.now) }
{
    walk.iter().skip(first).copied().collect(alloc)
}

// Walks back from a node until it reaches a visited one or there is no parent, and tells the first place of the walk
// that belongs to a cycle, if the walk reached itself.
fn walk_back(
    arcs: &[IndexedArc],
    units: &[u64],
    parents: &[Option<ResidualArc>],
    start: usize,
    visits: &mut [Option<Visit>],
    walk: &mut Vec<ResidualArc>,
) -> Result<Option<usize>, AllocError>
    requires arcs { AreArcs arcs.now (length parents.now) }
    requires start { start < length parents.now }
    requires sized { length visits.old ≡ length parents.now }
    requires labels { AreParents (residual arcs.now units.now) (parents_in parents.now) }
    requires empty { walk.old.items ≡ [] }
    requires before { AreBefore start visits.old }
    ensures { IfOk result (IsWalkedBack (residual arcs.now units.now)
        (parents_in parents.now) start visits.old visits.new walk.new.items) }
{
    let mut node = start;
    'back: loop {
        if let Some(visit) = visit_at(visits, node) {
            return Ok(if visit.start == start {
                Some(visit.place)
            } else {
                None
            });
        }
        let place = walk.len();
        visits[node] = Some(Visit { start, place });
        let Some(step) = parent_at(parents, node) else {
            return Ok(None);
        };
        walk.push(step)?;
        node = source(arcs, step);
    }
}

/// The cycles of the parents, each once: no two of them share a node. If there is none, each walk back ends at a node
/// without a parent. The caller must pass parents of labels. O(nodes) in time and memory. Refused if memory runs out.
pub(crate) fn cycles_in(
    alloc: Global,
    arcs: &[IndexedArc],
    units: &[u64],
    parents: &[Option<ResidualArc>],
) -> Result<Vec<Vec<ResidualArc>>, AllocError>
    requires arcs { AreArcs arcs.now (length parents.now) }
    requires labels { AreParents (residual arcs.now units.now) (parents_in parents.now) }
    ensures { IfOk result
        (λ cycles. AreCyclesOf (residual arcs.now units.now) (parents_in parents.now)
        (length parents.now) cycles.items) }
{
    let mut visits: Vec<Option<Visit>> = vec![in alloc; None; parents.len()]?;
    let mut walk: Vec<ResidualArc> = Vec::new(alloc);
    let mut cycles: Vec<Vec<ResidualArc>> = Vec::new(alloc);
    for start in 0..parents.len() {
        walk.clear();
        if let Some(first) = walk_back(arcs, units, parents, start, &mut visits, &mut walk)? {
            let cycle = behind(alloc, &walk, first)?;
            cycles.push(cycle)?;
        }
    }
    Ok(cycles)
}
