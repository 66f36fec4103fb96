//! The search for cycles of negative cost, around which a flow gets cheaper, or for potentials, if there is none.
//!
//! It is the Bellman-Ford algorithm (Ford, 1956; Bellman, 1958) with a parent at each node. To wait for as many sweeps
//! over the arcs as there are nodes would show a cycle late, so cycles are looked for among the parents after each
//! sweep. After four sweeps a queue (Moore, 1959) runs between two sweeps. O(nodes * arcs) at worst, with memory
//! O(nodes + arcs).

ghost use Rattle.std.specs.Prelude.{◌≡◌, ◌<◌, ◌^◌, length, IfOk};
ghost use Rattle.fm_cycles.specs.Walks.{AreBounded};
ghost use Rattle.fm_cycles.specs.Residual.{residual, AreArcs};
ghost use Rattle.fm_cycles.specs.Found.{costs_in, IsSearched};

use crate::check_potentials::are_potentials;
use crate::indexed_arcs::{IndexedArc, ResidualArc};
use crate::labels::{Labels, sweep};
use crate::parent_graph::cycles_in;
use crate::queue::relax_by_queue;
use std::alloc::{AllocError, Global};

/// What a search finds: cycles of negative cost, no two of which share a node, each with its last step first; and the
/// costs at which the search ended, one for each node: potentials if there is no cycle. With potentials no arc with room
/// costs less than 0, and none with units more.
#[derive(Debug, Drop)]
pub struct Searched {
    pub cycles: Vec<Vec<ResidualArc>>,
    pub costs: Vec<i128>,
}

/// Potentials that show the units to be a least flow, or cycles of negative cost around which they become cheaper. The
/// caller must pass arcs between the nodes, fewer than 2^63 of these, and a number for each to start from, none beyond
/// 2^64 in size: from potentials the search only confirms them. Refused if memory runs out, and for nothing else.
///
/// The Bellman-Ford algorithm (Ford, 1956; Bellman, 1958) with parents, looking for cycles after each sweep over the
/// arcs. After four sweeps a queue (Moore, 1959) runs between two sweeps. Time O(nodes * arcs) at worst, since there
/// are at most as many sweeps as nodes. Memory O(nodes), with the queue O(nodes + arcs).
pub fn search(
    alloc: Global,
    nodes: usize,
    arcs: &[IndexedArc],
    units: &[u64],
    first: Vec<i128>,
) -> Result<Searched, AllocError>
    requires arcs { AreArcs arcs.now nodes }
    requires few { nodes < 2 ^ 63 }
    requires sized { length first.items ≡ nodes }
    requires small { AreBounded (2 ^ 64) (costs_in first.items) }
    ensures { IfOk result (λ searched. IsSearched (residual arcs.now units.now) nodes searched) }
{
    let none: Vec<Vec<ResidualArc>> = Vec::new(alloc);
    if are_potentials(arcs, units, &first) {
        return Ok(Searched {
            cycles: none,
            costs: first,
        });
    }
    let parents = vec![in alloc; None; nodes]?;
    let mut labels = Labels {
        costs: first,
        parents,
        fell: None,
    };
    let mut sweeps = 0usize;
    'rounds: loop {
        let early = relax_by_queue(alloc, arcs, units, sweeps, &mut labels)?;
        if !early.is_empty() {
            return Ok(Searched {
                cycles: early,
                costs: labels.costs,
            });
        }
        sweep(arcs, units, sweeps % 2 == 1, &mut labels);
        if labels.fell.is_none() {
            return Ok(Searched {
                cycles: none,
                costs: labels.costs,
            });
        }
        let cycles = cycles_in(alloc, arcs, units, &labels.parents)?;
        if !cycles.is_empty() {
            return Ok(Searched {
                cycles,
                costs: labels.costs,
            });
        }
        sweeps += 1;
    }
}
