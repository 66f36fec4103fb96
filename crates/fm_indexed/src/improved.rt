//! Flows by number, made least.

ghost use Rattle.std.specs.Prelude.{◌≡◌, length, IfOk};
ghost use Rattle.fm_cycles.specs.Walks.{ArePotentials};
ghost use Rattle.fm_cycles.specs.Residual.{residual};
ghost use Rattle.fm_cycles.specs.Found.{costs_in};
ghost use Rattle.fm_indexed.specs.Feasible.{IsFlowOf};

use crate::indexed_network::IndexedNetwork;
use fm_cycles::cancel_all::cancel_negative_cycles;
use fm_lattice::join::OutOfMemory;
use std::alloc::Global;

/// A flow made of this one that no cycle makes cheaper, and a potential for each node that shows it. The caller must pass a
/// number for each node, from which the search for cycles starts: the closer to potentials of the flow, the sooner it ends.
/// If they are its potentials, they are only confirmed, in O(arcs). Refused if memory runs out, and for nothing else.
pub fn improved(
    alloc: Global,
    numbered: &IndexedNetwork,
    units: Vec<u64>,
    first: Vec<i128>,
) -> Result<(Vec<u64>, Vec<i128>), OutOfMemory>
    requires sized { length first.items ≡ numbered.now.places.end }
    requires flow { IsFlowOf numbered.now.places numbered.now.arcs.items units.items }
    ensures flow { IfOk result (λ r. IsFlowOf numbered.now.places numbered.now.arcs.items r.0.items) }
    ensures sized { IfOk result (λ r. length r.1.items ≡ numbered.now.places.end) }
    ensures potentials { IfOk result
        (λ r. ArePotentials (residual numbered.now.arcs.items r.0.items) (costs_in r.1.items)) }
{
    let improved = cancel_negative_cycles(
        alloc,
        numbered.places.end,
        &numbered.arcs,
        units,
        first,
    )?;
    Ok(improved)
}
