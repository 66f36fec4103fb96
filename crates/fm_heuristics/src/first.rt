//! The first flow: by the search for a cheapest way to place tasks, or with all tasks unscheduled if that gives up.
//!
//! The search (`searched`) gives up far beyond the work that any network is known to need, and at a network that no policy
//! builds. From all tasks unscheduled the search for cycles takes long, if there are many tasks.

ghost use Rattle.std.specs.Prelude.{◌≡◌, ◌^◌, length, IfOk};
ghost use Rattle.fm_cycles.specs.Walks.{AreBounded};
ghost use Rattle.fm_cycles.specs.Found.{costs_in};
ghost use Rattle.fm_indexed.specs.Feasible.{IsFlowOf};
ghost use Rattle.fm_indexed.specs.Unscheduled.{all_unscheduled};

use crate::distances::{potentials_from, potentials_over};
use crate::searched::searched;
use fm_indexed::indexed_network::IndexedNetwork;
use fm_indexed::unscheduled::unscheduled;
use fm_lattice::join::OutOfMemory;
use std::alloc::Global;

/// A flow, and a number for each node, none beyond 2^64 in size: by the search for a cheapest way to place tasks, and with
/// all tasks unscheduled if that gives up. In all known cases the search's flow is least and the numbers are its
/// potentials: no clause says so, but the search for cycles then finds none. The caller must pass a network in which all
/// tasks can be unscheduled. Refused if memory runs out, and for nothing else. O(arcs), and what the search takes.
pub fn first_flow(
    alloc: Global,
    numbered: &IndexedNetwork,
) -> Result<(Vec<u64>, Vec<i128>), OutOfMemory>
    requires unscheduled { IsFlowOf numbered.now.places numbered.now.arcs.items
        (all_unscheduled numbered.now.places numbered.now.arcs.items) }
    ensures flow { IfOk result (λ r. IsFlowOf numbered.now.places numbered.now.arcs.items r.0.items) }
    ensures sized { IfOk result (λ r. length r.1.items ≡ numbered.now.places.end) }
    ensures small { IfOk result (λ r. AreBounded (2 ^ 64) (costs_in r.1.items)) }
{
    if let Some((units, costs)) = searched(alloc, numbered)? {
        let potentials = potentials_over(alloc, numbered, &units, costs)?;
        return Ok((units, potentials));
    }
    let units = unscheduled(alloc, numbered)?;
    let potentials = potentials_from(alloc, numbered, &units)?;
    Ok((units, potentials))
}
