//! A least flow made of an earlier one, if it still is one.

ghost use Rattle.std.specs.Prelude.{IfOk, IfSome};
ghost use Rattle.fm_cycles.specs.Walks.{ArePotentials};
ghost use Rattle.fm_cycles.specs.Residual.{residual};
ghost use Rattle.fm_cycles.specs.Found.{costs_in};
ghost use Rattle.fm_indexed.specs.Feasible.{IsFlowOf};

use crate::distances::potentials_from;
use crate::given::given_units;
use crate::kept::kept_units;
use fm_certificate::flow::Flow;
use fm_cycles::check_potentials::are_potentials;
use fm_indexed::feasible_units::is_feasible;
use fm_indexed::indexed_network::IndexedNetwork;
use fm_lattice::join::OutOfMemory;
use fm_net::network::Network;
use std::alloc::Global;

/// The flow with the task paths of the given units that are still complete and fit, the other tasks unscheduled, and
/// potentials that show it to be least. None if it is not least. Nothing is searched: the potentials are worked out from
/// the units, and tested. Refused if memory runs out, and for nothing else. O(arcs), and O(arcs of requests) for each
/// machine at which a unit would change over on the longest path.
pub fn resume(
    alloc: Global,
    numbered: &IndexedNetwork,
    given: &[u64],
) -> Result<Option<(Vec<u64>, Vec<i128>)>, OutOfMemory>
    ensures flow { IfOk result (λ kept. IfSome kept
        (λ r. IsFlowOf numbered.now.places numbered.now.arcs.items r.0.items)) }
    ensures potentials { IfOk result (λ kept. IfSome kept
        (λ r. ArePotentials (residual numbered.now.arcs.items r.0.items) (costs_in r.1.items))) }
{
    let units = kept_units(alloc, numbered, given)?;
    let potentials = potentials_from(alloc, numbered, &units)?;
    if are_potentials(&numbered.arcs, &units, &potentials)
        && is_feasible(alloc, numbered, &units)?
    {
        return Ok(Some((units, potentials)));
    }
    Ok(None)
}

/// As `resume`, with the units that an earlier flow has on the network's arcs. None if it has no key.
pub fn resumed(
    alloc: Global,
    network: &Network,
    numbered: &IndexedNetwork,
    flow: &Flow,
) -> Result<Option<(Vec<u64>, Vec<i128>)>, OutOfMemory>
    ensures flow { IfOk result (λ kept. IfSome kept
        (λ r. IsFlowOf numbered.now.places numbered.now.arcs.items r.0.items)) }
    ensures potentials { IfOk result (λ kept. IfSome kept
        (λ r. ArePotentials (residual numbered.now.arcs.items r.0.items) (costs_in r.1.items))) }
{
    if flow.is_empty() {
        return Ok(None);
    }
    let given = given_units(alloc, network, numbered, flow)?;
    resume(alloc, numbered, &given)
}
