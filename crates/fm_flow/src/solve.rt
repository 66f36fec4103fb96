//! The solver: least flows with potentials that certify them, whatever the heuristics answer.
//!
//! A heuristic gives a first flow, which in most cases is least already. Cycle cancelling (Klein, 1967) confirms that,
//! or improves the flow until it is least. So a fault in a heuristic costs time, and never gives a wrong flow.

ghost use Rattle.std.specs.Prelude.{◌≡◌, IfOk, IfErr};
ghost use Rattle.fm_certificate.specs.PolicyNetwork.{IsBuilt};
ghost use Rattle.fm_certificate.specs.Flows.{units_in, IsLeast};
ghost use Rattle.fm_certificate.specs.Certificates.{IsCertified};
ghost use Rattle.fm_indexed.specs.Numbered.{IsNumbered};

use fm_certificate::flow::Flow;
use fm_certificate::laws::law_least;
use fm_certificate::potentials::Potentials;
use fm_heuristics::first::first_flow;
use fm_heuristics::resumed::resumed;
use fm_indexed::improved::improved;
use fm_indexed::indexed_network::IndexedNetwork;
use fm_indexed::to_named::certified;
use fm_indexed::unscheduled::law_unscheduled;
use fm_lattice::join::OutOfMemory;
use fm_net::network::Network;
use fm_records::refusal::Refusal;
use std::alloc::Global;

/// A least flow of the network, and potentials that certify it. The caller must pass a network that the policy can
/// build. Refused if memory runs out, and for nothing else.
///
/// A search places the tasks (`fm_search`); then cycles of negative cost are cancelled until none is left (Klein, 1967).
/// O(arcs log arcs), and what the search takes. If its flow is not least, each search for cycles takes O(nodes * arcs)
/// at worst. Memory O(nodes + arcs).
pub fn solve(alloc: Global, network: &Network) -> Result<(Flow, Potentials), Refusal>
    requires built { IsBuilt network.now }
    ensures certified { IfOk result (λ found. IsCertified network.now found.0 found.1) }
    ensures least { IfOk result (λ found. IsLeast network.now (units_in found.0)) }
    ensures cause { IfErr result (λ refusal. refusal ≡ Refusal.OutOfMemory) }
{
    let by_number = IndexedNetwork::of(alloc, network)?;
    let found = anew(alloc, network, &by_number)?;
    Ok(found)
}

/// As `solve`, and starts with the task paths of the flow, of this network or an earlier one, that are still complete
/// and fit; if that gives no least flow, it starts from nothing. The caller must pass a network that the policy can
/// build. Refused as `solve` is.
///
/// O(arcs log arcs), and what `solve` takes if it starts from nothing. It took longer than `solve` wherever both were
/// measured, since most of either call is numbering the network and naming the flow. The flow that is kept for it takes
/// some 80 bytes an arc.
pub fn solve_from(
    alloc: Global,
    network: &Network,
    flow: &Flow,
) -> Result<(Flow, Potentials), Refusal>
    requires built { IsBuilt network.now }
    ensures certified { IfOk result (λ found. IsCertified network.now found.0 found.1) }
    ensures least { IfOk result (λ found. IsLeast network.now (units_in found.0)) }
    ensures cause { IfErr result (λ refusal. refusal ≡ Refusal.OutOfMemory) }
{
    let numbered = IndexedNetwork::of(alloc, network)?;
    let found = resumed_or_anew(alloc, network, &numbered, flow)?;
    Ok(found)
}

// The least flow that the given one's task paths make, and potentials that certify it; if they make none, those of `anew`.
fn resumed_or_anew(
    alloc: Global,
    network: &Network,
    numbered: &IndexedNetwork,
    flow: &Flow,
) -> Result<(Flow, Potentials), OutOfMemory>
    requires built { IsBuilt network.now }
    requires numbered { IsNumbered network.now numbered.now.places numbered.now.arcs.items }
    ensures certified { IfOk result (λ found. IsCertified network.now found.0 found.1) }
    ensures least { IfOk result (λ found. IsLeast network.now (units_in found.0)) }
{
    network.known();
    law_least();
    match resumed(alloc, network, numbered, flow)? {
        Some((units, values)) => certified(alloc, network, numbered, &units, &values),
        None => anew(alloc, network, numbered),
    }
}

// The least flow that cancelling makes of the start's, and potentials that certify it. The search for cycles starts
// from the start's numbers, so that it only confirms them if they are potentials.
fn anew(
    alloc: Global,
    network: &Network,
    numbered: &IndexedNetwork,
) -> Result<(Flow, Potentials), OutOfMemory>
    requires built { IsBuilt network.now }
    requires numbered { IsNumbered network.now numbered.now.places numbered.now.arcs.items }
    ensures certified { IfOk result (λ found. IsCertified network.now found.0 found.1) }
    ensures least { IfOk result (λ found. IsLeast network.now (units_in found.0)) }
{
    network.known();
    law_unscheduled();
    law_least();
    let (first, costs) = first_flow(alloc, numbered)?;
    let (units, values) = improved(alloc, numbered, first, costs)?;
    let found = certified(alloc, network, numbered, &units, &values)?;
    Ok(found)
}
