//! The network of what is known, put in its order: first the nodes, then the arcs.
//!
//! In this order each node and each arc comes after those that are there, so a put is a push, O(1) amortised, and moves
//! nothing. What is asked about tasks and machines comes from one walk over each, before (`inputs`). The policy is
//! Firmament's network-aware one (Gog et al., 2016), with the unscheduled aggregators of Quincy (Isard et al., 2009).

ghost use Rattle.std.specs.Prelude.{◌≡◌, IfOk, OnOk};
ghost use Rattle.fm_net.specs.Net.{sink_alone};
ghost use Rattle.fm_net.specs.Network.{net_of};
ghost use Rattle.fm_policy.specs.inner.Inputs.{AreInputs};

use crate::inputs::NetworkInputs;
use crate::nodes::put_nodes;
use crate::put_arcs;
use fm_know::knowledge::Knowledge;
use fm_lattice::join::OutOfMemory;
use fm_net::network::Network;
use std::alloc::Global;

/// The network of what is known: the sink, the open machines, the live tasks, their jobs, and the requests of those
/// that no machine holds, with their arcs. What it needs of them is a tally's, O(n) in the records if ids are spread evenly,
/// else O(n log n). A look-up for each task that waits and prefers machines, O(log n), and O(1) amortised for each pair of
/// a request and an open machine.
pub fn build(alloc: Global, knowledge: &Knowledge) -> Result<Network, OutOfMemory>
    ensures { IfOk result (λ net. net ≡ net_of knowledge.now) }
{
    let inputs = NetworkInputs::of(alloc, knowledge)?;
    let mut network = Network::new(alloc)?;
    put_all(&mut network, knowledge, &inputs)?;
    Ok(network)
}

// Puts all nodes and arcs into the network of nothing.
fn put_all(
    network: &mut Network,
    knowledge: &Knowledge,
    inputs: &NetworkInputs,
) -> Result<(), OutOfMemory>
    requires inputs { AreInputs knowledge.now inputs.now }
    requires empty { network.old ≡ sink_alone }
    ensures { OnOk result (network.new ≡ net_of knowledge.now) }
{
    put_nodes(network, knowledge, inputs)?;
    put_arcs::put_jobs(network, knowledge, inputs)?;
    put_arcs::put_requests(network, knowledge, inputs)?;
    put_arcs::put_machines(network, knowledge, inputs)?;
    put_arcs::put_tasks(network, knowledge, inputs)?;
    network.known();
    Ok(())
}
