//! Drawn pairs of a network and an earlier flow.

ghost use Rattle.fm_certificate.specs.PolicyNetwork.{IsBuilt};

use crate::cluster::{Cluster, Sizes};
use crate::draw::Draw;
use crate::solving::{anew, cost_from, cycles_after_first, network_of};
use fm_flow::flow::Flow;
use fm_net::network::Network;
use fm_records::refusal::Refusal;
use std::alloc::Global;

const PAIRS: u32 = 300;

// A cluster of drawn size.
fn drawn(alloc: Global, draw: &mut Draw) -> Result<Cluster, Refusal> {
    let sizes = Sizes {
        jobs: draw.between(1, 4),
        machines: draw.below(12),
        tasks: draw.below(60),
        requests: draw.between(1, 8),
        wait: draw.between(1, 4000),
        preferring: 0,
    };
    Cluster::new(alloc, draw, sizes)
}

// A least flow of the cluster's network.
fn flow_of(alloc: Global, cluster: &Cluster) -> Result<Flow, Refusal> {
    let network = network_of(alloc, &cluster.known)?;
    let (flow, _) = anew(alloc, &network)?;
    Ok(flow)
}

// Whether the network costs the same from nothing as from the earlier flow, and how many cycles the start left.
fn compared_on(alloc: Global, network: &Network, earlier: &Flow) -> Result<(bool, usize), Refusal>
    requires { IsBuilt network.now }
{
    let (_, cost) = anew(alloc, network)?;
    let same = cost_from(alloc, network, earlier)?;
    let cycles = cycles_after_first(alloc, network)?;
    Ok((cost == same, cycles))
}

// The same of the second network, from the first one's flow.
fn compared(alloc: Global, first: &Cluster, second: &Cluster) -> Result<(bool, usize), Refusal> {
    let earlier = flow_of(alloc, first)?;
    let network = network_of(alloc, &second.known)?;
    compared_on(alloc, &network, &earlier)
}

// The pair of a seed: of every fourth the networks have nothing to do with each other, of the others the second is what
// drawn changes make of the first.
fn pair(alloc: Global, seed: u32) -> Result<(bool, usize), Refusal> {
    let mut draw = Draw::new(u64::from(seed));
    let first = drawn(alloc, &mut draw)?;
    let second = if seed % 4 == 0 {
        drawn(alloc, &mut draw)?
    } else {
        changed(alloc, seed)?
    };
    compared(alloc, &first, &second)
}

// What drawn changes make of the cluster of a seed.
fn changed(alloc: Global, seed: u32) -> Result<Cluster, Refusal> {
    let mut draw = Draw::new(u64::from(seed));
    let mut cluster = drawn(alloc, &mut draw)?;
    cluster.change(&mut draw, seed % 23)?;
    Ok(cluster)
}

/// How many pairs cost the same both ways, and how many cycles were cancelled after their starts.
pub(crate) fn print(rt: &HostRuntime, alloc: Global) -> Result<(), anyhow::Error> {
    let mut alike = 0u32;
    let mut cycles = 0usize;
    for seed in 0..PAIRS {
        let (is_alike, count) = pair(alloc, seed)?;
        alike = alike.saturating_add(u32::from(is_alike));
        cycles = cycles.saturating_add(count);
    }
    println!(rt; "{alike} of {PAIRS} pairs cost the same from the earlier flow")?;
    println!(rt; "{cycles} cycles after {PAIRS} starts")?;
    Ok(())
}
