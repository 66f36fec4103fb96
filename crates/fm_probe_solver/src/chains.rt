//! Chains of machines, along which each task has to move on.

ghost use Rattle.fm_certificate.specs.PolicyNetwork.{IsBuilt};

use crate::cluster::Cluster;
use crate::solving::{anew, cycles_after_first, network_of};
use fm_net::network::Network;
use fm_records::refusal::Refusal;
use std::alloc::Global;

// What solving costs, and how many cycles the first flow left.
fn solved(alloc: Global, network: &Network) -> Result<(u128, usize), Refusal>
    requires { IsBuilt network.now }
{
    let (_, cost) = anew(alloc, network)?;
    let cycles = cycles_after_first(alloc, network)?;
    Ok((cost, cycles))
}

// The same on a chain of so many machines.
fn solved_chain(alloc: Global, machines: u32) -> Result<(u128, usize), Refusal> {
    let cluster = Cluster::chained(alloc, machines)?;
    let network = network_of(alloc, &cluster.known)?;
    solved(alloc, &network)
}

/// What short and long chains cost, 2 for each machine and 1, and how many cycles the first flow left there.
pub(crate) fn print(rt: &HostRuntime, alloc: Global) -> Result<(), anyhow::Error> {
    for machines in [1, 7, 40, 200] {
        let (cost, cycles) = solved_chain(alloc, machines)?;
        println!(rt; "chain of {machines}: costs {cost}, {cycles} cycles after the first flow")?;
    }
    Ok(())
}
