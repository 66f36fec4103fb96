//! How long solving takes, from nothing and from earlier flows.

ghost use Rattle.std.specs.Prelude.{IfOk};
ghost use Rattle.fm_certificate.specs.PolicyNetwork.{IsBuilt};

use crate::cluster::{Cluster, Sizes};
use crate::draw::Draw;
use crate::solving::{anew, cost_from, cycles_after_first, network_of};
use fm_flow::flow::Flow;
use fm_net::network::Network;
use std::time::Instant;

// A cluster of so many tasks, with room for most of them.
fn sizes_of(tasks: u32) -> Sizes {
    Sizes {
        jobs: (tasks / 50).max(1),
        machines: (tasks / 10).max(1),
        tasks,
        requests: 40,
        wait: 20_000,
        preferring: 0,
    }
}

// The functions below hold one value each if they may be refused: a proof considers what is dropped at each refusal.

// The network of what is known, and how many milliseconds building it took.
fn built(rt: &HostRuntime, cluster: &Cluster) -> Result<(Network, u128), anyhow::Error>
    ensures { IfOk result (λ built. IsBuilt built.0) }
{
    let begun = Instant::now(rt)?;
    let network = network_of(rt.alloc(), &cluster.known)?;
    let took = begun.elapsed(rt)?.as_millis();
    Ok((network, took))
}

// What solving from the flow costs, and how many milliseconds it took.
fn resumed(
    rt: &HostRuntime,
    network: &Network,
    earlier: &Flow,
) -> Result<(u128, u128), anyhow::Error>
    requires { IsBuilt network.now }
{
    let begun = Instant::now(rt)?;
    let cost = cost_from(rt.alloc(), network, earlier)?;
    let took = begun.elapsed(rt)?.as_millis();
    Ok((cost, took))
}

// A least flow, what it costs, and how many milliseconds solving took.
fn solved(rt: &HostRuntime, network: &Network) -> Result<(Flow, u128, u128), anyhow::Error>
    requires { IsBuilt network.now }
{
    let begun = Instant::now(rt)?;
    let (flow, cost) = anew(rt.alloc(), network)?;
    let took = begun.elapsed(rt)?.as_millis();
    Ok((flow, cost, took))
}

// How long solving takes from the flow, and from nothing, and what came of both.
#[derive(Drop)]
struct Times {
    resumed: u128,
    solved: u128,
    is_alike: bool,
    cycles: usize,
    flow: Flow,
}

fn timed(rt: &HostRuntime, network: &Network, earlier: &Flow) -> Result<Times, anyhow::Error>
    requires { IsBuilt network.now }
{
    let (same, resumed) = resumed(rt, network, earlier)?;
    let cycles = cycles_after_first(rt.alloc(), network)?;
    let (flow, cost, solved) = solved(rt, network)?;
    Ok(Times {
        resumed,
        solved,
        is_alike: cost == same,
        cycles,
        flow,
    })
}

// Prints how long solving takes from the flow, and from nothing, and returns the new flow.
fn print_both(
    rt: &HostRuntime,
    name: &str,
    cluster: &Cluster,
    earlier: &Flow,
) -> Result<Flow, anyhow::Error> {
    let (network, build) = built(rt, cluster)?;
    let times = timed(rt, &network, earlier)?;
    print_times(rt, name, build, &times)?;
    Ok(times.flow)
}

fn print_times(
    rt: &HostRuntime,
    name: &str,
    build: u128,
    times: &Times,
) -> Result<(), anyhow::Error> {
    let (solve, resume) = (times.solved, times.resumed);
    let (is_alike, cycles) = (times.is_alike, times.cycles);
    println!(rt;
        "{name}: build {build} ms, solve {solve} ms, solve_from {resume} ms, alike {is_alike}, {cycles} cycles after the start"
    )?;
    Ok(())
}

/// Prints how long a cluster of so many tasks takes: from no flow, from its own, after one task in a hundred changed,
/// and after half of them did.
pub(crate) fn print(rt: &HostRuntime, tasks: u32) -> Result<(), anyhow::Error> {
    let mut draw = Draw::new(u64::from(tasks));
    let cluster = Cluster::new(rt.alloc(), &mut draw, sizes_of(tasks))?;
    println!(rt; "{tasks} tasks")?;
    print_changes(rt, cluster, draw, tasks)
}

fn print_changes(
    rt: &HostRuntime,
    mut cluster: Cluster,
    mut draw: Draw,
    tasks: u32,
) -> Result<(), anyhow::Error> {
    let mut flow = print_both(rt, "from no flow", &cluster, &Flow::new(rt.alloc()))?;
    for (name, changes) in [
        ("from its own flow", 0),
        ("after 1 % changed", tasks / 100),
        ("after half changed", tasks / 2),
    ] {
        cluster.change(&mut draw, changes)?;
        flow = print_both(rt, name, &cluster, &flow)?;
    }
    Ok(())
}
