//! How long it takes to build the network of what a script tells, to solve it, and to write the flow.

ghost use Rattle.std.specs.Prelude.{IfOk};
ghost use Rattle.fm_certificate.specs.PolicyNetwork.{IsBuilt};
ghost use Rattle.fm_certificate.specs.Flows.{units_in, IsLeast};

use fm_certificate::flow::Flow;
use fm_dimacs::out::Over;
use fm_dimacs::solution::write_solution;
use fm_flow::solve::solve;
use fm_know::knowledge::Knowledge;
use fm_know::laws::law_can_be;
use fm_lattice::join::Join;
use fm_net::network::Network;
use fm_policy::build::build;
use fm_records::ops::Op;
use fm_records::refusal::Refusal;
use fm_script::script::{Script, ScriptAct};
use std::alloc::Global;
use std::time::Instant;

/// How many nanoseconds each part took.
#[derive(Clone, Copy, Drop)]
pub(crate) struct Times {
    pub(crate) build: u128,
    pub(crate) solve: u128,
    pub(crate) write: u128,
}

/// All that the script tells, whichever coordinator is told it.
pub(crate) fn known_of(alloc: Global, script: &Script) -> Result<Knowledge, Refusal> {
    let mut known = Knowledge::empty(alloc);
    for step in &script.steps {
        if let ScriptAct::Tell(op) = step.act {
            tell(alloc, &mut known, &op)?;
        }
    }
    Ok(known)
}

fn tell(alloc: Global, known: &mut Knowledge, op: &Op) -> Result<(), Refusal> {
    op.check()?;
    let delta = Knowledge::delta_of(alloc, op)?;
    known.join_into(&delta)?;
    Ok(())
}

/// Builds the network, solves it and writes the flow, and times each.
pub(crate) fn timed(rt: &HostRuntime, known: &Knowledge) -> Result<Times, anyhow::Error> {
    let (network, build) = built(rt, known)?;
    let (solve, write) = solved_and_written(rt, &network)?;
    Ok(Times {
        build,
        solve,
        write,
    })
}

fn built(rt: &HostRuntime, known: &Knowledge) -> Result<(Network, u128), anyhow::Error>
    ensures { IfOk result (λ built. IsBuilt built.0) }
{
    let begun = Instant::now(rt)?;
    let network = network_of(rt.alloc(), known)?;
    let took = begun.elapsed(rt)?.as_nanos();
    Ok((network, took))
}

fn network_of(alloc: Global, known: &Knowledge) -> Result<Network, Refusal>
    ensures { IfOk result (λ network. IsBuilt network) }
{
    law_can_be(known);
    let network = build(alloc, known)?;
    Ok(network)
}

fn solved_and_written(rt: &HostRuntime, network: &Network) -> Result<(u128, u128), anyhow::Error>
    requires { IsBuilt network.now }
{
    let (flow, solve) = solved(rt, network)?;
    let write = written(rt, network, &flow)?;
    Ok((solve, write))
}

fn solved(rt: &HostRuntime, network: &Network) -> Result<(Flow, u128), anyhow::Error>
    requires { IsBuilt network.now }
    ensures { IfOk result (λ solved. IsLeast network.now (units_in solved.0)) }
{
    let begun = Instant::now(rt)?;
    let (flow, _) = solve(rt.alloc(), network)?;
    let took = begun.elapsed(rt)?.as_nanos();
    Ok((flow, took))
}

fn written(rt: &HostRuntime, network: &Network, flow: &Flow) -> Result<u128, anyhow::Error>
    requires built { IsBuilt network.now }
    requires least { IsLeast network.now (units_in flow.now) }
{
    let mut page = Over::new(Vec::new(rt.alloc()));
    let begun = Instant::now(rt)?;
    write_solution(rt.alloc(), network, flow, &mut page)?;
    let took = begun.elapsed(rt)?.as_nanos();
    Ok(took)
}
