//! Networks: their texts, their flows, and the results of flows.

ghost use Rattle.std.specs.Prelude.{◌≡◌, IfOk};
ghost use Rattle.fm_certificate.specs.PolicyNetwork.{IsBuilt};
ghost use Rattle.fm_certificate.specs.Flows.{units_in, IsFeasible};
ghost use Rattle.fm_net.specs.Network.{net_of};

use crate::cluster::{chain, known};
use crate::memory::Memory;
use crate::verdict::{Verdict, judged};
use fm_certificate::cost::cost;
use fm_certificate::flow::Flow;
use fm_dimacs::dump::dump;
use fm_dimacs::out::Over;
use fm_dimacs::read::read;
use fm_dimacs::solution::write_solution;
use fm_flow::solve::{solve, solve_from};
use fm_know::knowledge::Knowledge;
use fm_know::laws::law_can_be;
use fm_net::network::Network;
use fm_policy::build::build;
use fm_records::refusal::Refusal;
use std::alloc::Global;

// How many operations the networks are of, and how many an earlier one is, of which most tasks wait.
const TOLD: u32 = 320;

const EARLIER: u32 = 280;

// The same of networks in which most tasks are placed.
const PLACED: u32 = 160;

const PLACED_EARLIER: u32 = 150;

/// How many machines a chain has.
pub(crate) const CHAINED: u32 = 40;

/// The network of what is known.
pub(crate) fn network_of(alloc: Global, known: &Knowledge) -> Result<Network, Refusal>
    ensures built { IfOk result (λ network. IsBuilt network) }
    ensures network { IfOk result (λ network. network ≡ net_of known.now) }
{
    law_can_be(known);
    let network = build(alloc, known)?;
    Ok(network)
}

// The network of so many operations.
fn told(alloc: Global, count: u32) -> Result<Network, Refusal>
    ensures { IfOk result (λ network. IsBuilt network) }
{
    let known = known(alloc, 0, count)?;
    network_of(alloc, &known)
}

/// Whether both are the same.
pub(crate) fn are_same(one: &Network, other: &Network) -> bool {
    one == other
}

/// A least flow of the network.
pub(crate) fn flow_of(alloc: Global, network: &Network) -> Result<Flow, Refusal>
    requires { IsBuilt network.now }
    ensures { IfOk result (λ flow. IsFeasible network.now (units_in flow)) }
{
    let (flow, _potentials) = solve(alloc, network)?;
    Ok(flow)
}

// A least flow of the network, from an earlier one.
fn flow_from(alloc: Global, network: &Network, earlier: &Flow) -> Result<Flow, Refusal>
    requires { IsBuilt network.now }
    ensures { IfOk result (λ flow. IsFeasible network.now (units_in flow)) }
{
    let (flow, _potentials) = solve_from(alloc, network, earlier)?;
    Ok(flow)
}

// Whether both cost the same.
fn cost_the_same(network: &Network, one: &Flow, other: &Flow) -> bool
    requires built { IsBuilt network.now }
    requires one { IsFeasible network.now (units_in one.now) }
    requires other { IsFeasible network.now (units_in other.now) }
{
    cost(network, one) == cost(network, other)
}

fn dump_to(alloc: Global, network: &Network, out: &mut Over<Vec<u8>>) -> Result<(), Refusal> {
    dump(alloc, network, out)
}

/// The text of the network.
pub(crate) fn text_of(alloc: Global, network: &Network) -> Result<Vec<u8>, Refusal> {
    let mut out = Over::new(Vec::new(alloc));
    dump_to(alloc, network, &mut out)?;
    Ok(out.into_inner())
}

fn network_in(alloc: Global, text: &[u8]) -> Result<Network, Refusal> {
    read(alloc, text)
}

/// A network is written.
pub(crate) fn written(memory: Memory) -> Result<Verdict, Refusal> {
    let network = told(memory.alloc, TOLD)?;
    is_written(memory, &network)
}

/// The sink is written, whose first line is shorter than the one after it.
pub(crate) fn sink_written(memory: Memory) -> Result<Verdict, Refusal> {
    let network = told(memory.alloc, 0)?;
    is_written(memory, &network)
}

fn is_written(memory: Memory, network: &Network) -> Result<Verdict, Refusal> {
    let text = text_of(memory.alloc, network)?;
    let mut out = writer_for(memory.alloc, text.len())?;
    memory.refuse();
    let refusal = dump_to(memory.alloc, network, &mut out).err();
    memory.give();
    let is_right = is_part(
        refusal.is_some(),
        out.into_inner().as_slice(),
        text.as_slice(),
    );
    Ok(judged(refusal, is_right))
}

/// A writer with room for so many bytes.
pub(crate) fn writer_for(alloc: Global, bytes: usize) -> Result<Over<Vec<u8>>, Refusal> {
    let mut room = Vec::new(alloc);
    room.reserve(bytes)?;
    Ok(Over::new(room))
}

/// Whether what was written is the complete text, or, if it may be a part of it, how it begins.
pub(crate) fn is_part(may_be: bool, out: &[u8], text: &[u8]) -> bool {
    if may_be {
        text.starts_with(out)
    } else {
        text == out
    }
}

/// A network's text is read.
pub(crate) fn was_read(memory: Memory) -> Result<Verdict, Refusal> {
    let network = told(memory.alloc, TOLD)?;
    let text = text_of(memory.alloc, &network)?;
    memory.refuse();
    let answer = network_in(memory.alloc, text.as_slice());
    memory.give();
    match answer {
        Ok(read) => Ok(judged(None, are_same(&read, &network))),
        Err(refusal) => reads_again(memory.alloc, refusal, &network, text.as_slice()),
    }
}

fn reads_again(
    alloc: Global,
    refusal: Refusal,
    network: &Network,
    text: &[u8],
) -> Result<Verdict, Refusal> {
    let again = network_in(alloc, text)?;
    Ok(judged(Some(refusal), are_same(&again, network)))
}

/// A network is solved.
pub(crate) fn solved(memory: Memory) -> Result<Verdict, Refusal> {
    let network = told(memory.alloc, TOLD)?;
    solves(memory, &network)
}

/// The network of a chain is solved.
pub(crate) fn solved_chain(memory: Memory) -> Result<Verdict, Refusal> {
    let known = chain(memory.alloc, CHAINED)?;
    let network = network_of(memory.alloc, &known)?;
    solves(memory, &network)
}

fn solves(memory: Memory, network: &Network) -> Result<Verdict, Refusal>
    requires { IsBuilt network.now }
{
    memory.refuse();
    let answer = flow_of(memory.alloc, network);
    memory.give();
    let wanted = flow_of(memory.alloc, network)?;
    match answer {
        Ok(flow) => Ok(judged(None, cost_the_same(network, &flow, &wanted))),
        Err(refusal) => Ok(judged(Some(refusal), true)),
    }
}

/// A solution is written.
pub(crate) fn solution_written(memory: Memory) -> Result<Verdict, Refusal> {
    let network = told(memory.alloc, TOLD)?;
    let flow = flow_of(memory.alloc, &network)?;
    is_solution_written(memory, &network, &flow)
}

fn solution_to(
    alloc: Global,
    network: &Network,
    flow: &Flow,
    out: &mut Over<Vec<u8>>,
) -> Result<(), Refusal>
    requires built { IsBuilt network.now }
    requires feasible { IsFeasible network.now (units_in flow.now) }
{
    write_solution(alloc, network, flow, out)
}

fn solution_text(alloc: Global, network: &Network, flow: &Flow) -> Result<Vec<u8>, Refusal>
    requires built { IsBuilt network.now }
    requires feasible { IsFeasible network.now (units_in flow.now) }
{
    let mut out = Over::new(Vec::new(alloc));
    solution_to(alloc, network, flow, &mut out)?;
    Ok(out.into_inner())
}

fn is_solution_written(memory: Memory, network: &Network, flow: &Flow) -> Result<Verdict, Refusal>
    requires built { IsBuilt network.now }
    requires feasible { IsFeasible network.now (units_in flow.now) }
{
    let text = solution_text(memory.alloc, network, flow)?;
    let mut out = writer_for(memory.alloc, text.len())?;
    memory.refuse();
    let refusal = solution_to(memory.alloc, network, flow, &mut out).err();
    memory.give();
    let is_right = is_part(
        refusal.is_some(),
        out.into_inner().as_slice(),
        text.as_slice(),
    );
    Ok(judged(refusal, is_right))
}

/// A network is solved from the flow of an earlier one. So few tasks are placed that it is solved from nothing.
pub(crate) fn solved_from(memory: Memory) -> Result<Verdict, Refusal> {
    let start = earlier_flow(memory.alloc, EARLIER)?;
    solved_from_flow(memory, TOLD, &start)
}

/// The same in which most tasks are placed, and stay.
pub(crate) fn solved_from_most(memory: Memory) -> Result<Verdict, Refusal> {
    let start = earlier_flow(memory.alloc, PLACED_EARLIER)?;
    solved_from_flow(memory, PLACED, &start)
}

fn earlier_flow(alloc: Global, count: u32) -> Result<Flow, Refusal> {
    let earlier = told(alloc, count)?;
    flow_of(alloc, &earlier)
}

fn solved_from_flow(memory: Memory, count: u32, start: &Flow) -> Result<Verdict, Refusal> {
    let network = told(memory.alloc, count)?;
    solves_from(memory, &network, start)
}

fn solves_from(memory: Memory, network: &Network, start: &Flow) -> Result<Verdict, Refusal>
    requires { IsBuilt network.now }
{
    memory.refuse();
    let answer = flow_from(memory.alloc, network, start);
    memory.give();
    let wanted = flow_of(memory.alloc, network)?;
    match answer {
        Ok(flow) => Ok(judged(None, cost_the_same(network, &flow, &wanted))),
        Err(refusal) => Ok(judged(Some(refusal), true)),
    }
}
