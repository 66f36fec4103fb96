//! Plans: those of flows, what is admitted of them, and what has to stop.

ghost use Rattle.std.specs.Prelude.{◌≡◌, IfOk};
ghost use Rattle.fm_certificate.specs.Flows.{units_in, IsFeasible};
ghost use Rattle.fm_net.specs.Network.{net_of};

use crate::cluster::{chain, known, numbered};
use crate::memory::Memory;
use crate::networks::{CHAINED, flow_of, network_of};
use crate::verdict::{Verdict, judged};
use fm_certificate::flow::Flow;
use fm_know::knowledge::Knowledge;
use fm_net::network::Network;
use fm_planner::plan_source::plan_of as plan_of_known;
use fm_records::ids::CoordId;
use fm_records::refusal::Refusal;
use fm_round::admission::admit;
use fm_round::from_network::plan;
use fm_round::plan::{Admitted, Plan, Stop};
use fm_round::stops::stops;
use std::alloc::Global;

// How many operations the plans are of.
const TOLD: u32 = 320;

fn plan_of(
    alloc: Global,
    network: &Network,
    flow: &Flow,
    known: &Knowledge,
) -> Result<Plan, Refusal>
    requires network { network.now ≡ net_of known.now }
    requires feasible { IsFeasible network.now (units_in flow.now) }
{
    Ok(plan(alloc, network, flow, known)?)
}

fn admitted(
    alloc: Global,
    known: &Knowledge,
    number: CoordId,
    plan: &Plan,
) -> Result<Admitted, Refusal> {
    Ok(admit(alloc, known, number, plan)?)
}

fn stops_of(alloc: Global, known: &Knowledge, number: CoordId) -> Result<Vec<Stop>, Refusal> {
    Ok(stops(alloc, known, number)?)
}

fn are_same_plans(one: &Plan, other: &Plan) -> bool {
    one == other
}

fn are_same_answers(one: &Admitted, other: &Admitted) -> bool {
    one == other
}

/// A plan of what is known.
pub(crate) fn plan_for(alloc: Global, known: &Knowledge) -> Result<Plan, Refusal> {
    let network = network_of(alloc, known)?;
    let flow = flow_of(alloc, &network)?;
    plan_of(alloc, &network, &flow, known)
}

/// A flow's plan is made.
pub(crate) fn planned(memory: Memory) -> Result<Verdict, Refusal> {
    let known = known(memory.alloc, 0, TOLD)?;
    plans_known(memory, &known)
}

fn plans_known(memory: Memory, known: &Knowledge) -> Result<Verdict, Refusal> {
    let network = network_of(memory.alloc, known)?;
    let flow = flow_of(memory.alloc, &network)?;
    plans(memory, &network, &flow, known)
}

fn plans(
    memory: Memory,
    network: &Network,
    flow: &Flow,
    known: &Knowledge,
) -> Result<Verdict, Refusal>
    requires network { network.now ≡ net_of known.now }
    requires feasible { IsFeasible network.now (units_in flow.now) }
{
    memory.refuse();
    let answer = plan_of(memory.alloc, network, flow, known);
    memory.give();
    let wanted = plan_of(memory.alloc, network, flow, known)?;
    match answer {
        Ok(plan) => Ok(judged(None, are_same_plans(&plan, &wanted))),
        Err(refusal) => Ok(judged(Some(refusal), true)),
    }
}

fn tallied(alloc: Global, known: &Knowledge) -> Result<Plan, Refusal> {
    Ok(plan_of_known(alloc, known)?)
}

/// What is known is planned for.
pub(crate) fn planned_known(memory: Memory) -> Result<Verdict, Refusal> {
    let known = known(memory.alloc, 0, TOLD)?;
    tallies(memory, &known)
}

/// What is known of a chain is planned for.
pub(crate) fn planned_chain(memory: Memory) -> Result<Verdict, Refusal> {
    let known = chain(memory.alloc, CHAINED)?;
    tallies(memory, &known)
}

fn tallies(memory: Memory, known: &Knowledge) -> Result<Verdict, Refusal> {
    memory.refuse();
    let answer = tallied(memory.alloc, known);
    memory.give();
    let wanted = tallied(memory.alloc, known)?;
    match answer {
        Ok(plan) => Ok(judged(None, are_same_plans(&plan, &wanted))),
        Err(refusal) => Ok(judged(Some(refusal), true)),
    }
}

/// A plan is admitted.
pub(crate) fn was_admitted(memory: Memory) -> Result<Verdict, Refusal> {
    let known = known(memory.alloc, 0, TOLD)?;
    let plan = plan_for(memory.alloc, &known)?;
    admits(memory, &known, &plan)
}

fn admits(memory: Memory, known: &Knowledge, plan: &Plan) -> Result<Verdict, Refusal> {
    let number = numbered(1)?;
    memory.refuse();
    let answer = admitted(memory.alloc, known, number, plan);
    memory.give();
    let wanted = admitted(memory.alloc, known, number, plan)?;
    match answer {
        Ok(admitted) => Ok(judged(None, are_same_answers(&admitted, &wanted))),
        Err(refusal) => Ok(judged(Some(refusal), true)),
    }
}

/// What a coordinator has to stop is listed.
pub(crate) fn stopped(memory: Memory) -> Result<Verdict, Refusal> {
    let known = known(memory.alloc, 0, TOLD)?;
    stops_known(memory, &known)
}

fn stops_known(memory: Memory, known: &Knowledge) -> Result<Verdict, Refusal> {
    let number = numbered(1)?;
    memory.refuse();
    let answer = stops_of(memory.alloc, known, number);
    memory.give();
    let wanted = stops_of(memory.alloc, known, number)?;
    match answer {
        Ok(found) => Ok(judged(None, found.as_slice() == wanted.as_slice())),
        Err(refusal) => Ok(judged(Some(refusal), true)),
    }
}
