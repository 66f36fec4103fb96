//! A least flow of what a coordinator knows, and its plan, as text.

ghost use Rattle.std.specs.Prelude.{◌≡◌, IfOk, IsOkUnless, string_bytes};
ghost use Rattle.fm_net.specs.Network.{net_of};
ghost use Rattle.fm_round.specs.Schedules.{IsPlanOf};
ghost use Rattle.fm_query.specs.PlanText.{IsPlanText};
ghost use Rattle.fm_query.specs.QueryTexts.{IsSolution};

use crate::plan_text::plan_text;
use fm_coord::coordinator::Coordinator;
use fm_dimacs::out::Over;
use fm_dimacs::solution::write_solution;
use fm_flow::solve::solve;
use fm_know::knowledge::Knowledge;
use fm_know::laws::law_can_be;
use fm_net::network::Network;
use fm_planner::plan_source::{plan_for, plan_of};
use fm_policy::build::build;
use fm_policy::keeper::NetKeeper;
use fm_records::refusal::Refusal;
use fm_round::plan::Plan;
use std::alloc::Global;

/// A least flow of the network of what the coordinator knows, its cost first, in DIMACS lines. Refused only if memory
/// runs out. The cost is that of building the network, if the coordinator has none that is fresh, and of solving it.
pub fn solution_text<N: NetKeeper>(
    alloc: Global,
    coordinator: &Coordinator<N>,
) -> Result<Vec<u8>, Refusal>
    ensures ok { IfOk result (λ text. IsSolution (net_of coordinator.now.state.knowledge) text.items) }
    ensures err { IsOkUnless result Refusal.OutOfMemory }
{
    let knowledge = coordinator.knowledge();
    if coordinator.is_fresh() {
        coordinator.known();
        return solved(alloc, knowledge, coordinator.keeper().network());
    }
    let network = build(alloc, knowledge)?;
    solved(alloc, knowledge, &network)
}

// A least flow of the network, which is that of what is known.
fn solved(alloc: Global, knowledge: &Knowledge, network: &Network) -> Result<Vec<u8>, Refusal>
    requires { network.now ≡ net_of knowledge.now }
    ensures ok { IfOk result (λ text. IsSolution (net_of knowledge.now) text.items) }
    ensures err { IsOkUnless result Refusal.OutOfMemory }
{
    law_can_be(knowledge);
    let (flow, _) = solve(alloc, network)?;
    let mut page = Over::new(Vec::new(alloc));
    match write_solution(alloc, network, &flow, &mut page) {
        Ok(()) => Ok(page.into_inner()),
        Err(_) => Err(Refusal::OutOfMemory),
    }
}

/// The plan of a least flow of the network of what the coordinator knows. Refused only if memory runs out. It costs what
/// `plan_for` does if the coordinator has a tally, else what `plan_of` does. Both build the network only if the
/// search for a plan without it gives up, or its plan fails the check.
pub fn least_plan_of<N: NetKeeper>(
    alloc: Global,
    coordinator: &Coordinator<N>,
) -> Result<Plan, Refusal>
    ensures ok { IfOk result (λ plan. IsPlanOf coordinator.now.state.knowledge plan) }
    ensures err { IsOkUnless result Refusal.OutOfMemory }
{
    let knowledge = coordinator.knowledge();
    match coordinator.tally() {
        Some(tally) => {
            let planned = plan_for(alloc, tally, knowledge)?;
            Ok(planned.plan)
        }
        None => Ok(plan_of(alloc, knowledge)?),
    }
}

/// That plan as text, a line for each place and each preempt. Refused only if memory runs out. It costs what
/// `least_plan_of` does.
pub fn least_plan_text<N: NetKeeper>(
    alloc: Global,
    coordinator: &Coordinator<N>,
) -> Result<String, Refusal>
    ensures ok { IfOk result (λ text. IsPlanText coordinator.now.state.knowledge (string_bytes text)) }
    ensures err { IsOkUnless result Refusal.OutOfMemory }
{
    let plan = least_plan_of(alloc, coordinator)?;
    plan_text(alloc, &plan)
}
