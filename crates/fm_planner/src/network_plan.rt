//! The plan of a least flow of a network, for when there is no plan from a tally.

ghost use Rattle.std.specs.Prelude.{◌≡◌, IfOk, IsOkUnless};
ghost use Rattle.fm_net.specs.Network.{net_of};
ghost use Rattle.fm_round.specs.Schedules.{IsPlanOf};

use fm_flow::solve::solve;
use fm_know::knowledge::Knowledge;
use fm_know::laws::law_can_be;
use fm_net::network::Network;
use fm_records::refusal::Refusal;
use fm_round::from_network::plan;
use fm_round::plan::Plan;
use std::alloc::Global;

/// The plan of a least flow of the network, which must be that of what is known. Refused only if memory runs out. It
/// costs what `solve` does, and a walk over the arcs.
pub fn least_plan(alloc: Global, knowledge: &Knowledge, network: &Network) -> Result<Plan, Refusal>
    requires { network.now ≡ net_of knowledge.now }
    ensures ok { IfOk result (λ plan. IsPlanOf knowledge.now plan) }
    ensures err { IsOkUnless result Refusal.OutOfMemory }
{
    law_can_be(knowledge);
    let (flow, _) = solve(alloc, network)?;
    Ok(plan(alloc, network, &flow, knowledge)?)
}
