//! A round alone: what one planner with some knowledge would do now.

ghost use Rattle.std.specs.Prelude.{◌≡◌, ℕ, IsTrue, IfOk};
ghost use Rattle.fm_round.specs.declared.plan.Plan.{Plan as Planned};
ghost use Rattle.fm_round.specs.Admission.{admission, told, got_place, is_within_nic};
ghost use Rattle.fm_round.specs.Schedules.{IsPlanOf};

use fm_flow::solve::solve;
use fm_know::knowledge::Knowledge;
use fm_know::laws::law_can_be;
use fm_policy::build::build;
use fm_records::ids::CoordId;
use fm_records::refusal::Refusal;
use fm_round::admission::admit;
use fm_round::from_network::plan;
use fm_round::plan::Admitted;
use std::alloc::Global;

/// What a coordinator with this knowledge would admit of the plan of a least flow of its network. No machine that
/// gets a task is asked for more than its bandwidth. Refused only if memory runs out.
pub fn decide(
    alloc: Global,
    knowledge: &Knowledge,
    coordinator: CoordId,
) -> Result<Admitted, Refusal>
    ensures admitted { IfOk result (λ a. (plan : Planned) × IsPlanOf knowledge.now plan
        × (a ≡ admission knowledge.now coordinator plan)) }
{
    law_can_be(knowledge);
    let network = build(alloc, knowledge)?;
    let (flow, _) = solve(alloc, &network)?;
    let plan = plan(alloc, &network, &flow, knowledge)?;
    Ok(admit(alloc, knowledge, coordinator, &plan)?)
}
