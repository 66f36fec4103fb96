//! Plans of what is known: from a tally if its claim passes a check, else from the network, which is built and solved.
//!
//! Either is the plan of a least flow of the network of what is known. If there are several least flows, the two may be
//! plans of different ones.

ghost use Rattle.std.specs.Prelude.{IfOk};
ghost use Rattle.fm_round.specs.Schedules.{IsPlanOf};
ghost use Rattle.fm_tally.specs.Tallies.{TallyIsFor};

use crate::network_plan::least_plan;
use crate::planner::plan_of_tally;
use fm_know::knowledge::Knowledge;
use fm_lattice::join::OutOfMemory;
use fm_policy::build::build;
use fm_round::plan::Plan;
use fm_tally::tally::Tally;
use std::alloc::Global;

/// From what a plan was made.
#[derive(Debug, Clone, Copy, PartialEq, Eq, Drop)]
pub enum PlanSource {
    /// From the tally alone.
    Tally,
    /// From the network, which was built and solved.
    Network,
}

/// A plan, and from what it was made.
#[derive(Debug, Drop)]
pub struct Planned {
    pub plan: Plan,
    pub source: PlanSource,
}

/// A plan of a least flow of the network of what is known. The caller must pass the tally of what is known. It is made from the
/// tally if that can be (`plan_of_tally`); else the network is built and solved. Only memory is refused. It costs what
/// `plan_of_tally` does, and if there is none also what `build` and `least_plan` do.
pub fn plan_for(alloc: Global, tally: &Tally, knowledge: &Knowledge) -> Result<Planned, OutOfMemory>
    requires { TallyIsFor knowledge.now tally.now }
    ensures { IfOk result (λ planned. IsPlanOf knowledge.now planned.plan) }
{
    if let Some(plan) = plan_of_tally(alloc, tally, knowledge)? {
        return Ok(Planned {
            plan,
            source: PlanSource::Tally,
        });
    }
    let plan = plan_of_network(alloc, knowledge)?;
    Ok(Planned {
        plan,
        source: PlanSource::Network,
    })
}

/// The plan of `plan_for` by a tally that is made of what is known for this call. Only memory is refused. It costs what
/// `Tally::of` does, O(n log n) in the records, and what `plan_for` does.
pub fn plan_of(alloc: Global, knowledge: &Knowledge) -> Result<Plan, OutOfMemory>
    ensures { IfOk result (IsPlanOf knowledge.now) }
{
    let tally = Tally::of(alloc, knowledge)?;
    let planned = plan_for(alloc, &tally, knowledge)?;
    Ok(planned.plan)
}

// The plan of the network, which is built and solved.
fn plan_of_network(alloc: Global, knowledge: &Knowledge) -> Result<Plan, OutOfMemory>
    ensures { IfOk result (IsPlanOf knowledge.now) }
{
    let network = build(alloc, knowledge)?;
    match least_plan(alloc, knowledge, &network) {
        Ok(plan) => Ok(plan),
        Err(_) => Err(OutOfMemory),
    }
}
