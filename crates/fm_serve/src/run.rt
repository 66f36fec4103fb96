//! Running a script's steps on a world of its coordinators.

ghost use Rattle.std.specs.Prelude.{◌≡◌, ℕ, IfOk, IfErr, OnOk};
ghost use Rattle.fm_world.specs.declared.step.Act.TheVariants as world_act;
ghost use Rattle.fm_coord.specs.Numbers.{AreDistinct};
ghost use Rattle.fm_world.specs.Worlds.{WorldOfSets, refusal_of};
ghost use Rattle.fm_world.specs.Represents.{WorldRepresents};
ghost use Rattle.fm_script.specs.declared.script.ScriptAct.TheVariants as script_act;
ghost use Rattle.fm_script.specs.RoundPlans.{IsRoundPlan};
ghost use Rattle.fm_share.specs.Parts.{IsPartOf};
ghost use Rattle.fm_tally.specs.Tallies.{TallyIsFor};
ghost use Rattle.fm_service.specs.WorldSteps.{Makes, EnsuresErr};
ghost use Rattle.fm_serve.specs.ScriptSteps.{ScriptActStep, Come, Refuses, StopsIn, StopsScript, IsRun};

use crate::fault::Fault;
use crate::progress::RunProgress;
use fm_edit::keepers::Keeper;
use fm_know::knowledge::Knowledge;
use fm_lattice::join::OutOfMemory;
use fm_planner::plan_source::plan_for;
use fm_records::refusal::Refusal;
use fm_round::plan::Plan;
use fm_script::initial_world::open;
use fm_script::script::{RoundKind, Script, ScriptAct, ScriptStep};
use fm_service::acting::{relief_plan, take_step};
use fm_share::part::part_of;
use fm_share::share::Share;
use fm_tally::tally::Tally;
use fm_world::step::Act as WorldAct;
use fm_world::world::World;
use std::alloc::Global;

/// The world after the script's steps. A step that is refused is named: by NoCoordinator if its coordinator is
/// not listed, by NoPacket if no packet of the name was cut, else as the coordinator's call, and a round also if
/// memory runs out for its plan. Else it is refused only if memory runs out. The caller must ensure that no two
/// coordinators have one number.
pub fn run(alloc: Global, progress: &RunProgress, script: &Script) -> Result<World<Keeper>, Fault>
    requires { AreDistinct script.now.coordinators.items }
    ensures ok { IfOk result (λ world. IsRun script.now.coordinators.items script.now.steps.items world) }
    ensures err { IfErr result (λ fault. StopsScript script.now.coordinators.items script.now.steps.items fault) }
{
    let mut world = open(alloc, &script.coordinators)?;
    take_all(alloc, progress, &mut world, &script.steps)?;
    Ok(world)
}

// Takes the steps in order, up to the first that is refused, and counts them.
fn take_all(
    alloc: Global,
    progress: &RunProgress,
    world: &mut World<Keeper>,
    steps: &[ScriptStep],
) -> Result<(), Fault>
    ensures ok { Makes result world.old world.new (λ w v. Come w steps.now v) }
    ensures err { EnsuresErr result world.old (λ w fault. StopsIn w steps.now fault) }
{
    for (place, step) in steps.iter().enumerate() {
        if let Err(refusal) = take(alloc, world, step.at, step.act) {
            return Err(Fault {
                refusal,
                step: Some(place + 1),
            });
        }
        progress.count_step();
    }
    Ok(())
}

// What happens in a step.
fn take(alloc: Global, world: &mut World<Keeper>, at: u8, act: ScriptAct) -> Result<(), Refusal>
    ensures ok { Makes result world.old world.new (λ w v. ScriptActStep w at act v) }
    ensures err { EnsuresErr result world.old (λ w refusal. Refuses w at act refusal) }
{
    match act {
        ScriptAct::Tell(op) => take_step(world, at, WorldAct::Tell(op)),
        ScriptAct::Cut(range) => take_step(world, at, WorldAct::Cut(range)),
        ScriptAct::Deliver(packet) => take_step(world, at, WorldAct::Deliver(packet)),
        ScriptAct::Trim(n) => take_step(world, at, WorldAct::Trim(n)),
        ScriptAct::Round(kind) => round(alloc, world, at, &kind),
    }
}

// A round: a look at what is known with the tally, what it is for by that, and the commit.
fn round(alloc: Global, world: &mut World<Keeper>, at: u8, kind: &RoundKind) -> Result<(), Refusal>
    ensures ok { Makes result world.old world.new (λ w v. ScriptActStep w at (script_act.Round kind.now) v) }
    ensures err { EnsuresErr result world.old (λ w refusal. Refuses w at (script_act.Round kind.now) refusal) }
{
    let sight = world.see(at, 0)?;
    let knowledge = sight.knowledge.get();
    let plan = round_plan(alloc, sight.tally.get(), knowledge, kind)?;
    take_step(world, at, WorldAct::Commit(plan))
}

// What a round is for, by what is known and its tally.
fn round_plan(
    alloc: Global,
    tally: &Tally,
    knowledge: &Knowledge,
    kind: &RoundKind,
) -> Result<Plan, OutOfMemory>
    requires { TallyIsFor knowledge.now tally.now }
    ensures { IfOk result (IsRoundPlan knowledge.now kind.now) }
{
    match kind {
        RoundKind::Share(share) => shared_plan(alloc, tally, knowledge, share),
        RoundKind::Relief => relief_plan(alloc, knowledge),
    }
}

// The share of a plan by what is known and its tally.
fn shared_plan(
    alloc: Global,
    tally: &Tally,
    knowledge: &Knowledge,
    share: &Share,
) -> Result<Plan, OutOfMemory>
    requires { TallyIsFor knowledge.now tally.now }
    ensures { IfOk result (IsPartOf knowledge.now share.now) }
{
    let planned = plan_for(alloc, tally, knowledge)?;
    let part = part_of(alloc, knowledge, share, planned.plan)?;
    Ok(part)
}
