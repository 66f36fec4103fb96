//! Steps on a world of coordinators, and their texts: a step is taken only once its text is there.
//!
//! A step that was taken cannot be taken back if memory for its text runs out. So the packet of a cut, and what is
//! decided of a plan, are made first, then their texts, and then the step takes what was made.

ghost use Rattle.std.specs.Prelude.{◌≡◌, None, IfOk, IfSome, IsOkUnless, OnErr, OnOk};
ghost use Rattle.fm_relief.specs.Relief.{relief_of, plan_of_relief};
ghost use Rattle.fm_share.specs.Parts.{IsPartOf};
ghost use Rattle.fm_script.specs.RoundPlans.{IsRoundPlan};
ghost use Rattle.fm_world.specs.declared.step.Act.TheVariants as act;
ghost use Rattle.fm_coord.specs.States.{cut_packet};
ghost use Rattle.fm_world.specs.Worlds.{WorldOfSets, cause_of, refusal_of};
ghost use Rattle.fm_world.specs.Represents.{WorldRepresents, state_with};
ghost use Rattle.fm_service.specs.WorldSteps.{step_at, WorldStep, StreamRoundStep, IsCutLine, Cuts, Makes, EnsuresErr};

use fm_coord::coordinator::Coordinator;
use fm_coord::entry::Range;
use fm_coord::shared::Shared;
use fm_delta::packet::Packet;
use fm_edit::keepers::Keeper;
use fm_know::knowledge::Knowledge;
use fm_lattice::join::OutOfMemory;
use fm_query::packet_text::packet_line;
use fm_query::round_text::round_text;
use fm_query::solution_text::least_plan_of;
use fm_records::refusal::Refusal;
use fm_relief::relief::{plan_of, relief_of};
use fm_round::plan::Plan;
use fm_script::script::RoundKind;
use fm_share::part::part_of;
use fm_share::share::Share;
use fm_world::step::{Act, Step};
use fm_world::world::World;
use std::alloc::Global;

/// Takes one step at the coordinator. NoCoordinator, NoPacket, or as the coordinator's call; then nothing has changed.
pub fn take_step(world: &mut World<Keeper>, at: u8, act: Act) -> Result<(), Refusal>
    ensures ok { Makes result world.old world.new (λ w v. WorldStep w (step_at at act) v) }
    ensures err { EnsuresErr result world.old (λ w refusal. refusal ≡ refusal_of w (step_at at act)) }
    ensures unchanged { OnErr result (world.new ≡ world.old) }
{
    match world.step(&Step { at, by: 0, act }) {
        Ok(_) => Ok(()),
        Err(refusal) => Err(refusal),
    }
}

/// A packet that a coordinator would cut, not given yet, and its line.
#[derive(Drop)]
pub(crate) struct PreparedCut {
    pub(crate) packet: Shared<Packet>,
    pub(crate) line: Vec<u8>,
}

/// The packet that the coordinator would cut of the range now, with its line. Refused as the cut would be, and also if
/// there is no memory for the line.
pub(crate) fn prepare_cut(
    alloc: Global,
    world: &World<Keeper>,
    at: u8,
    range: Range,
) -> Result<PreparedCut, Refusal>
    ensures packet { IfOk result
        (λ made. IfSome (state_with world.now.coordinators at) (λ s. made.packet ≡ cut_packet s range)) }
    ensures line { (w : WorldOfSets) → WorldRepresents world.now w
        → IfOk result (λ made. IsCutLine w at range made.line.items) }
    ensures accepted { (w : WorldOfSets) → WorldRepresents world.now w
        → OnOk result (cause_of w (step_at at (act.Cut range)) ≡ None) }
    ensures err { EnsuresErr result world.now (λ w refusal. refusal ≡ refusal_of w (step_at at (act.Cut range))) }
{
    let Some(coordinator) = world.numbered(at) else {
        return Err(Refusal::NoCoordinator);
    };
    let packet = coordinator.packet_for(range)?;
    let line = packet_line(alloc, packet.get())?.into_bytes();
    Ok(PreparedCut { packet, line })
}

/// Has what the coordinator knows shared if all of it is to be cut, so that the packet copies no records.
pub(crate) fn share_for(world: &mut World<Keeper>, at: u8, range: Range)
    ensures { world.new ≡ world.old }
{
    if range == Range::Full {
        world.share_known(at);
    }
}

/// A cut at the coordinator; the text has the line of the packet, which is made once. Refused as the cut would be, and also if there is
/// no memory for the line; then nothing has changed.
pub(crate) fn cut(
    alloc: Global,
    world: &mut World<Keeper>,
    at: u8,
    range: Range,
) -> Result<Vec<u8>, Refusal>
    ensures ok { (w : WorldOfSets) → WorldRepresents world.old w
        → IfOk result (λ text. (v : WorldOfSets) × Cuts w at range text.items v × WorldRepresents world.new v) }
    ensures err { EnsuresErr result world.old (λ w refusal. refusal ≡ refusal_of w (step_at at (act.Cut range))) }
    ensures unchanged { OnErr result (world.new ≡ world.old) }
{
    share_for(world, at, range);
    prepared_cut(alloc, world, at, range)
}

// The cut, of a packet that shares its records or does not.
fn prepared_cut(
    alloc: Global,
    world: &mut World<Keeper>,
    at: u8,
    range: Range,
) -> Result<Vec<u8>, Refusal>
    ensures ok { (w : WorldOfSets) → WorldRepresents world.old w
        → IfOk result (λ text. (v : WorldOfSets) × Cuts w at range text.items v × WorldRepresents world.new v) }
    ensures err { EnsuresErr result world.old (λ w refusal. refusal ≡ refusal_of w (step_at at (act.Cut range))) }
    ensures unchanged { OnErr result (world.new ≡ world.old) }
{
    let prepared = prepare_cut(alloc, world, at, range)?;
    world.give(at, 0, range, prepared.packet)?;
    Ok(prepared.line)
}

/// A round at the coordinator: its share of the plan of a least flow of its network is committed, or the relief of the machines that it
/// knows. The text has admission's answer to each entry of that, and is made of the decision that is then carried out. The history gets
/// one entry, since there is no view. NoCoordinator, HistoryFull, OutOfMemory; then nothing has changed. The cost is that of
/// `World::refresh_tally`, of `least_plan_of` and `part_of` or of `relief_plan`, and of admitting the entries by the tally.
pub(crate) fn round(
    alloc: Global,
    world: &mut World<Keeper>,
    at: u8,
    kind: &RoundKind,
) -> Result<Vec<u8>, Refusal>
    ensures ok { (w : WorldOfSets) → WorldRepresents world.old w
        → IfOk result (λ text. (v : WorldOfSets) × StreamRoundStep w at kind.now text.items v × WorldRepresents world.new v) }
    ensures err { EnsuresErr result world.old (λ w refusal. refusal ≡ refusal_of w (step_at at act.View)) }
    ensures unchanged { OnErr result (world.new ≡ world.old) }
{
    world.refresh_tally(at);
    planned_round(alloc, world, at, kind)
}

// The round, with the tally or without.
fn planned_round(
    alloc: Global,
    world: &mut World<Keeper>,
    at: u8,
    kind: &RoundKind,
) -> Result<Vec<u8>, Refusal>
    ensures ok { (w : WorldOfSets) → WorldRepresents world.old w
        → IfOk result (λ text. (v : WorldOfSets) × StreamRoundStep w at kind.now text.items v × WorldRepresents world.new v) }
    ensures err { EnsuresErr result world.old (λ w refusal. refusal ≡ refusal_of w (step_at at act.View)) }
    ensures unchanged { OnErr result (world.new ≡ world.old) }
{
    let Some(coordinator) = world.numbered(at) else {
        return Err(Refusal::NoCoordinator);
    };
    coordinator.check_room()?;
    let plan = plan_for(alloc, coordinator, kind)?;
    let decision = coordinator.decide(plan)?;
    let text = round_text(alloc, &decision.plan, decision.admitted.get())?.into_bytes();
    let _admitted = world.accept(at, 0, decision)?;
    Ok(text)
}

// What the coordinator's round commits.
fn plan_for(
    alloc: Global,
    coordinator: &Coordinator<Keeper>,
    kind: &RoundKind,
) -> Result<Plan, Refusal>
    ensures ok { IfOk result (IsRoundPlan coordinator.now.state.knowledge kind.now) }
    ensures err { IsOkUnless result Refusal.OutOfMemory }
{
    match kind {
        RoundKind::Share(share) => part_for(alloc, coordinator, share),
        RoundKind::Relief => Ok(relief_plan(alloc, coordinator.knowledge())?),
    }
}

/// The preempts of the relief of what is known. Refused only if memory runs out. It costs what `relief_of` does.
pub fn relief_plan(alloc: Global, knowledge: &Knowledge) -> Result<Plan, OutOfMemory>
    ensures { IfOk result (λ plan. plan ≡ plan_of_relief (relief_of knowledge.now)) }
{
    let relief = relief_of(alloc, knowledge)?;
    plan_of(alloc, &relief)
}

// The coordinator's share of the plan of a least flow.
fn part_for(
    alloc: Global,
    coordinator: &Coordinator<Keeper>,
    share: &Share,
) -> Result<Plan, Refusal>
    ensures ok { IfOk result (IsPartOf coordinator.now.state.knowledge share.now) }
    ensures err { IsOkUnless result Refusal.OutOfMemory }
{
    let plan = least_plan_of(alloc, coordinator)?;
    let part = part_of(alloc, coordinator.knowledge(), share, plan)?;
    Ok(part)
}
