//! How long rounds take that are planned from a tally: making the tally, planning, and committing the plan.

ghost use Rattle.std.specs.Prelude.{IfOk};
ghost use Rattle.fm_tally.specs.Tallies.{TallyIsFor};

use crate::cluster::{Cluster, Sizes};
use crate::draw::Draw;
use fm_know::knowledge::Knowledge;
use fm_planner::plan_source::{PlanSource, Planned, plan_for};
use fm_records::refusal::Refusal;
use fm_round::plan::Plan;
use fm_tally::tally::Tally;
use std::alloc::Global;
use std::time::Instant;

const ROUNDS: u32 = 6;

// How many tasks of a burst come at once, and how many bursts there are.
const BURST: u32 = 10_000;

const BURSTS: u32 = 3;

// How many tasks change between two rounds.
const CHANGES: u32 = 100;

// The most machines: those of the cluster that Firmament was measured on.
const MACHINES: u32 = 12_500;

fn sizes_of(tasks: u32, preferring: u32) -> Sizes {
    Sizes {
        jobs: (tasks / 50).max(1),
        machines: (tasks / 10).clamp(1, MACHINES),
        tasks,
        requests: 50,
        wait: 20_000,
        preferring,
    }
}

// The functions below hold one value each if they may be refused: a proof looks at what is dropped at each refusal.

fn tally_of(alloc: Global, known: &Knowledge) -> Result<Tally, Refusal>
    ensures { IfOk result (TallyIsFor known.now) }
{
    Ok(Tally::of(alloc, known)?)
}

fn planned_of(alloc: Global, tally: &Tally, known: &Knowledge) -> Result<Planned, Refusal>
    requires { TallyIsFor known.now tally.now }
{
    Ok(plan_for(alloc, tally, known)?)
}

// The tally, and how many microseconds it took.
fn tallied(rt: &HostRuntime, known: &Knowledge) -> Result<(Tally, u128), anyhow::Error>
    ensures { IfOk result (λ found. TallyIsFor known.now found.0) }
{
    let begun = Instant::now(rt)?;
    let tally = tally_of(rt.alloc(), known)?;
    let took = begun.elapsed(rt)?.as_micros();
    Ok((tally, took))
}

// The plan, and how many microseconds it took.
fn planned(
    rt: &HostRuntime,
    tally: &Tally,
    known: &Knowledge,
) -> Result<(Planned, u128), anyhow::Error>
    requires { TallyIsFor known.now tally.now }
{
    let begun = Instant::now(rt)?;
    let planned = planned_of(rt.alloc(), tally, known)?;
    let took = begun.elapsed(rt)?.as_micros();
    Ok((planned, took))
}

// How many microseconds committing the plan took.
fn committed(rt: &HostRuntime, cluster: &mut Cluster, plan: &Plan) -> Result<u128, anyhow::Error> {
    let begun = Instant::now(rt)?;
    cluster.commit(plan)?;
    Ok(begun.elapsed(rt)?.as_micros())
}

// What a round was planned from, and how many microseconds its parts took.
#[derive(Drop)]
struct Round {
    plan: Plan,
    source: PlanSource,
    tallied: u128,
    planned: u128,
}

fn timed(rt: &HostRuntime, known: &Knowledge) -> Result<Round, anyhow::Error> {
    let (tally, tallied) = tallied(rt, known)?;
    let (found, planned) = planned(rt, &tally, known)?;
    let Planned { plan, source } = found;
    Ok(Round {
        plan,
        source,
        tallied,
        planned,
    })
}

fn print_round(rt: &HostRuntime, number: u32, cluster: &mut Cluster) -> Result<(), anyhow::Error> {
    let round = timed(rt, &cluster.known)?;
    let committed = committed(rt, cluster, &round.plan)?;
    let (tallied, planned) = (round.tallied, round.planned);
    let (places, source) = (round.plan.places.as_slice().len(), round.source);
    println!(rt;
        "round {number}: {places} places, tally {tallied} us, plan {planned} us from {source:?}, commit {committed} us"
    )?;
    Ok(())
}

fn print_rounds(rt: &HostRuntime, tasks: u32, preferring: u32) -> Result<(), anyhow::Error> {
    let mut draw = Draw::new(u64::from(tasks));
    let sizes = sizes_of(tasks, preferring);
    let machines = sizes.machines;
    let mut cluster = Cluster::new(rt.alloc(), &mut draw, sizes)?;
    println!(rt; "{tasks} tasks on {machines} machines, {preferring} in a hundred prefer some")?;
    for number in 0..=ROUNDS {
        print_round(rt, number, &mut cluster)?;
        cluster.change(&mut draw, CHANGES)?;
    }
    Ok(())
}

// Rounds of a cluster in which so many tasks without preferences were placed, and then many come at once.
fn print_bursts_of(rt: &HostRuntime, tasks: u32, preferring: u32) -> Result<(), anyhow::Error> {
    let mut draw = Draw::new(u64::from(tasks));
    let sizes = sizes_of(tasks, 0);
    let machines = sizes.machines;
    let mut cluster = Cluster::new(rt.alloc(), &mut draw, sizes)?;
    println!(rt;
        "{BURST} tasks come to {tasks} on {machines} machines, {preferring} in a hundred prefer some"
    )?;
    print_round(rt, 0, &mut cluster)?;
    cluster.prefer_in(preferring);
    for number in 1..=BURSTS {
        for _ in 0..BURST {
            cluster.add_task(&mut draw)?;
        }
        print_round(rt, number, &mut cluster)?;
    }
    Ok(())
}

/// Prints how long rounds take in which many tasks wait: if none of these prefers machines, if one in five does, and if all do.
pub(crate) fn print_bursts(rt: &HostRuntime, tasks: u32) -> Result<(), anyhow::Error> {
    for preferring in [0, 20, 100] {
        print_bursts_of(rt, tasks, preferring)?;
    }
    Ok(())
}

/// Prints how long rounds of a cluster of so many tasks take, the first of all tasks and each other one after 100 changes: if no task
/// prefers machines, if one in twenty does, and if one in five does.
pub(crate) fn print(rt: &HostRuntime, tasks: u32) -> Result<(), anyhow::Error> {
    for preferring in [0, 5, 20] {
        print_rounds(rt, tasks, preferring)?;
    }
    Ok(())
}
