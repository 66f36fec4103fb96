//! Rounds of drawn clusters: what is planned costs what a least flow does.

use crate::cluster::{Cluster, Sizes};
use crate::corners::{Corners, Kind};
use crate::draw::Draw;
use crate::solving::{anew, network_of, searched_cost};
use fm_know::knowledge::Knowledge;
use fm_lattice::join::OutOfMemory;
use fm_planner::plan_source::{PlanSource, Planned, plan_for};
use fm_records::ids::{MachineId, TaskId};
use fm_records::prefer::Prefer;
use fm_records::refusal::Refusal;
use fm_round::plan::Plan;
use fm_tally::sorted::Sorted;
use fm_tally::tally::{LiveTask, Tally};
use std::alloc::Global;

const CLUSTERS: u32 = 500;

const LARGE_CLUSTERS: u32 = 25;

const ROUNDS: u32 = 3;

// How many machines a chain has.
const CHAINED: u32 = 400;

// As many sizes of requests, and machines, as make too many pairs for a plan from the tally: more than 2^26.
const MANY_SIZES: u32 = 8193;

// What rounds came to: how many there were, how many plans were made from the network, how many cost more or less than a least flow, and of
// how many networks the solver's search found no least flow.
#[derive(Clone, Copy, Drop)]
struct Counts {
    rounds: u32,
    from_network: u32,
    wrong: u32,
    missed: u32,
}

// How a plan was made, whether it costs what a least flow does, and whether the solver's search found no least flow of the network.
#[derive(Clone, Copy, Drop)]
struct Outcome {
    source: PlanSource,
    is_least: bool,
    is_missed: bool,
}

// What a task costs that is placed on the machine.
fn placed(
    known: &Knowledge,
    tally: &Tally,
    task: TaskId,
    live: LiveTask,
    machine: MachineId,
) -> u128 {
    let Some(open) = tally.machines.get(&machine) else {
        return u128::MAX;
    };
    let credit = match known.live_spec(task) {
        Some(spec) => spec.prefer.credit(machine).unwrap_or(0),
        None => 0,
    };
    let asked = u128::from(live.request).saturating_add(open.load);
    asked.saturating_sub(u128::from(credit))
}

// Where the plan places tasks.
fn places_of(alloc: Global, plan: &Plan) -> Result<Sorted<TaskId, MachineId>, OutOfMemory> {
    let mut places = Sorted::new(alloc);
    for place in plan.places.as_slice() {
        places.put(place.task, place.machine)?;
    }
    Ok(places)
}

// Which tasks the plan preempts.
fn stopped_by(alloc: Global, plan: &Plan) -> Result<Sorted<TaskId, ()>, OutOfMemory> {
    let mut stopped = Sorted::new(alloc);
    for preempt in plan.preempts.as_slice() {
        stopped.put(preempt.task, ())?;
    }
    Ok(stopped)
}

// What the flow of the plan costs: each task that waits or is preempted costs its price, each that is placed what its place does.
fn cost_of(
    alloc: Global,
    known: &Knowledge,
    tally: &Tally,
    plan: &Plan,
) -> Result<u128, OutOfMemory> {
    let places = places_of(alloc, plan)?;
    let stopped = stopped_by(alloc, plan)?;
    let mut cost = 0u128;
    for (task, live) in tally.tasks.pairs() {
        let price = u128::from(live.price);
        let own = match (live.holder, places.get(task)) {
            (None, Some(machine)) => placed(known, tally, *task, *live, machine),
            (None, None) => price,
            (Some(_), _) if stopped.get(task).is_some() => price,
            (Some(_), _) => 0,
        };
        cost = cost.saturating_add(own);
    }
    Ok(cost)
}

// What a least flow of the network of what is known costs, and whether the search finds none.
fn least(alloc: Global, known: &Knowledge) -> Result<(u128, bool), Refusal> {
    let network = network_of(alloc, known)?;
    let (_, cost) = anew(alloc, &network)?;
    let found = searched_cost(alloc, &network)?;
    Ok((cost, found != Some(cost)))
}

// The plan of what is known, and what it comes to.
fn planned(alloc: Global, known: &Knowledge) -> Result<(Planned, Outcome), Refusal> {
    let tally = Tally::of(alloc, known)?;
    let planned = plan_for(alloc, &tally, known)?;
    let own = cost_of(alloc, known, &tally, &planned.plan)?;
    let (cost, is_missed) = least(alloc, known)?;
    let outcome = Outcome {
        source: planned.source,
        is_least: own == cost,
        is_missed,
    };
    Ok((planned, outcome))
}

impl Counts {
    fn none() -> Counts {
        Counts {
            rounds: 0,
            from_network: 0,
            wrong: 0,
            missed: 0,
        }
    }

    fn count(&mut self, outcome: Outcome) {
        self.rounds = self.rounds.saturating_add(1);
        let is_network = outcome.source == PlanSource::Network;
        self.from_network = self.from_network.saturating_add(u32::from(is_network));
        self.wrong = self.wrong.saturating_add(u32::from(!outcome.is_least));
        self.missed = self.missed.saturating_add(u32::from(outcome.is_missed));
    }
}

// Rounds of the cluster of a seed, with changes in between.
fn round_cluster(alloc: Global, seed: u32, kind: Kind, counts: &mut Counts) -> Result<(), Refusal> {
    let mut draw = Draw::new(u64::from(seed));
    let mut corners = Corners::new(alloc, &mut draw, kind)?;
    for _ in 0..ROUNDS {
        let (planned, outcome) = planned(alloc, &corners.cluster.known)?;
        counts.count(outcome);
        corners.commit(&planned.plan)?;
        corners.change(&mut draw)?;
    }
    Ok(())
}

// The same of so many clusters.
fn counted(alloc: Global, clusters: u32, kind: Kind) -> Result<Counts, Refusal> {
    let mut counts = Counts::none();
    for seed in 0..clusters {
        round_cluster(alloc, seed, kind, &mut counts)?;
    }
    Ok(counts)
}

// Of small clusters.
fn of_small(alloc: Global, is_preferring: bool) -> Result<Counts, Refusal> {
    let kind = Kind {
        machines: 7,
        tasks: 25,
        is_preferring,
    };
    counted(alloc, CLUSTERS, kind)
}

// Of larger ones, in which tasks may prefer machines.
fn of_large(alloc: Global) -> Result<Counts, Refusal> {
    let kind = Kind {
        machines: 60,
        tasks: 250,
        is_preferring: true,
    };
    counted(alloc, LARGE_CLUSTERS, kind)
}

// So many machines without bandwidth, and as many tasks that wait, each of another size: so the network has few arcs, but there are too
// many pairs of a request and a machine for a plan from the tally.
fn scattered_sizes(alloc: Global, count: u32) -> Result<Cluster, Refusal> {
    let sizes = Sizes {
        jobs: 1,
        machines: count,
        tasks: 0,
        requests: count,
        wait: 100,
        preferring: 0,
    };
    let mut cluster = Cluster::empty(alloc, sizes);
    cluster.tell_job(0, 100, 200)?;
    for number in 0..count {
        cluster.tell_machine(number, true, 10, 0)?;
        cluster.tell_task(0, number.saturating_add(1), Prefer::default())?;
    }
    Ok(cluster)
}

// What a round of the cluster comes to.
fn round_once(alloc: Global, cluster: &Cluster) -> Result<Counts, Refusal> {
    let mut counts = Counts::none();
    let (_planned, outcome) = planned(alloc, &cluster.known)?;
    counts.count(outcome);
    Ok(counts)
}

// What a round of a chain of so many machines comes to.
fn of_chain(alloc: Global, machines: u32) -> Result<Counts, Refusal> {
    let cluster = Cluster::chained(alloc, machines)?;
    round_once(alloc, &cluster)
}

// What a round comes to with so many sizes of requests and as many machines.
fn of_sizes(alloc: Global, count: u32) -> Result<Counts, Refusal> {
    let cluster = scattered_sizes(alloc, count)?;
    round_once(alloc, &cluster)
}

fn say(rt: &HostRuntime, kind: &str, counts: Counts) -> Result<(), anyhow::Error> {
    let Counts {
        rounds,
        from_network,
        wrong,
        missed,
    } = counts;
    println!(rt;
        "rounds {kind}: {rounds}; {wrong} cost more or less than a least flow, {from_network} planned from the network, {missed} missed by the solver"
    )?;
    Ok(())
}

/// How many rounds there were, and what is wrong with them.
pub(crate) fn print(rt: &HostRuntime, alloc: Global) -> Result<(), anyhow::Error> {
    say(rt, "without preferences", of_small(alloc, false)?)?;
    say(rt, "with preferences", of_small(alloc, true)?)?;
    say(rt, "of larger clusters", of_large(alloc)?)?;
    say(rt, "of a chain", of_chain(alloc, CHAINED)?)
}

/// The same of a round with too many sizes of requests for a plan from the tally.
pub(crate) fn print_sizes(rt: &HostRuntime, alloc: Global) -> Result<(), anyhow::Error> {
    say(rt, "of many sizes", of_sizes(alloc, MANY_SIZES)?)
}
