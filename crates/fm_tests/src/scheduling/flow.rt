//! Small networks, and drawn ones: the first flow is least, and cancelling from all tasks unscheduled ends at its cost.

ghost use Rattle.std.specs.Prelude.{IsTrue, IfOk};
ghost use Rattle.fm_indexed.specs.Feasible.{IsFlowOf};
ghost use Rattle.fm_indexed.specs.Unscheduled.{all_unscheduled};

use crate::samples::small_cluster;
use crate::scheduling::networks::{Laid, lay, network_of};
use crate::told::known;
use fm_certificate::cost::cost;
use fm_cycles::cycle_search::search;
use fm_flow::solve::{solve, solve_from};
use fm_heuristics::first::first_flow;
use fm_heuristics::resumed::resume;
use fm_heuristics::searched::{searched, searched_within};
use fm_indexed::feasible_units::is_feasible;
use fm_indexed::improved::improved;
use fm_indexed::indexed_network::IndexedNetwork;
use fm_indexed::unscheduled::unscheduled;
use fm_know::knowledge::Knowledge;
use fm_know::laws::law_can_be;
use fm_lattice::join::OutOfMemory;
use fm_net::network::Network;
use fm_net::node::Node;
use fm_policy::build::build;
use fm_records::ids::{JobId, MachineId, TaskId};
use fm_records::refusal::Refusal;
use std::alloc::Global;
use std::test::Fail;

// A job with its live tasks.
fn job(job: u128, live: u64) -> Laid {
    (Node::Unscheduled(JobId::new(job)), Node::Sink, live, 0)
}

// A machine with its slots.
fn machine(machine: u128, slots: u64) -> Laid {
    (Node::Machine(MachineId::new(machine)), Node::Sink, slots, 0)
}

// A request with room for some tasks on a machine with a load.
fn room(request: u16, machine: u128, fits: u64, load: u16) -> Laid {
    let request = u32::from(request);
    let cost = request + u32::from(load);
    let machine = Node::Machine(MachineId::new(machine));
    (Node::Request(request), machine, fits, cost)
}

// A task's arc to its job.
fn waits(task: u128, job: u128, cost: u16) -> Laid {
    let job = Node::Unscheduled(JobId::new(job));
    (Node::Task(TaskId::new(task)), job, 1, u32::from(cost))
}

// A task's arc to its request.
fn asks(task: u128, request: u16) -> Laid {
    let request = Node::Request(u32::from(request));
    (Node::Task(TaskId::new(task)), request, 1, 0)
}

// A task's arc to a machine that it prefers, or that holds it.
fn goes(task: u128, machine: u128, cost: u16) -> Laid {
    let machine = Node::Machine(MachineId::new(machine));
    (Node::Task(TaskId::new(task)), machine, 1, u32::from(cost))
}

// A task's arc to the machine that holds it.
fn held(task: u128, machine: u128) -> Laid {
    goes(task, machine, 0)
}

// What the units cost.
fn total(numbered: &IndexedNetwork, units: &[u64]) -> u128 {
    let mut sum = 0u128;
    for (arc, sent) in numbered.arcs.iter().zip(units) {
        let part = u128::from(arc.cost).saturating_mul(u128::from(*sent));
        sum = sum.saturating_add(part);
    }
    sum
}

// Whether all tasks can be unscheduled.
fn can_wait(alloc: Global, numbered: &IndexedNetwork) -> Result<bool, OutOfMemory>
    ensures { IfOk result
        (λ can. IsTrue can
        → IsFlowOf numbered.now.places numbered.now.arcs.items
        (all_unscheduled numbered.now.places numbered.now.arcs.items)) }
{
    let units = unscheduled(alloc, numbered)?;
    let can = is_feasible(alloc, numbered, &units)?;
    Ok(can)
}

// Whether the search finds no cycle.
fn is_least(alloc: Global, numbered: &IndexedNetwork, units: &[u64]) -> Result<bool, OutOfMemory> {
    let nodes = numbered.places.end;
    let first = vec![in alloc; 0i128; nodes]?;
    let searched = search(alloc, nodes, &numbered.arcs, units, first)?;
    Ok(searched.cycles.is_empty())
}

// What the first flow costs, if it is a least flow.
fn started(alloc: Global, network: &Network) -> Result<Option<u128>, OutOfMemory> {
    let numbered = IndexedNetwork::of(alloc, network)?;
    if !can_wait(alloc, &numbered)? {
        return Ok(None);
    }
    let (units, _potentials) = first_flow(alloc, &numbered)?;
    let is_least = is_least(alloc, &numbered, &units)?;
    Ok(is_least.then_some(total(&numbered, &units)))
}

// What the flow costs that cancelling makes of all tasks unscheduled.
fn cancelled(alloc: Global, network: &Network) -> Result<Option<u128>, OutOfMemory> {
    let numbered = IndexedNetwork::of(alloc, network)?;
    let units = unscheduled(alloc, &numbered)?;
    if !is_feasible(alloc, &numbered, &units)? {
        return Ok(None);
    }
    let first = vec![in alloc; 0i128; numbered.places.end]?;
    let (units, _) = improved(alloc, &numbered, units, first)?;
    Ok(Some(total(&numbered, &units)))
}

// What the flow costs that cancelling makes of the first one.
fn improved_first(alloc: Global, network: &Network) -> Result<Option<u128>, OutOfMemory> {
    let numbered = IndexedNetwork::of(alloc, network)?;
    if !can_wait(alloc, &numbered)? {
        return Ok(None);
    }
    let (units, costs) = first_flow(alloc, &numbered)?;
    let (units, _) = improved(alloc, &numbered, units, costs)?;
    Ok(Some(total(&numbered, &units)))
}

// Whether the first flow is least, and costs so much, as what cancelling makes of all tasks unscheduled does.
fn both_cost(alloc: Global, network: &Network, want: u128) -> Result<bool, OutOfMemory> {
    let first = started(alloc, network)?;
    Ok(first == Some(want) && first == cancelled(alloc, network)?)
}

// One waiting task that asks for so much, and one machine with room for it, or none: a load, or no room.
fn one_task(request: u16, wait: u16, load: Option<u16>) -> [Laid; 5] {
    let (fits, load) = match load {
        Some(load) => (2, load),
        None => (0, 0),
    };
    [
        job(1, 1),
        machine(10, 2),
        waits(17, 1, wait),
        asks(17, request),
        room(request, 10, fits, load),
    ]
}

// A task that its machine holds.
fn one_held() -> [Laid; 4] {
    [job(1, 1), machine(10, 2), waits(17, 1, 800), held(17, 10)]
}

// A task that asks for nothing waits for the only slot, whose task is cheap to preempt.
fn contended() -> [Laid; 7] {
    [
        job(1, 2),
        machine(10, 1),
        waits(17, 1, 80),
        held(17, 10),
        waits(18, 1, 500),
        asks(18, 0),
        room(0, 10, 1, 100),
    ]
}

// Two requests on one machine.
fn two_requests() -> [Laid; 8] {
    [
        job(1, 2),
        machine(10, 2),
        waits(17, 1, 700),
        asks(17, 600),
        waits(18, 1, 700),
        asks(18, 500),
        room(600, 10, 1, 0),
        room(500, 10, 2, 0),
    ]
}

// The smaller request comes first to the cheap machine, and moves to the dearer for the greater one.
fn moved_aside() -> [Laid; 10] {
    [
        job(1, 2),
        machine(10, 1),
        machine(11, 1),
        waits(17, 1, 900),
        asks(17, 100),
        waits(18, 1, 800),
        asks(18, 200),
        room(100, 10, 1, 0),
        room(100, 11, 1, 30),
        room(200, 10, 1, 0),
    ]
}

// The next drawn number, below 100.
fn draw(seed: &mut u64) -> u16 {
    *seed = seed
        .wrapping_mul(6_364_136_223_846_793_005)
        .wrapping_add(1_442_695_040_888_963_407);
    ((*seed >> 33) % 100) as u16
}

// The arcs of three requests to a machine of drawn load and slots.
fn drawn_machine(network: &mut Network, seed: &mut u64, number: u128) -> Result<(), OutOfMemory> {
    let slots = u64::from(draw(seed) % 5 + 1);
    let load = draw(seed);
    lay(network, &machine(number, slots))?;
    for request in [0, 20, 50] {
        let fits = u64::from(draw(seed) % 6);
        lay(network, &room(request, number, fits.min(slots), load))?;
    }
    Ok(())
}

// A task of a drawn job, which waits or is held.
fn drawn_task(network: &mut Network, seed: &mut u64, number: u128) -> Result<(), OutOfMemory> {
    let job = u128::from(draw(seed) % 3);
    lay(network, &waits(number, job, draw(seed).wrapping_mul(2)))?;
    let goes = match draw(seed) {
        0..20 => held(number, u128::from(draw(seed) % 8)),
        20..40 => asks(number, 0),
        40..70 => asks(number, 20),
        _ => asks(number, 50),
    };
    lay(network, &goes)
}

// A network of three jobs, and of so many machines and tasks.
fn drawn(alloc: Global, first: u64, machines: u64, tasks: u64) -> Result<Network, OutOfMemory> {
    let mut network = Network::new(alloc)?;
    let mut seed = first;
    for number in 0..3u64 {
        lay(&mut network, &job(u128::from(number), tasks))?;
    }
    for number in 0..machines {
        drawn_machine(&mut network, &mut seed, u128::from(number))?;
    }
    for number in 0..tasks {
        drawn_task(&mut network, &mut seed, u128::from(number))?;
    }
    Ok(network)
}

// Whether both ways end at this cost.
fn is_solved(alloc: Global, arcs: &[Laid], want: u128) -> Result<bool, OutOfMemory> {
    let network = network_of(alloc, arcs)?;
    both_cost(alloc, &network, want)
}

#[test]
fn small_networks_are_solved(rt: HostRuntime) {
    assert_eq!(rt; is_solved(rt.alloc(), &[], 0), Ok(true));
    assert_eq!(rt; is_solved(rt.alloc(), &one_held(), 0), Ok(true));
    for (request, wait, load, want) in [
        (100, 500, Some(0), 100),
        (100, 100, Some(0), 100),
        (100, 500, None, 500),
        (0, 500, Some(40), 40),
    ] {
        let arcs = one_task(request, wait, load);
        assert_eq!(rt; is_solved(rt.alloc(), &arcs, want), Ok(true));
    }
}

#[test]
fn contended_slots_are_solved(rt: HostRuntime) {
    assert_eq!(rt; is_solved(rt.alloc(), &contended(), 180), Ok(true));
    assert_eq!(rt; is_solved(rt.alloc(), &two_requests(), 1100), Ok(true));
    assert_eq!(rt; is_solved(rt.alloc(), &moved_aside(), 330), Ok(true));
}

// Whether what cancelling makes of the first flow of a drawn network costs what it makes of all tasks unscheduled.
fn is_improved(alloc: Global, seed: u64) -> Result<bool, OutOfMemory> {
    let network = drawn(alloc, seed, 8, 40)?;
    let cost = improved_first(alloc, &network)?;
    Ok(cost.is_some() && cost == cancelled(alloc, &network)?)
}

#[test]
fn drawn_networks_are_solved(rt: HostRuntime) {
    for seed in 1..=12u64 {
        assert_eq!(rt; is_improved(rt.alloc(), seed), Ok(true));
    }
}

// What a machine of a network of the policy has: its load, its slots, and its spare bandwidth, if that is not below 0.
fn machine_drawn(first: u64, number: u64) -> (u16, u64, Option<u16>) {
    let mut seed = first.wrapping_mul(1_000_003).wrapping_add(number);
    let _ = draw(&mut seed);
    let slots = u64::from(draw(&mut seed) % 4 + 1);
    let load = draw(&mut seed) / 4;
    let spare = draw(&mut seed);
    (load, slots, (spare % 10 > 0).then_some(spare))
}

// Its arcs, from three requests as far as it has room for them.
fn lay_machine(network: &mut Network, first: u64, number: u64) -> Result<(), OutOfMemory> {
    let (load, slots, spare) = machine_drawn(first, number);
    lay(network, &machine(u128::from(number), slots))?;
    for request in [0u16, 20, 50] {
        if spare.is_some_and(|spare| spare >= request) {
            let most = spare.unwrap_or(0).checked_div(request);
            let fits = most.map_or(slots, u64::from).min(slots);
            lay(network, &room(request, u128::from(number), fits, load))?;
        }
    }
    Ok(())
}

// A task that waits for the request, and may prefer up to three machines.
fn lay_waiting(
    network: &mut Network,
    first: u64,
    machines: u64,
    number: u128,
    seed: &mut u64,
) -> Result<(), OutOfMemory> {
    let request = [0u16, 20, 50, 50][usize::from(draw(seed) % 4)];
    lay(
        network,
        &waits(
            number,
            u128::from(draw(seed) % 3),
            draw(seed).wrapping_mul(2),
        ),
    )?;
    lay(network, &asks(number, request))?;
    for _ in 0..draw(seed) % 4 {
        let machine = u64::from(draw(seed)) % machines.max(1);
        let (load, _, spare) = machine_drawn(first, machine);
        if spare.is_some_and(|spare| spare >= request) {
            let whole = request.saturating_add(load);
            let cost = whole.saturating_sub(draw(seed));
            lay(network, &goes(number, u128::from(machine), cost))?;
        }
    }
    Ok(())
}

// A network as the policy builds it, with held and waiting tasks.
fn drawn_of_policy(
    alloc: Global,
    first: u64,
    machines: u64,
    tasks: u64,
) -> Result<Network, OutOfMemory> {
    let mut network = Network::new(alloc)?;
    let mut seed = first;
    for number in 0..3u64 {
        lay(&mut network, &job(u128::from(number), tasks))?;
    }
    for number in 0..machines {
        lay_machine(&mut network, first, number)?;
    }
    for number in 0..tasks {
        let task = u128::from(number);
        if draw(&mut seed) < 30 {
            let machine = u128::from(u64::from(draw(&mut seed)) % machines.max(1));
            lay(
                &mut network,
                &waits(task, u128::from(draw(&mut seed) % 3), draw(&mut seed)),
            )?;
            lay(&mut network, &held(task, machine))?;
        } else {
            lay_waiting(&mut network, first, machines, task, &mut seed)?;
        }
    }
    Ok(network)
}

// What the flow costs that the search ends at, if there is one and it is a least flow.
fn found(alloc: Global, network: &Network) -> Result<Option<u128>, OutOfMemory> {
    let numbered = IndexedNetwork::of(alloc, network)?;
    let Some((units, _costs)) = searched(alloc, &numbered)? else {
        return Ok(None);
    };
    let is_least = is_least(alloc, &numbered, &units)?;
    Ok(is_least.then_some(total(&numbered, &units)))
}

#[test]
fn no_cycle_is_found_after_the_first_flow(rt: HostRuntime) -> Result<(), Fail> {
    for seed in 1..=3u64 {
        let network = drawn_of_policy(rt.alloc(), seed, 60, 400)?;
        assert!(rt; started(rt.alloc(), &network)?.is_some());
    }
    Ok(())
}

// Whether the search ends at a least flow of a drawn network of the policy, which costs what cancelling comes to.
fn is_found(alloc: Global, seed: u64) -> Result<bool, OutOfMemory> {
    let network = drawn_of_policy(alloc, seed, 1 + seed % 9, 40)?;
    let cost = found(alloc, &network)?;
    Ok(cost.is_some() && cost == cancelled(alloc, &network)?)
}

#[test]
fn the_search_ends_at_a_least_flow(rt: HostRuntime) -> Result<(), Fail> {
    for seed in 1..=60u64 {
        assert_eq!(rt; is_found(rt.alloc(), seed), Ok(true));
    }
    let short = chained(rt.alloc(), 1)?;
    assert_eq!(rt; found(rt.alloc(), &short), Ok(Some(3)));
    let chain = chained(rt.alloc(), 40)?;
    assert_eq!(rt; found(rt.alloc(), &chain), Ok(Some(81)));
    let contended = network_of(rt.alloc(), &contended())?;
    assert_eq!(rt; found(rt.alloc(), &contended), Ok(Some(180)));
    Ok(())
}

// Whether the search ends if it looks at no more than so many nodes for each task, machine and request of the network.
fn ends_within(alloc: Global, network: &Network, most: usize) -> Result<bool, OutOfMemory> {
    let numbered = IndexedNetwork::of(alloc, network)?;
    let found = searched_within(alloc, &numbered, most)?;
    Ok(found.is_some())
}

#[test]
fn the_search_looks_at_few_nodes_and_gives_up_at_more(rt: HostRuntime) -> Result<(), Fail> {
    for seed in 1..=6u64 {
        let network = drawn_of_policy(rt.alloc(), seed, 40, 400)?;
        assert_eq!(rt; ends_within(rt.alloc(), &network, 8), Ok(true));
        assert_eq!(rt; ends_within(rt.alloc(), &network, 0), Ok(false));
    }
    Ok(())
}

// A machine at another load for the greater request.
fn of_two_loads() -> [Laid; 8] {
    [
        job(1, 2),
        machine(10, 2),
        waits(17, 1, 700),
        asks(17, 20),
        waits(18, 1, 700),
        asks(18, 50),
        room(20, 10, 2, 5),
        room(50, 10, 1, 6),
    ]
}

#[test]
fn a_network_that_no_policy_builds_is_left_to_the_search_for_cycles(
    rt: HostRuntime,
) -> Result<(), Fail> {
    let network = network_of(rt.alloc(), &of_two_loads())?;
    assert_eq!(rt; found(rt.alloc(), &network), Ok(None));
    assert_eq!(rt; improved_first(rt.alloc(), &network), Ok(Some(81)));
    assert_eq!(rt; cancelled(rt.alloc(), &network), Ok(Some(81)));
    Ok(())
}

// A chain of so many machines of one slot, the last beside them, and ids in another order: a task of each prefers it
// and, for one more, the next one, and one task more prefers the first.
fn chained(alloc: Global, machines: u16) -> Result<Network, OutOfMemory> {
    let mut network = Network::new(alloc)?;
    let end = u128::from(machines) + 1;
    lay(&mut network, &job(1, 1000))?;
    for number in 0..end {
        let id = number.wrapping_mul(23) % end;
        lay(&mut network, &machine(id, 1))?;
        lay(&mut network, &room(500, id, 1, 0))?;
    }
    for number in 0..end {
        let id = number.wrapping_mul(17) % end;
        lay(&mut network, &waits(id, 1, 9000))?;
        lay(&mut network, &asks(id, 500))?;
        let first = number.saturating_sub(1);
        lay(&mut network, &goes(id, first.wrapping_mul(23) % end, 1))?;
        if number > 0 {
            lay(&mut network, &goes(id, number.wrapping_mul(23) % end, 2))?;
        }
    }
    Ok(network)
}

// Whether an earlier flow that is least is kept as it is, and one of other units comes to no other cost.
fn is_taken_over(alloc: Global, network: &Network) -> Result<bool, OutOfMemory> {
    let numbered = IndexedNetwork::of(alloc, network)?;
    if !can_wait(alloc, &numbered)? {
        return Ok(false);
    }
    let (first, costs) = first_flow(alloc, &numbered)?;
    let (first, _) = improved(alloc, &numbered, first, costs)?;
    let strange = vec![in alloc; 1u64; numbered.arcs.len()]?;
    if let Some((other, _)) = resume(alloc, &numbered, &strange)? {
        if total(&numbered, &other) != total(&numbered, &first) {
            return Ok(false);
        }
    }
    match resume(alloc, &numbered, &first)? {
        Some((kept, _)) => Ok(kept.as_slice() == first.as_slice()),
        None => Ok(false),
    }
}

#[test]
fn earlier_flows_are_taken_over(rt: HostRuntime) -> Result<(), Fail> {
    for seed in 1..=6u64 {
        let network = drawn(rt.alloc(), seed, 60, 40)?;
        assert!(rt; is_taken_over(rt.alloc(), &network)?);
    }
    Ok(())
}

// Whether a flow that places few of the tasks is taken over.
fn is_resumed(alloc: Global) -> Result<bool, OutOfMemory> {
    let network = drawn(alloc, 1, 60, 40)?;
    let numbered = IndexedNetwork::of(alloc, &network)?;
    let none = vec![in alloc; 0u64; numbered.arcs.len()]?;
    Ok(resume(alloc, &numbered, &none)?.is_some())
}

#[test]
fn a_flow_of_few_tasks_is_not_taken_over(rt: HostRuntime) {
    assert_eq!(rt; is_resumed(rt.alloc()), Ok(false));
}

// What a solution of the network of what is known costs that starts from another one.
fn cost_again(alloc: Global, known: &Knowledge) -> Result<u128, Refusal> {
    law_can_be(known);
    let network = build(alloc, known)?;
    let (earlier, _potentials) = solve(alloc, &network)?;
    let (flow, _potentials) = solve_from(alloc, &network, &earlier)?;
    Ok(cost(&network, &flow))
}

fn cost_of_one(alloc: Global) -> Result<u128, Refusal> {
    let known = known(alloc, &small_cluster())?;
    cost_again(alloc, &known)
}

#[test]
fn a_flow_is_solved_from_an_earlier_one(rt: HostRuntime) {
    assert_eq!(rt; cost_of_one(rt.alloc()), Ok(100));
}
