//! Whether a claim holds, by complementary slackness: a search need not be trusted, and no network is built.
//!
//! It is a walk over the tasks, one over the moves, and one over the machines, with the requests at each. A task that
//! rests or moves must have no cheaper way, and only a machine without a free slot may cost more than its load. The
//! greatest offers of requests up to a size are worked out once. So a machine is compared with each request only if one
//! of these offers is beyond its price.

ghost use Rattle.std.specs.Prelude.{◌≡◌, ◌≤◌, ◌<◌, ◌+◌, ◌↔◌, ℕ, Some, None, IsTrue, IfOk, IfSome, OnOk};
ghost use Rattle.std.specs.Ordering.{nat_cmp};
ghost use Rattle.std.specs.BTreeMap.{get};
ghost use Rattle.fm_lattice.specs.Maps.{lookup};
ghost use Rattle.fm_policy.specs.Rooms.{fitting_tasks};
ghost use Rattle.fm_planner.specs.inner.Claims.{rise_of, offer_of};
ghost use Rattle.fm_planner.specs.inner.Slackness.{AllOf, IsFairTask, IsFairMove, IsFairMachine, IsFairOffer, IsTop, IsFairAtRest, IsPreferredFairly, IsNoCheaper, HasRoom, GoesStraight, own_cost, straight_cost, load_in, HasFairSlots, HasMoreRoom, Leaves, Asks, GoInTurn, IsNext, after_move, Passes};

use crate::claim::Claim;
use crate::move_counts::Counts;
use fm_know::knowledge::Knowledge;
use fm_lattice::join::OutOfMemory;
use fm_policy::room::fitting_tasks;
use fm_records::ids::{JobId, MachineId, TaskId};
use fm_records::prefer::Prefer;
use fm_tally::tally::{LiveTask, OpenMachine, Tally};
use fm_tally::way::Way;
use std::alloc::Global;
use std::collections::BTreeMap;

// Loads and rises beyond this are not planned from a tally.
const MOST: u64 = 1 << 40;

/// Whether the claim holds by these counts of its moves. O(n log n) in tasks, machines and offers. A machine is compared with each
/// offer only if one that its bandwidth has room for is beyond its price.
pub(crate) fn passes(
    alloc: Global,
    knowledge: &Knowledge,
    tally: &Tally,
    claim: &Claim,
    counts: &Counts,
) -> Result<bool, OutOfMemory>
    ensures { IfOk result (λ yes. IsTrue yes → Passes knowledge.now tally.now claim.now counts.now) }
{
    let in_turn = go_in_turn(alloc, claim.moves.pairs())?;
    let tops = tops_of(alloc, claim)?;
    Ok(
        in_turn
            && are_fair_moves(knowledge, tally, claim, counts)
            && are_fair_machines(tally, claim, counts, &tops)
            && are_fair_tasks(knowledge, tally, claim),
    )
}

// Whether each task that rests does so fairly, and none that waits would go cheaper to a machine that it prefers.
fn are_fair_tasks(knowledge: &Knowledge, tally: &Tally, claim: &Claim) -> bool
    ensures { IsTrue result → AllOf (IsFairTask knowledge.now tally.now claim.now) tally.now.tasks }
{
    let mut number = 0usize;
    for (task, live) in tally.tasks.pairs() {
        if !is_fair_task(knowledge, tally, claim, number, *task, live) {
            return false;
        }
        number = number.saturating_add(1);
    }
    true
}

fn is_fair_task(
    knowledge: &Knowledge,
    tally: &Tally,
    claim: &Claim,
    number: usize,
    task: TaskId,
    live: &LiveTask,
) -> bool
    ensures { IsTrue result → IsFairTask knowledge.now tally.now claim.now (task, live.now) }
{
    if !rests_fairly(claim, number, live) && claim.way(number, task).is_none() {
        return false;
    }
    live.holder.is_some()
        || !live.prefers
        || is_preferred_fairly(knowledge, tally, claim, number, task, live)
}

// Whether the task may rest: preempting it costs no less than the rise of its machine, or letting it wait no more than its request
// pays.
fn rests_fairly(claim: &Claim, number: usize, live: &LiveTask) -> bool
    ensures { IsTrue result → IsFairAtRest claim.now live.now live.now.holder }
{
    match live.holder {
        Some(machine) => claim.rise_at(number, machine) <= u64::from(live.price),
        None => is_left_fairly(claim, live),
    }
}

// Whether no machine that the task prefers is cheaper than its own way.
fn is_preferred_fairly(
    knowledge: &Knowledge,
    tally: &Tally,
    claim: &Claim,
    number: usize,
    task: TaskId,
    live: &LiveTask,
) -> bool
    ensures { IsTrue result → IsPreferredFairly knowledge.now tally.now claim.now task live.now }
{
    let Some(spec) = knowledge.live_spec(task) else {
        return true;
    };
    let way = claim.way(number, task);
    let Some(cost) = own_cost(tally, claim, live, &spec.prefer, &way) else {
        return false;
    };
    are_no_cheaper(tally, claim, live.request, cost, spec.prefer.entries())
}

// What the task costs on its way, or at rest, if that is not beyond all bounds.
fn own_cost(
    tally: &Tally,
    claim: &Claim,
    live: &LiveTask,
    prefer: &Prefer,
    way: &Option<Way>,
) -> Option<u64>
    ensures { IfSome result (λ cost. cost ≡ own_cost tally.now claim.now live.now prefer.now way.now) }
{
    match *way {
        None | Some(Way::ToJob(_)) => Some(u64::from(live.price)),
        Some(Way::ByRequest(request, _)) => claim.offer(request).checked_add(u64::from(request)),
        Some(Way::Straight(machine)) => {
            let credit = prefer.credit(machine).unwrap_or(0);
            straight_cost(tally, claim, live.request, machine, credit)
        }
    }
}

// What it costs to go straight to the machine with the credit, if that is not beyond all bounds.
fn straight_cost(
    tally: &Tally,
    claim: &Claim,
    request: u32,
    machine: MachineId,
    credit: u32,
) -> Option<u64>
    ensures { IfSome result (λ cost. cost ≡ straight_cost tally.now claim.now request (machine, credit)) }
{
    let load = load_in(tally, claim, machine);
    let rise = claim.rise(machine);
    if load > u128::from(MOST) || rise > MOST {
        return None;
    }
    let there = u64::from(request) + load as u64;
    Some(there.saturating_sub(u64::from(credit)) + rise)
}

// The load of the machine, 0 if it is not open.
fn load_in(tally: &Tally, claim: &Claim, machine: MachineId) -> u128
    ensures { result ≡ load_in tally.now machine }
{
    match claim.machine(tally, machine) {
        Some(state) => state.load,
        None => 0,
    }
}

// Whether the machine is open, with room for the request.
fn has_room(tally: &Tally, claim: &Claim, machine: MachineId, request: u32) -> bool
    ensures { IsTrue result ↔ HasRoom tally.now machine request }
{
    let Some(state) = claim.machine(tally, machine) else {
        return false;
    };
    match state.spare {
        Some(spare) => request <= spare,
        None => false,
    }
}

// Whether none of these machines, which a task of the request prefers, is cheaper.
fn are_no_cheaper(
    tally: &Tally,
    claim: &Claim,
    request: u32,
    cost: u64,
    preferred: &[(MachineId, u32)],
) -> bool
    ensures { IsTrue result → AllOf (IsNoCheaper tally.now claim.now request cost) preferred.now }
{
    for (machine, credit) in preferred {
        if !is_no_cheaper(tally, claim, request, cost, *machine, *credit) {
            return false;
        }
    }
    true
}

fn is_no_cheaper(
    tally: &Tally,
    claim: &Claim,
    request: u32,
    cost: u64,
    machine: MachineId,
    credit: u32,
) -> bool
    ensures { IsTrue result → IsNoCheaper tally.now claim.now request cost (machine, credit) }
{
    if !has_room(tally, claim, machine, request) {
        return true;
    }
    match straight_cost(tally, claim, request, machine, credit) {
        Some(straight) => cost <= straight,
        None => false,
    }
}

// Whether to let the task wait costs no more than its request pays.
fn is_left_fairly(claim: &Claim, live: &LiveTask) -> bool
    ensures { IsTrue result → live.now.price ≤ offer_of claim.now live.now.request + live.now.request }
{
    u64::from(live.price.saturating_sub(live.request)) <= claim.offer(live.request)
}

// Whether each move is fair.
fn are_fair_moves(knowledge: &Knowledge, tally: &Tally, claim: &Claim, counts: &Counts) -> bool
    ensures { IsTrue result → AllOf (IsFairMove knowledge.now tally.now claim.now counts.now) claim.now.moves }
{
    let mut number = 0usize;
    for (task, way) in claim.moves.pairs() {
        let live = claim.moved(tally, number, *task);
        if !is_fair_move(knowledge, tally, claim, counts, live, *task, *way) {
            return false;
        }
        number = number.saturating_add(1);
    }
    true
}

fn is_fair_move(
    knowledge: &Knowledge,
    tally: &Tally,
    claim: &Claim,
    counts: &Counts,
    live: Option<LiveTask>,
    task: TaskId,
    way: Way,
) -> bool
    requires { live ≡ lookup nat_cmp task tally.now.tasks }
    ensures { IsTrue result → IsFairMove knowledge.now tally.now claim.now counts.now (task, way) }
{
    let Some(live) = live else {
        return false;
    };
    match way {
        Way::ToJob(job) => leaves(tally, claim, &live, task, job),
        Way::ByRequest(request, machine) => {
            asks(tally, claim, counts, &live, task, request, machine)
        }
        Way::Straight(machine) => goes_straight(knowledge, tally, claim, &live, task, machine),
    }
}

// Whether the task waits and prefers the machine, which has room for it and costs no more than its job or its request.
fn goes_straight(
    knowledge: &Knowledge,
    tally: &Tally,
    claim: &Claim,
    live: &LiveTask,
    task: TaskId,
    machine: MachineId,
) -> bool
    requires { lookup nat_cmp task tally.now.tasks ≡ Some live.now }
    ensures { IsTrue result → GoesStraight knowledge.now tally.now claim.now task machine }
{
    let Some(spec) = knowledge.live_spec(task) else {
        return false;
    };
    let Some(credit) = spec.prefer.credit(machine) else {
        return false;
    };
    let Some(cost) = straight_cost(tally, claim, live.request, machine, credit) else {
        return false;
    };
    live.holder.is_none()
        && has_room(tally, claim, machine, live.request)
        && cost <= u64::from(live.price)
        && is_paid(claim, cost, live.request)
}

// Whether the cost is no more than what the request pays, and the request.
fn is_paid(claim: &Claim, cost: u64, request: u32) -> bool
    ensures { IsTrue result → cost ≤ offer_of claim.now request + request }
{
    cost.saturating_sub(u64::from(request)) <= claim.offer(request)
}

// Whether the task is held, and costs no more to preempt than the rise of its machine.
fn leaves(tally: &Tally, claim: &Claim, live: &LiveTask, task: TaskId, job: JobId) -> bool
    requires { lookup nat_cmp task tally.now.tasks ≡ Some live.now }
    ensures { IsTrue result → Leaves tally.now claim.now task job }
{
    let Some(machine) = live.holder else {
        return false;
    };
    live.job == job && u64::from(live.price) <= claim.rise(machine)
}

// Whether the task waits for the request, the machine has room for all that go there over it, and both pay the price.
fn asks(
    tally: &Tally,
    claim: &Claim,
    counts: &Counts,
    live: &LiveTask,
    task: TaskId,
    request: u32,
    machine: MachineId,
) -> bool
    requires { lookup nat_cmp task tally.now.tasks ≡ Some live.now }
    ensures { IsTrue result → Asks tally.now claim.now counts.now task request machine }
{
    if live.request != request || live.holder.is_some() {
        return false;
    }
    let Some(state) = claim.machine(tally, machine) else {
        return false;
    };
    let Some(spare) = state.spare else {
        return false;
    };
    let Some(price) = price_of(claim.rise(machine), &state) else {
        return false;
    };
    let offer = claim.offer(request);
    request <= spare
        && counts.pair(request, machine) <= u64::from(fitting_tasks(state.slots, spare, request))
        && price <= offer
        && request <= live.price
        && offer <= u64::from(live.price - request)
}

// The price of the machine with the rise, if it is not beyond all bounds.
fn price_of(rise: u64, state: &OpenMachine) -> Option<u64>
    ensures { IfSome result (λ price. price ≡ state.now.load + rise) }
{
    if state.load > u128::from(MOST) || rise > MOST {
        return None;
    }
    Some(state.load as u64 + rise)
}

// Whether each machine is fair.
fn are_fair_machines(tally: &Tally, claim: &Claim, counts: &Counts, tops: &[(u64, u64)]) -> bool
    requires { AllOf (IsTop claim.now.offers) tops.now }
    ensures { IsTrue result → AllOf (IsFairMachine claim.now counts.now) tally.now.machines }
{
    let mut near = 0usize;
    for (machine, state) in tally.machines.pairs() {
        let rise = claim.rise_near(near, *machine);
        near = near.saturating_add(1);
        if !is_fair_machine(claim, counts, tops, *machine, state, rise) {
            return false;
        }
    }
    true
}

fn is_fair_machine(
    claim: &Claim,
    counts: &Counts,
    tops: &[(u64, u64)],
    machine: MachineId,
    state: &OpenMachine,
    rise: u64,
) -> bool
    requires rise { rise ≡ rise_of claim.now machine }
    requires tops { AllOf (IsTop claim.now.offers) tops.now }
    ensures { IsTrue result → IsFairMachine claim.now counts.now (machine, state.now) }
{
    let Some(price) = price_of(rise, state) else {
        return false;
    };
    has_fair_slots(claim, counts, machine, state, rise)
        && (are_low_offers(claim, counts, tops, machine, state, price)
            || are_fair_offers(claim, counts, machine, state, price))
}

// Whether the slots suffice, and the price is the load if one is free.
fn has_fair_slots(
    claim: &Claim,
    counts: &Counts,
    machine: MachineId,
    state: &OpenMachine,
    rise: u64,
) -> bool
    requires { rise ≡ rise_of claim.now machine }
    ensures { IsTrue result → HasFairSlots claim.now counts.now machine state.now }
{
    let taken = u128::from(state.held) + u128::from(counts.arriving(machine));
    let there = u128::from(state.slots) + u128::from(counts.leaving(machine));
    taken <= there && (taken == there || rise == 0)
}

// For each request that offers, the greatest offer of lesser ones; and at last the greatest of all.
fn tops_of(alloc: Global, claim: &Claim) -> Result<Vec<(u64, u64)>, OutOfMemory>
    ensures { IfOk result (λ tops. AllOf (IsTop claim.now.offers) tops.items) }
{
    let mut tops = Vec::new(alloc);
    let mut most = 0u64;
    for (request, offer) in claim.offers.pairs() {
        tops.push((u64::from(*request), most))?;
        most = most.max(*offer);
    }
    tops.push((1 << 32, most))?;
    Ok(tops)
}

// Whether no request that the machine's bandwidth has room for pays more than the price. One comparison, and a search for it.
fn are_low_offers(
    claim: &Claim,
    counts: &Counts,
    tops: &[(u64, u64)],
    machine: MachineId,
    state: &OpenMachine,
    price: u64,
) -> bool
    requires price { price ≡ state.now.load + rise_of claim.now machine }
    requires tops { AllOf (IsTop claim.now.offers) tops.now }
    ensures { IsTrue result → AllOf (IsFairOffer claim.now counts.now machine state.now) claim.now.offers }
{
    let Some(spare) = state.spare else {
        return false;
    };
    let spare = u64::from(spare);
    let at = tops.partition_point(|top| top.0 <= spare);
    match top_at(claim, tops, at) {
        Some((request, most)) => spare < request && most <= price,
        None => false,
    }
}

// One of these greatest offers, with the request that it is before.
fn top_at(claim: &Claim, tops: &[(u64, u64)], at: usize) -> Option<(u64, u64)>
    requires { AllOf (IsTop claim.now.offers) tops.now }
    ensures { IfSome result (IsTop claim.now.offers) }
{
    if at < tops.len() {
        Some(tops[at])
    } else {
        None
    }
}

// Whether no request that more fits of pays more than the price.
fn are_fair_offers(
    claim: &Claim,
    counts: &Counts,
    machine: MachineId,
    state: &OpenMachine,
    price: u64,
) -> bool
    requires { price ≡ state.now.load + rise_of claim.now machine }
    ensures { IsTrue result → AllOf (IsFairOffer claim.now counts.now machine state.now) claim.now.offers }
{
    for (request, offer) in claim.offers.pairs() {
        if *offer > price && has_more_room(counts, machine, state, *request) {
            return false;
        }
    }
    true
}

// Whether more of the request fits.
fn has_more_room(counts: &Counts, machine: MachineId, state: &OpenMachine, request: u32) -> bool
    ensures { IsTrue result ↔ HasMoreRoom counts.now machine state.now request }
{
    let Some(spare) = state.spare else {
        return false;
    };
    request <= spare
        && counts.pair(request, machine) < u64::from(fitting_tasks(state.slots, spare, request))
}

// Whether, of each request, tasks of greater ids go to no lesser machines.
fn go_in_turn(alloc: Global, moves: &[(TaskId, Way)]) -> Result<bool, OutOfMemory>
    ensures { IfOk result (λ yes. IsTrue yes → GoInTurn (λ r. None) moves.now) }
{
    let mut last = BTreeMap::new(alloc);
    for (_, way) in moves {
        if !is_next(&mut last, *way)? {
            return Ok(false);
        }
    }
    Ok(true)
}

// Whether the move goes to no lesser machine than the last one of its request, which it then is.
fn is_next(last: &mut BTreeMap<u32, MachineId>, way: Way) -> Result<bool, OutOfMemory>
    ensures next { IfOk result (λ yes. IsTrue yes → IsNext (get nat_cmp last.old) way) }
    ensures after { OnOk result ((r : ℕ) → get nat_cmp last.new r ≡ after_move (get nat_cmp last.old) way r) }
{
    let Way::ByRequest(request, machine) = way else {
        return Ok(true);
    };
    match last.insert(request, machine)? {
        Some(before) => Ok(before <= machine),
        None => Ok(true),
    }
}
