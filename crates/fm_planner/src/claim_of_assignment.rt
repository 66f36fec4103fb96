//! From the assignment of a search to the claim that a check takes: moves by task, and prices by machine and request.

use crate::claim::{Claim, Places};
use crate::machine_index::NONE;
use crate::tally_instance::Names;
use fm_lattice::join::OutOfMemory;
use fm_records::ids::MachineId;
use fm_search::assignment::{Assignment, Destination};
use fm_tally::sorted::Sorted;
use fm_tally::tally::Tally;
use fm_tally::way::Way;
use std::alloc::Global;

// The greatest price that a check takes.
const MOST_PRICE: u64 = 1 << 40;

/// The claim of an assignment to the instance of the tally, with these names. O(n log n) in tasks and machines.
pub(crate) fn claim_of(
    alloc: Global,
    tally: &Tally,
    assignment: &Assignment,
    names: Names,
) -> Result<Claim, OutOfMemory> {
    let ways = ways_of(alloc, tally, assignment, &names)?;
    let rises = rises_of(alloc, assignment, &names)?;
    let offers = offers_of(alloc, assignment, &names)?;
    with_moves(alloc, tally, names, &ways, rises, offers)
}

// The claim of these ways, each with the number of its task in the tally, rising.
fn with_moves(
    alloc: Global,
    tally: &Tally,
    names: Names,
    ways: &[(usize, Way)],
    rises: Sorted<MachineId, u64>,
    offers: Sorted<u32, u64>,
) -> Result<Claim, OutOfMemory> {
    let mut claim = Claim {
        moves: Sorted::new(alloc),
        rises,
        offers,
        places: Places {
            machines: names.numbers,
            tasks: names.holders,
            moves: Vec::with_capacity(alloc, ways.len())?,
        },
    };
    for (number, way) in ways {
        add_move(&mut claim, tally, *number, *way)?;
    }
    Ok(claim)
}

// Adds the move of the task of that number, which comes after the others.
fn add_move(claim: &mut Claim, tally: &Tally, number: usize, way: Way) -> Result<(), OutOfMemory> {
    let Some((task, live)) = tally.tasks.pairs().get(number) else {
        return Ok(());
    };
    if live.holder.is_none() {
        if let Some(place) = claim.places.tasks.get_mut(number) {
            *place = claim.places.moves.len();
        }
    }
    claim.places.moves.push(number)?;
    claim.moves.put(*task, way)?;
    Ok(())
}

// A price less another, as a check takes it.
fn above(price: i64, base: i64) -> u64 {
    u64::try_from(price.saturating_sub(base))
        .unwrap_or(0)
        .min(MOST_PRICE)
}

// By how much the prices of machines are above their loads.
fn rises_of(
    alloc: Global,
    assignment: &Assignment,
    names: &Names,
) -> Result<Sorted<MachineId, u64>, OutOfMemory> {
    let mut rises = Sorted::new(alloc);
    for (machine, number) in names.numbers.pairs() {
        let price = assignment
            .machine_prices
            .get(*number)
            .copied()
            .unwrap_or(i64::MAX);
        let load = assignment
            .instance
            .machines
            .get(*number)
            .map_or(i64::MAX, |there| there.load);
        rises.put(*machine, above(price, load))?;
    }
    Ok(rises)
}

// What one more task costs, by request.
fn offers_of(
    alloc: Global,
    assignment: &Assignment,
    names: &Names,
) -> Result<Sorted<u32, u64>, OutOfMemory> {
    let mut offers = Sorted::new(alloc);
    for (request, price) in names.requests.iter().zip(assignment.request_prices.iter()) {
        offers.put(*request, above(*price, 0))?;
    }
    Ok(offers)
}

// The ways of the tasks that move, by their numbers in the tally, rising: of each request, the machines to which its tasks go by
// rising id, to its placed tasks by rising id; the tasks that go straight; and the tasks that are preempted.
fn ways_of(
    alloc: Global,
    tally: &Tally,
    assignment: &Assignment,
    names: &Names,
) -> Result<Vec<(usize, Way)>, OutOfMemory> {
    let mut ways = straight_ways(alloc, assignment, names)?;
    add_by_request(alloc, &mut ways, assignment, names)?;
    add_preempted(&mut ways, tally, assignment, names)?;
    ways.sort_unstable_by_key(|pair| pair.0);
    Ok(ways)
}

// The machine at the place among those by id.
fn machine_at(names: &Names, place: usize) -> Option<MachineId> {
    let (machine, _) = names.numbers.pairs().get(place)?;
    Some(*machine)
}

// The ways of the tasks that go straight.
fn straight_ways(
    alloc: Global,
    assignment: &Assignment,
    names: &Names,
) -> Result<Vec<(usize, Way)>, OutOfMemory> {
    let mut ways = Vec::new(alloc);
    let tasks = names.tasks.preferring.iter();
    for (number, destination) in tasks.zip(assignment.destinations.iter()) {
        if let Destination::Straight(machine) = *destination {
            let place = names.places.get(machine).copied().unwrap_or(NONE);
            if let Some(machine) = machine_at(names, place) {
                ways.push((*number, Way::Straight(machine)))?;
            }
        }
    }
    Ok(ways)
}

// Adds the ways of the tasks that go over their requests.
fn add_by_request(
    alloc: Global,
    ways: &mut Vec<(usize, Way)>,
    assignment: &Assignment,
    names: &Names,
) -> Result<(), OutOfMemory> {
    let tasks = tasks_of(alloc, assignment, names)?;
    let seats = seats_of(alloc, assignment, names)?;
    for ((request, task), (_, place)) in tasks.iter().zip(seats.iter()) {
        let request = names.requests.get(*request).copied().unwrap_or(0);
        if let Some(machine) = machine_at(names, *place) {
            ways.push((*task, Way::ByRequest(request, machine)))?;
        }
    }
    Ok(())
}

// The tasks that go over their requests, by request and task.
fn tasks_of(
    alloc: Global,
    assignment: &Assignment,
    names: &Names,
) -> Result<Vec<(usize, usize)>, OutOfMemory> {
    let mut tasks = Vec::new(alloc);
    for (number, request) in assignment.instance.requests.iter().enumerate() {
        let placed = assignment.placed.get(number).copied().unwrap_or(0);
        let end = request.first.saturating_add(placed);
        for waiting in names.tasks.waiting.get(request.first..end).unwrap_or(&[]) {
            tasks.push((number, *waiting))?;
        }
    }
    add_preferring(&mut tasks, assignment, names)?;
    tasks.sort_unstable();
    Ok(tasks)
}

// Adds those of them that prefer machines.
fn add_preferring(
    tasks: &mut Vec<(usize, usize)>,
    assignment: &Assignment,
    names: &Names,
) -> Result<(), OutOfMemory> {
    let preferring = assignment
        .instance
        .preferring
        .iter()
        .zip(assignment.destinations.iter());
    for (number, (waiting, destination)) in names.tasks.preferring.iter().zip(preferring) {
        if *destination == Destination::ByRequest {
            tasks.push((waiting.request, *number))?;
        }
    }
    Ok(())
}

// A machine for each task that goes to it over a request, by request and machine: its place among those by id.
fn seats_of(
    alloc: Global,
    assignment: &Assignment,
    names: &Names,
) -> Result<Vec<(usize, usize)>, OutOfMemory> {
    let mut seats = Vec::new(alloc);
    for (place, shares) in names.places.iter().zip(assignment.shares.iter()) {
        for share in shares {
            for _ in 0..share.units {
                seats.push((share.request, *place))?;
            }
        }
    }
    seats.sort_unstable();
    Ok(seats)
}

// Adds the ways of the held tasks that are preempted: the cheapest of each machine.
fn add_preempted(
    ways: &mut Vec<(usize, Way)>,
    tally: &Tally,
    assignment: &Assignment,
    names: &Names,
) -> Result<(), OutOfMemory> {
    for (machine, gone) in assignment
        .instance
        .machines
        .iter()
        .zip(assignment.gone.iter())
    {
        let end = machine.first.saturating_add(*gone).min(machine.end);
        for number in names.tasks.held.get(machine.first..end).unwrap_or(&[]) {
            if let Some((_, live)) = tally.tasks.pairs().get(*number) {
                ways.push((*number, Way::ToJob(live.job)))?;
            }
        }
    }
    Ok(())
}
