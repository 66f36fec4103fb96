//! From a tally to what is to be placed, by number (`fm_search`).
//!
//! Machines are numbered by load. Requests are those of waiting tasks, by size. What the numbers stand for is kept beside
//! it.

use crate::machine_index::{NONE, Numbers};
use fm_know::knowledge::Knowledge;
use fm_lattice::join::OutOfMemory;
use fm_records::ids::TaskId;
use fm_search::draft::{Draft, TaskNumbers};
use fm_search::instance::Instance;
use fm_tally::tally::{LiveTask, OpenMachine, Tally};
use std::alloc::Global;

// More than the loads of machines and the prices of a claim can be.
const MOST_LOAD: u128 = 1 << 44;

/// What the numbers of an instance stand for.
#[derive(Drop)]
pub(crate) struct Names {
    /// The machines by id, with their numbers.
    pub(crate) numbers: Numbers,
    /// Of each machine, by number, its place among those by id.
    pub(crate) places: Vec<usize>,
    pub(crate) requests: Vec<u32>,
    /// The tasks, by their numbers in the tally.
    pub(crate) tasks: TaskNumbers,
    /// Of each task of the tally, where its machine stands among those by id, if it is held.
    pub(crate) holders: Vec<usize>,
}

// What the numbers stand for, except those of tasks, while an instance is made.
#[derive(Drop)]
struct Listing {
    draft: Draft,
    numbers: Numbers,
    requests: Vec<u32>,
    holders: Vec<usize>,
    // The tasks that wait, by their numbers in the tally.
    idle: Vec<usize>,
}

/// What is to be placed by a tally, and what the numbers stand for. O(n log n) in machines and tasks.
pub(crate) fn instance_of(
    alloc: Global,
    knowledge: &Knowledge,
    tally: &Tally,
) -> Result<(Instance, Names), OutOfMemory> {
    let order = order_of(alloc, tally)?;
    let mut listing = Listing::of(alloc, numbers_of(alloc, tally, &order)?);
    let places = listing.add_all(alloc, knowledge, tally, &order)?;
    listing.finish(alloc, places)
}

// The machines' places in the tally, by load.
fn order_of(alloc: Global, tally: &Tally) -> Result<Vec<(u128, usize)>, OutOfMemory> {
    let machines = tally.machines.pairs();
    let mut order = Vec::with_capacity(alloc, machines.len())?;
    for (at, (_, open)) in machines.iter().enumerate() {
        order.push((open.load, at))?;
    }
    order.sort_unstable();
    Ok(order)
}

// The numbers of the machines in this order.
fn numbers_of(
    alloc: Global,
    tally: &Tally,
    order: &[(u128, usize)],
) -> Result<Numbers, OutOfMemory> {
    let machines = tally.machines.pairs();
    let mut pairs = Vec::with_capacity(alloc, machines.len())?;
    for (machine, _) in machines {
        pairs.push((*machine, NONE))?;
    }
    for (number, (_, at)) in order.iter().enumerate() {
        if let Some(pair) = pairs.get_mut(*at) {
            pair.1 = number;
        }
    }
    Numbers::of(alloc, pairs)
}

// What the machine has to spare, below 0 if it has room for no request.
fn spare_of(open: &OpenMachine) -> i64 {
    match open.spare {
        Some(spare) => i64::from(spare),
        None => -1,
    }
}

impl Listing {
    // Nothing but the numbers of machines.
    fn of(alloc: Global, numbers: Numbers) -> Listing {
        Listing {
            draft: Draft::new(alloc),
            numbers,
            requests: Vec::new(alloc),
            holders: Vec::new(alloc),
            idle: Vec::new(alloc),
        }
    }

    // Adds machines, requests and tasks. Answers the machines' places by number.
    fn add_all(
        &mut self,
        alloc: Global,
        knowledge: &Knowledge,
        tally: &Tally,
        order: &[(u128, usize)],
    ) -> Result<Vec<usize>, OutOfMemory> {
        let places = self.add_machines(alloc, tally, order)?;
        self.call_roll(tally)?;
        self.add_waiting(knowledge, tally)?;
        Ok(places)
    }

    // The instance of what was added, and what its numbers stand for.
    fn finish(self, alloc: Global, places: Vec<usize>) -> Result<(Instance, Names), OutOfMemory> {
        let (instance, tasks) = self.draft.finish(alloc)?;
        let names = Names {
            numbers: self.numbers,
            places,
            requests: self.requests,
            tasks,
            holders: self.holders,
        };
        Ok((instance, names))
    }

    // Adds the machines in this order, and answers their places by number.
    fn add_machines(
        &mut self,
        alloc: Global,
        tally: &Tally,
        order: &[(u128, usize)],
    ) -> Result<Vec<usize>, OutOfMemory> {
        let mut places = Vec::with_capacity(alloc, order.len())?;
        for (_, at) in order {
            if let Some((_, open)) = tally.machines.pairs().get(*at) {
                let load = open.load.min(MOST_LOAD) as i64;
                self.draft
                    .add_machine(load, spare_of(open), i64::from(open.slots))?;
                places.push(*at)?;
            }
        }
        Ok(places)
    }

    // Adds the held tasks, and collects the requests of those that wait.
    fn call_roll(&mut self, tally: &Tally) -> Result<(), OutOfMemory> {
        for (task, (_, live)) in tally.tasks.pairs().iter().enumerate() {
            if let Some(machine) = live.holder {
                let (holder, number) = self.numbers.find(machine).unwrap_or((NONE, NONE));
                self.draft.hold(number, i64::from(live.price), task)?;
                self.holders.push(holder)?;
            } else {
                self.idle.push(task)?;
                self.requests.push(live.request)?;
                self.holders.push(NONE)?;
            }
        }
        self.requests.sort_unstable();
        self.requests.dedup();
        Ok(())
    }

    // Adds the requests and the waiting tasks.
    fn add_waiting(&mut self, knowledge: &Knowledge, tally: &Tally) -> Result<(), OutOfMemory> {
        for request in &self.requests {
            self.draft.add_request(i64::from(*request))?;
        }
        for at in 0..self.idle.len() {
            let number = self.idle.get(at).copied().unwrap_or(NONE);
            if let Some((task, live)) = tally.tasks.pairs().get(number) {
                if live.prefers {
                    self.choose(knowledge, *task, live.request)?;
                }
                self.add_task(number, live)?;
            }
        }
        Ok(())
    }

    // Adds a waiting task, whose choices were added.
    fn add_task(&mut self, number: usize, live: &LiveTask) -> Result<(), OutOfMemory> {
        let Ok(request) = self.requests.binary_search(&live.request) else {
            return Ok(());
        };
        let worth = i64::from(live.price).saturating_sub(i64::from(live.request));
        self.draft.wait(request, worth, number)
    }

    // Adds the choices of the task: the open machines that it prefers and that have room.
    fn choose(
        &mut self,
        knowledge: &Knowledge,
        task: TaskId,
        request: u32,
    ) -> Result<(), OutOfMemory> {
        let Some(spec) = knowledge.live_spec(task) else {
            return Ok(());
        };
        let size = i64::from(request);
        for (machine, credit) in spec.prefer.entries() {
            if let Some((_, number)) = self.numbers.find(*machine) {
                let there = self.draft.machine(number);
                if size <= there.spare {
                    let gain = i64::from(*credit).min(size.saturating_add(there.load));
                    self.draft.choose(number, gain)?;
                }
            }
        }
        Ok(())
    }
}
