//! The tasks that prefer machines: where each one is placed, and what it costs to move it on.
//!
//! Such a task is in a list of its machine, or of its request. Beside it stands its key, which is no more than
//! what a unit costs that takes its place and sends it elsewhere. The least key of a list, and the least ones
//! of 64 lists, are kept too, so that a search does not look at tasks that it has no reason to move. The two cheapest
//! nodes to which the task may go on stand there as well, since in most searches no other one is of use.

use crate::Tried;
use crate::assignment::Destination;
use crate::costs::{FAR, NONE, cost_at, lower, put};
use std::alloc::Global;

/// A node to which a task may go on, what the step there costs, and what that with all that follows costs at least.
#[derive(Clone, Copy, Drop)]
pub(crate) struct Successor {
    pub(crate) node: usize,
    pub(crate) cost: i64,
    pub(crate) least: i64,
}

// No node.
const NO_SUCCESSOR: Successor = Successor {
    node: NONE,
    cost: FAR,
    least: FAR,
};

/// A task in a list, with its key and what it saves there, its two cheapest successors, and what all else costs at least.
#[derive(Clone, Copy, Drop)]
pub(crate) struct Entry {
    pub(crate) key: i64,
    pub(crate) gain: i64,
    pub(crate) task: usize,
    pub(crate) first: Successor,
    pub(crate) second: Successor,
    pub(crate) rest: i64,
}

impl Entry {
    /// The task that saves so much there and has no successors: to wait again costs so much.
    pub(crate) fn new(task: usize, gain: i64, rest: i64) -> Entry {
        Entry {
            key: rest,
            gain,
            task,
            first: NO_SUCCESSOR,
            second: NO_SUCCESSOR,
            rest,
        }
    }

    /// Adds a successor.
    pub(crate) fn add(&mut self, added: Successor) {
        if added.least >= self.second.least {
            self.rest = self.rest.min(added.least);
            return;
        }
        self.rest = self.rest.min(self.second.least);
        if added.least < self.first.least {
            self.second = self.first;
            self.first = added;
        } else {
            self.second = added;
        }
    }

    /// Has the key say what the cheapest of all costs at least.
    pub(crate) fn renew_key(&mut self) {
        self.key = self.rest.min(self.first.least).min(self.second.least);
    }
}

/// The tasks that prefer machines. There are no lists if there are no such tasks.
#[derive(Drop)]
pub(crate) struct Movable {
    /// Of each task, where it is.
    pub(crate) destinations: Vec<Destination>,
    // And its place in the list there.
    places: Vec<usize>,
    machines: usize,
    // At each machine, and then at each request.
    lists: Vec<Vec<Entry>>,
    /// Of each full machine, each 64 of these, and each request: no key there is less.
    pub(crate) lows: Vec<i64>,
    pub(crate) blocks: Vec<i64>,
    pub(crate) by_request: Vec<i64>,
}

// So many lists without tasks.
fn no_entries(alloc: Global, count: usize) -> Tried<Vec<Vec<Entry>>> {
    let mut lists = Vec::with_capacity(alloc, count)?;
    for _ in 0..count {
        lists.push(Vec::new(alloc))?;
    }
    Ok(lists)
}

// The least key in a list.
fn least_key(entries: &[Entry]) -> i64 {
    let mut least = FAR;
    for entry in entries {
        least = least.min(entry.key);
    }
    least
}

// Takes an entry out of its list, where the last one takes its place. Answers the task of the last one, or none.
fn take_entry(entries: &mut Vec<Entry>, place: usize) -> usize {
    let Some(last) = entries.pop() else {
        return NONE;
    };
    match entries.get_mut(place) {
        Some(entry) => {
            *entry = last;
            last.task
        }
        None => NONE,
    }
}

impl Movable {
    /// So many tasks that are nowhere, and lists of so many machines and requests.
    pub(crate) fn of(
        alloc: Global,
        tasks: usize,
        machines: usize,
        requests: usize,
    ) -> Tried<Movable> {
        let lists = if tasks == 0 {
            0
        } else {
            machines.saturating_add(requests)
        };
        Ok(Movable {
            destinations: vec![in alloc; Destination::Nowhere; tasks]?,
            places: vec![in alloc; NONE; tasks]?,
            machines,
            lists: no_entries(alloc, lists)?,
            lows: Vec::new(alloc),
            blocks: Vec::new(alloc),
            by_request: vec![in alloc; FAR; requests]?,
        })
    }

    /// Where the task is.
    pub(crate) fn destination(&self, task: usize) -> Destination {
        self.destinations
            .get(task)
            .copied()
            .unwrap_or(Destination::Nowhere)
    }

    /// The list of a request.
    pub(crate) fn request_list(&self, request: usize) -> usize {
        self.machines.saturating_add(request)
    }

    // The list of the destination, for a task of the request.
    fn list_of(&self, destination: Destination, request: usize) -> usize {
        match destination {
            Destination::Nowhere => NONE,
            Destination::ByRequest => self.request_list(request),
            Destination::Straight(machine) => machine,
        }
    }

    /// The tasks in a list.
    pub(crate) fn entries(&self, list: usize) -> &[Entry] {
        match self.lists.get(list) {
            Some(entries) => entries.as_slice(),
            None => &[],
        }
    }

    /// Whether there are tasks in the list.
    pub(crate) fn has_any(&self, list: usize) -> bool {
        !self.entries(list).is_empty()
    }

    /// Puts the entry of the same task in place of that at the place of a list.
    pub(crate) fn set_entry(&mut self, list: usize, place: usize, entry: Entry) {
        let Some(entries) = self.lists.get_mut(list) else {
            return;
        };
        if let Some(there) = entries.get_mut(place) {
            *there = entry;
        }
    }

    /// A machine is numbered among the full ones.
    pub(crate) fn add_full(&mut self, machine: usize, full: usize) -> Tried<()> {
        let least = least_key(self.entries(machine));
        self.lows.push(least)?;
        if full % 64 == 0 {
            self.blocks.push(FAR)?;
        }
        lower(&mut self.blocks, full / 64, least);
        Ok(())
    }

    /// No key of a task in the request's list is less.
    pub(crate) fn request_low(&self, request: usize) -> i64 {
        cost_at(&self.by_request, request)
    }

    /// Sets it.
    pub(crate) fn set_request_low(&mut self, request: usize, low: i64) {
        put(&mut self.by_request, request, low);
    }

    /// The same of the full machine of the number.
    pub(crate) fn low(&self, full: usize) -> i64 {
        cost_at(&self.lows, full)
    }

    /// Sets it.
    pub(crate) fn set_low(&mut self, full: usize, low: i64) {
        put(&mut self.lows, full, low);
    }

    /// Brings the least key at 64 full machines up to date.
    pub(crate) fn renew_block(&mut self, word: usize) {
        let first = word.saturating_mul(64);
        let end = first.saturating_add(64).min(self.lows.len());
        let mut least = FAR;
        for low in self.lows.get(first..end).unwrap_or(&[]) {
            least = least.min(*low);
        }
        put(&mut self.blocks, word, least);
    }

    /// Takes a task of the request out of its list.
    pub(crate) fn take_out(&mut self, task: usize, request: usize) {
        let list = self.list_of(self.destination(task), request);
        let place = self.places.get(task).copied().unwrap_or(NONE);
        let Some(entries) = self.lists.get_mut(list) else {
            return;
        };
        let moved = take_entry(entries, place);
        if let Some(there) = self.places.get_mut(moved) {
            *there = place;
        }
    }

    /// The task is at the destination, and not in the list there yet.
    pub(crate) fn set_destination(&mut self, task: usize, destination: Destination) {
        if let Some(there) = self.destinations.get_mut(task) {
            *there = destination;
        }
    }

    /// Puts a task of the request into the list where it is.
    pub(crate) fn put_in(&mut self, request: usize, entry: Entry) -> Tried<()> {
        let list = self.list_of(self.destination(entry.task), request);
        let Some(entries) = self.lists.get_mut(list) else {
            return Ok(());
        };
        if let Some(place) = self.places.get_mut(entry.task) {
            *place = entries.len();
        }
        entries.push(entry)?;
        Ok(())
    }
}
