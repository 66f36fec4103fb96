//! What is placed so far: which slots are taken, and by how many tasks of which request.
//!
//! The search asks at each step how many slots of a machine are free and what the next one costs. A slot of a machine
//! without a free one costs its load and the cheapest preemption there. Prices only rise: a free slot that is taken
//! stays taken.

use crate::Tried;
use crate::assignment::RequestUnits;
use crate::costs::{FAR, NONE, put};
use crate::exits::Exits;
use crate::full_machines::Full;
use crate::instance::Instance;
use crate::movable::Movable;
use crate::segment_tree::LEAST;

/// The slots of a machine.
#[derive(Clone, Copy, Drop)]
pub(crate) struct Slots {
    pub(crate) free: i64,
    /// What the next one costs.
    pub(crate) price: i64,
    /// How many of its held tasks, the cheapest, are preempted.
    pub(crate) gone: usize,
    /// Its number among the machines by falling spare.
    pub(crate) rank: usize,
    /// Its number among the full machines with tasks that were placed there.
    pub(crate) full: usize,
}

// The slots of no machine.
const NO_SLOTS: Slots = Slots {
    free: 0,
    price: FAR,
    gone: 0,
    rank: NONE,
    full: NONE,
};

// No task of any request.
const NO_UNITS: RequestUnits = RequestUnits {
    request: 0,
    units: 0,
};

/// What is to be planned, and what is placed so far.
#[derive(Drop)]
pub(crate) struct Board {
    pub(crate) instance: Instance,
    pub(crate) slots: Vec<Slots>,
    /// Of each machine, the requests whose tasks go there.
    pub(crate) shares: Vec<Vec<RequestUnits>>,
    /// Of each request, how many of its tasks without preferences are placed: the dearest.
    pub(crate) placed: Vec<usize>,
    pub(crate) exits: Exits,
    pub(crate) full: Full,
    pub(crate) movable: Movable,
    /// What a unit of each request, and at each machine, costs at least.
    pub(crate) request_labels: Vec<i64>,
    pub(crate) machine_labels: Vec<i64>,
}

impl Board {
    /// The slots of the machine.
    pub(crate) fn slots_of(&self, machine: usize) -> Slots {
        self.slots.get(machine).copied().unwrap_or(NO_SLOTS)
    }

    /// What the next slot of the machine costs.
    pub(crate) fn price(&self, machine: usize) -> i64 {
        self.slots_of(machine).price
    }

    /// The number of the machine among the full ones with tasks that were placed there.
    pub(crate) fn full_number(&self, machine: usize) -> usize {
        self.slots_of(machine).full
    }

    /// What the next slot of the machine costs if none is free.
    pub(crate) fn held_price(&self, machine: usize) -> i64 {
        let gone = self.slots_of(machine).gone;
        let machine = self.instance.machine(machine);
        match self.instance.held_by(&machine).get(gone) {
            Some(price) => machine.load.saturating_add(*price),
            None => FAR,
        }
    }

    /// The requests whose tasks go to the machine.
    pub(crate) fn shares_of(&self, machine: usize) -> &[RequestUnits] {
        match self.shares.get(machine) {
            Some(shares) => shares.as_slice(),
            None => &[],
        }
    }

    /// One of these, by its place among them.
    pub(crate) fn share(&self, machine: usize, place: usize) -> RequestUnits {
        self.shares_of(machine)
            .get(place)
            .copied()
            .unwrap_or(NO_UNITS)
    }

    /// How many tasks of the request go to the machine.
    pub(crate) fn units(&self, request: usize, machine: usize) -> i64 {
        for share in self.shares_of(machine) {
            if share.request == request {
                return share.units;
            }
        }
        0
    }

    /// How many more tasks of the request the machine has bandwidth for, if all its slots were free for them.
    pub(crate) fn room(&self, request: usize, machine: usize) -> i64 {
        self.instance
            .fitting(request, machine)
            .saturating_sub(self.units(request, machine))
    }

    /// Whether it has bandwidth for one more.
    pub(crate) fn has_room(&self, request: usize, machine: usize) -> bool {
        let size = self.instance.request(request).size;
        let there = self.instance.machine(machine);
        if there.spare < size {
            return false;
        }
        let units = self.units(request, machine);
        units < there.slots && units.saturating_add(1).saturating_mul(size) <= there.spare
    }

    /// The worth of the last task of the request that is placed and has no preferences.
    pub(crate) fn last_worth(&self, request: usize) -> Option<i64> {
        let placed = self.placed.get(request).copied()?;
        let last = placed.checked_sub(1)?;
        self.instance.worths_of(request).get(last).copied()
    }

    /// So many more tasks of the request are placed.
    pub(crate) fn place(&mut self, request: usize, count: i64) {
        if let Some(placed) = self.placed.get_mut(request) {
            *placed = placed.saturating_add(usize::try_from(count).unwrap_or(0));
        }
    }

    /// The last task of the request that was placed waits again.
    pub(crate) fn unplace(&mut self, request: usize) {
        if let Some(placed) = self.placed.get_mut(request) {
            *placed = placed.saturating_sub(1);
        }
    }

    /// Takes so many free slots of the machine, or, if none is free, that of its cheapest held task.
    pub(crate) fn take(&mut self, machine: usize, count: i64) -> Tried<()> {
        if !self.use_up(machine, count) {
            return Ok(());
        }
        let price = self.held_price(machine);
        self.set_price(machine, price);
        self.fill(machine)?;
        if self.full_number(machine) == NONE {
            put(&mut self.machine_labels, machine, price);
        }
        Ok(())
    }

    // Takes the slots. Answers whether none is free any more.
    fn use_up(&mut self, machine: usize, count: i64) -> bool {
        let Some(slots) = self.slots.get_mut(machine) else {
            return false;
        };
        if slots.free > 0 {
            slots.free = slots.free.saturating_sub(count);
            if slots.free > 0 {
                return false;
            }
            self.exits.free.set(machine, LEAST);
        } else {
            slots.gone = slots.gone.saturating_add(1);
        }
        true
    }

    // The next slot of the machine, of which none is free, costs so much.
    fn set_price(&mut self, machine: usize, price: i64) {
        let Some(slots) = self.slots.get_mut(machine) else {
            return;
        };
        slots.price = price;
        if slots.rank != NONE {
            self.exits.kept.set(slots.rank, price.saturating_neg());
        }
    }

    /// So many more tasks of the request go to the machine, or fewer if that is below 0.
    pub(crate) fn add_units(&mut self, request: usize, machine: usize, count: i64) -> Tried<()> {
        if count < 0 {
            self.forget_exit(request, machine);
        }
        self.add_to_share(request, machine, count)?;
        if self.full_number(machine) == NONE {
            self.fill(machine)
        } else {
            self.mark(request, machine)
        }
    }

    // Adds to the units of the request at the machine.
    fn add_to_share(&mut self, request: usize, machine: usize, units: i64) -> Tried<()> {
        let Some(shares) = self.shares.get_mut(machine) else {
            return Ok(());
        };
        for share in shares.iter_mut() {
            if share.request == request {
                share.units = share.units.saturating_add(units);
                return Ok(());
            }
        }
        shares.push(RequestUnits { request, units })?;
        Ok(())
    }
}
