//! The full machines, over which a task of a request makes room for one of another request.
//!
//! All that costs nothing. So it is enough to know of each request on which full machines it has room, and on which it
//! has tasks: two rows of bits, which are compared 64 machines at a time.

use crate::Tried;
use crate::bit_set::Bits;
use crate::board::Board;
use crate::costs::NONE;
use std::alloc::Global;

/// The full machines with tasks that were placed there, by number.
#[derive(Drop)]
pub(crate) struct Full {
    pub(crate) machines: Vec<usize>,
    /// Of each request, how many of these it has looked at.
    pub(crate) looked: Vec<usize>,
    /// Of each request, which of those that it has looked at have room for one more task of it.
    pub(crate) room: Bits,
    /// Of each request, which have tasks of it.
    pub(crate) units: Bits,
    /// The requests with tasks there.
    pub(crate) active: Vec<usize>,
    pub(crate) is_active: Vec<bool>,
}

impl Full {
    /// No machine is full, for so many requests and machines.
    pub(crate) fn none(alloc: Global, requests: usize, machines: usize) -> Tried<Full> {
        Ok(Full {
            machines: Vec::new(alloc),
            looked: vec![in alloc; 0; requests]?,
            room: Bits::of(alloc, requests, machines)?,
            units: Bits::of(alloc, requests, machines)?,
            active: Vec::new(alloc),
            is_active: vec![in alloc; false; requests]?,
        })
    }

    /// The machine of the number among the full ones.
    pub(crate) fn machine(&self, full: usize) -> usize {
        self.machines.get(full).copied().unwrap_or(NONE)
    }

    // How many full machines the request has looked at.
    fn looked(&self, request: usize) -> usize {
        self.looked.get(request).copied().unwrap_or(0)
    }

    // The request has tasks there.
    fn set_active(&mut self, request: usize) -> Tried<()> {
        let Some(is_active) = self.is_active.get_mut(request) else {
            return Ok(());
        };
        if !*is_active {
            *is_active = true;
            self.active.push(request)?;
        }
        Ok(())
    }
}

impl Board {
    /// Numbers the machine among the full ones, if it is full and tasks were placed there.
    pub(crate) fn fill(&mut self, machine: usize) -> Tried<()> {
        let count = self.shares_of(machine).len();
        if count == 0 && !self.movable.has_any(machine) {
            return Ok(());
        }
        let full = self.full.machines.len();
        let Some(slots) = self.slots.get_mut(machine) else {
            return Ok(());
        };
        if slots.free > 0 || slots.full != NONE {
            return Ok(());
        }
        slots.full = full;
        self.full.machines.push(machine)?;
        self.movable.add_full(machine, full)?;
        for place in 0..count {
            self.mark(self.share(machine, place).request, machine)?;
        }
        Ok(())
    }

    /// Brings the request's bits of a full machine up to date.
    pub(crate) fn mark(&mut self, request: usize, machine: usize) -> Tried<()> {
        let full = self.full_number(machine);
        let has_units = self.units(request, machine) > 0;
        self.full.units.set(request, full, has_units);
        if has_units {
            self.full.set_active(request)?;
        }
        if full < self.full.looked(request) {
            let has_room = self.has_room(request, machine);
            self.full.room.set(request, full, has_room);
        }
        Ok(())
    }

    /// Brings the request's room up to the full machines that there are.
    pub(crate) fn look(&mut self, request: usize) {
        let count = self.full.machines.len();
        for full in self.full.looked(request)..count {
            let has_room = self.has_room(request, self.full.machine(full));
            self.full.room.set(request, full, has_room);
        }
        if let Some(looked) = self.full.looked.get_mut(request) {
            *looked = count;
        }
    }
}
