//! The task paths of an earlier flow that are still complete and fit, and all other tasks unscheduled.
//!
//! A flow does not say which of the units that a request sends on is whose. So a task with a unit on its arc to a
//! request takes up any unit there that no task has taken up yet. A cursor of each request passes each arc once.

use crate::drain::drain;
use crate::lenient::put;
use crate::node_arcs::{arcs_between, arcs_of_node, first_from};
use fm_cycles::indexed_arcs::IndexedArc;
use fm_cycles::lookup::value_or;
use fm_indexed::indexed_network::IndexedNetwork;
use fm_indexed::node_ranges::NodeKind;
use fm_indexed::sums::at;
use fm_lattice::join::OutOfMemory;
use std::alloc::Global;

// The units that were taken up, and what is left.
#[derive(Debug, Drop)]
struct Kept<'a> {
    numbered: &'a IndexedNetwork,
    given: &'a [u64],
    units: Vec<u64>,
    // Of each machine, its slots that no task has taken up.
    slots: Vec<u64>,
    // Of each request, its first arc that may have units which no task has taken up.
    cursors: Vec<usize>,
}

/// The units of a flow with the task paths of the given units that are still complete and fit. All other tasks are unscheduled. O(arcs).
pub(crate) fn kept_units(
    alloc: Global,
    numbered: &IndexedNetwork,
    given: &[u64],
) -> Result<Vec<u64>, OutOfMemory> {
    let mut kept = Kept::new(alloc, numbered, given)?;
    let mut first = first_from(numbered, numbered.places.tasks);
    for task in numbered.places.tasks..numbered.places.end {
        let arcs = arcs_of_node(numbered, task, first);
        kept.keep(arcs, first);
        first = first.saturating_add(arcs.len());
    }
    let mut units = kept.units;
    drain(alloc, numbered, &mut units)?;
    Ok(units)
}

impl<'a> Kept<'a> {
    // No task has taken up anything.
    fn new(
        alloc: Global,
        numbered: &'a IndexedNetwork,
        given: &'a [u64],
    ) -> Result<Self, OutOfMemory> {
        let places = &numbered.places;
        let mut slots = Vec::with_capacity(alloc, places.machines_len())?;
        for arc in arcs_between(numbered, places.machines, places.tasks) {
            slots.push(arc.capacity)?;
        }
        let mut cursors = Vec::with_capacity(alloc, places.requests_len())?;
        for request in places.requests..places.machines {
            cursors.push(first_from(numbered, request))?;
        }
        Ok(Kept {
            numbered,
            given,
            units: vec![in alloc; 0u64; numbered.arcs.len()]?,
            slots,
            cursors,
        })
    }

    // Sends the task whose arcs these are, from this number on, on its path in the given units, or to its job.
    fn keep(&mut self, arcs: &[IndexedArc], first: usize) {
        let mut sent = first;
        for (place, arc) in arcs.iter().enumerate() {
            let number = first.saturating_add(place);
            if at(self.given, number) > 0 && self.take_up(arc.to) {
                sent = number;
                break;
            }
        }
        put(&mut self.units, sent, 1);
    }

    // Takes up a unit from the node to the sink. Answers whether there is one.
    fn take_up(&mut self, node: usize) -> bool {
        match self.numbered.places.kind(node) {
            NodeKind::Machine(machine) => self.take_slot(machine),
            NodeKind::Request(request) => self.take_unit(request),
            NodeKind::Sink | NodeKind::Unscheduled(_) | NodeKind::Task(_) => false,
        }
    }

    // Takes a slot of the machine, if one is left.
    fn take_slot(&mut self, machine: usize) -> bool {
        let left = at(&self.slots, machine);
        if left == 0 {
            return false;
        }
        put(&mut self.slots, machine, left - 1);
        true
    }

    // Takes up a unit of the request.
    fn take_unit(&mut self, request: usize) -> bool {
        let node = self.numbered.places.requests.saturating_add(request);
        let first = value_or(&self.cursors, request, 0);
        for number in first..self.numbered.arcs.len() {
            let Some(arc) = self.numbered.arcs.get(number).copied() else {
                break;
            };
            if arc.from != node {
                break;
            }
            put(&mut self.cursors, request, number);
            if self.take_arc(&arc, number) {
                return true;
            }
        }
        false
    }

    // Takes up a unit on the arc from a request to a machine, if one is left and fits.
    fn take_arc(&mut self, arc: &IndexedArc, number: usize) -> bool {
        let taken = at(&self.units, number);
        if taken >= at(self.given, number).min(arc.capacity) {
            return false;
        }
        let machine = arc.to.saturating_sub(self.numbered.places.machines);
        if !self.take_slot(machine) {
            return false;
        }
        put(&mut self.units, number, taken.saturating_add(1));
        true
    }
}
