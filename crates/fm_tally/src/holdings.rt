//! What machines hold, counted as tasks come, so that one walk over the tasks gives the load of every machine.

ghost use Rattle.std.specs.Prelude.{◌≡◌, ◌<◌, ◌+◌, ◌^◌, ℕ, IfOk, option_map};
ghost use Rattle.std.specs.Ordering.{nat_cmp};
ghost use Rattle.fm_lattice.specs.Maps.{lookup};
ghost use Rattle.fm_records.specs.Options.{or_else};
ghost use Rattle.fm_records.specs.declared.records.Spot.{Spot as At};
ghost use Rattle.fm_tally.specs.inner.Holdings.{requests_in, tasks_in, share_by, placed_by, names_open_machine, holding_nothing, nothing_on};

use crate::sorted::Sorted;
use fm_know::knowledge::Knowledge;
use fm_know::record_facts::state_in;
use fm_lattice::join::OutOfMemory;
use fm_records::ids::MachineId;
use fm_records::records::{MachineRec, Spot};
use std::alloc::Global;

/// A machine, with the sum of the requests of the tasks that it holds, and how many they are.
#[derive(Clone, Copy, Drop)]
pub(crate) struct Holding {
    pub(crate) is_open: bool,
    pub(crate) incarnation: u64,
    pub(crate) requests: u128,
    pub(crate) tasks: u64,
}

/// The holding of each machine that is known.
#[derive(Drop)]
pub(crate) struct Holdings {
    pub(crate) by_machine: Sorted<MachineId, Holding>,
}

impl Holdings {
    /// The known machines, of which none holds anything. O(n).
    pub(crate) fn none(alloc: Global, knowledge: &Knowledge) -> Result<Holdings, OutOfMemory>
        ensures { IfOk result (λ holdings. (m : ℕ)
            → lookup nat_cmp m holdings.by_machine ≡ option_map nothing_on (lookup nat_cmp m knowledge.now.machines)) }
    {
        let mut found = Vec::new(alloc);
        for (machine, record) in knowledge.machines().iter() {
            found.push((*machine, nothing_on(record)))?;
        }
        Ok(Holdings {
            by_machine: Sorted::of(found),
        })
    }

    /// What the machine holds, of which the place is near. O(1) if it is there, else O(log n).
    pub(crate) fn of_machine(&self, near: usize, machine: MachineId) -> Holding
        ensures { result ≡ or_else holding_nothing (lookup nat_cmp machine self.now.by_machine) }
    {
        self.by_machine.get_near(near, &machine).unwrap_or(Holding {
            is_open: false,
            incarnation: 0,
            requests: 0,
            tasks: 0,
        })
    }

    /// Counts a task with the request at the machine of the spot, and answers the machine, if it is open and at that incarnation.
    /// O(1) if the machine is at the place near, else O(log n).
    pub(crate) fn hold(&mut self, near: usize, spot: Spot, request: u32) -> Option<MachineId>
        requires requests_fit { (m : ℕ) → requests_in self.old m + request < 2 ^ 128 }
        requires tasks_fit { (m : ℕ) → tasks_in self.old m + 1 < 2 ^ 64 }
        ensures placed { result ≡ placed_by self.old spot }
        ensures requests { (m : ℕ) → requests_in self.new m ≡ requests_in self.old m + share_by result m request }
        ensures tasks { (m : ℕ) → tasks_in self.new m ≡ tasks_in self.old m + share_by result m 1 }
        ensures same { (s : At) → names_open_machine self.new s ≡ names_open_machine self.old s }
    {
        let at = self.by_machine.index_near(near, &spot.machine)?;
        let holding = self.by_machine.value(at, &spot.machine);
        if !holding.is_open || holding.incarnation != spot.incarnation {
            return None;
        }
        let more = Holding {
            requests: holding.requests + u128::from(request),
            tasks: holding.tasks + 1,
            ..holding
        };
        self.by_machine.replace(at, spot.machine, more);
        Some(spot.machine)
    }
}

// The machine of the record, which holds nothing.
fn nothing_on(machine: &MachineRec) -> Holding
    ensures { result ≡ nothing_on machine.now }
{
    Holding {
        is_open: state_in(machine).is_some(),
        incarnation: machine.0,
        requests: 0,
        tasks: 0,
    }
}
