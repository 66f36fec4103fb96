//! The numbers of machines: what is found by id in O(1), if ids are spread evenly.

use fm_lattice::join::OutOfMemory;
use fm_records::ids::MachineId;
use fm_tally::guide::{Guide, upper};
use std::alloc::Global;

/// No number.
pub(crate) const NONE: usize = usize::MAX;

/// Machines by id, each with a number.
#[derive(Drop)]
pub(crate) struct Numbers {
    pairs: Vec<(MachineId, usize)>,
    guide: Guide,
}

impl Numbers {
    /// The machines, ids rising. O(n).
    pub(crate) fn of(
        alloc: Global,
        pairs: Vec<(MachineId, usize)>,
    ) -> Result<Numbers, OutOfMemory> {
        let guide = Guide::of_machines(alloc, &pairs)?;
        Ok(Numbers { pairs, guide })
    }

    /// Where the machine may stand among the others by id.
    pub(crate) fn near(&self, machine: MachineId) -> usize {
        self.guide.guess(upper(machine.value()))
    }

    /// The place of the machine among the others by id, and its number.
    pub(crate) fn find(&self, machine: MachineId) -> Option<(usize, usize)> {
        let near = self.near(machine);
        if let Some((there, number)) = self.pairs.get(near) {
            if *there == machine {
                return Some((near, *number));
            }
        }
        self.search(machine)
    }

    // The same, if its id and others agree in their upper half.
    fn search(&self, machine: MachineId) -> Option<(usize, usize)> {
        let place = self
            .pairs
            .binary_search_by_key(&machine, |pair| pair.0)
            .ok()?;
        let pair = self.pairs.get(place)?;
        Some((place, pair.1))
    }

    /// The machines with their numbers, ids rising.
    pub(crate) fn pairs(&self) -> &[(MachineId, usize)] {
        self.pairs.as_slice()
    }
}
