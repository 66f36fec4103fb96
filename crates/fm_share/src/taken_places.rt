//! How many places are taken on each machine.

ghost use Rattle.std.specs.Prelude.{◌≡◌, ◌==◌, ◌&&◌, ◌+◌, ℕ, cond, nat_lt, IfOk, OnOk};
ghost use Rattle.fm_share.specs.inner.TakenPlaces.{taken_on};

use fm_lattice::join::OutOfMemory;
use fm_records::ids::MachineId;
use std::alloc::Global;
use std::collections::BTreeMap;

/// How many places are taken on each machine; 0 on those where none is.
#[derive(Drop)]
pub(crate) struct TakenPlaces {
    pub(crate) by_machine: BTreeMap<MachineId, u32>,
}

impl TakenPlaces {
    /// None is taken anywhere. It allocates nothing.
    pub(crate) fn new(alloc: Global) -> TakenPlaces
        ensures { (m : ℕ) → taken_on result m ≡ 0 }
    {
        TakenPlaces {
            by_machine: BTreeMap::new(alloc),
        }
    }

    /// Takes a place on the machine, if fewer than the limit are taken there, and answers whether. O(log m) for m
    /// machines.
    pub(crate) fn take(&mut self, machine: MachineId, each: u32) -> Result<bool, OutOfMemory>
        ensures taken { IfOk result (λ taken. taken ≡ nat_lt (taken_on self.old machine) each) }
        ensures counts { OnOk result ((m : ℕ) → taken_on self.new m
            ≡ taken_on self.old m + cond (machine == m && nat_lt (taken_on self.old m) each) 1 0) }
    {
        let taken = self.by_machine.get(&machine).copied().unwrap_or(0);
        if taken >= each {
            return Ok(false);
        }
        self.by_machine.insert(machine, taken + 1)?;
        Ok(true)
    }
}
