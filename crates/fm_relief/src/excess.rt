//! The open machines whose tasks request more than their bandwidth.

ghost use Rattle.std.specs.Prelude.{◌≡◌, ◌++◌, option_to_list, IfOk, OnOk};
ghost use Rattle.fm_records.specs.Sets.{with_value};
ghost use Rattle.fm_tally.specs.Tallies.{TallyIsFor};
ghost use Rattle.fm_relief.specs.inner.Excesses.{excess_at, all_excesses};

use fm_know::knowledge::Knowledge;
use fm_lattice::join::{Join, OutOfMemory};
use fm_records::ids::MachineId;
use fm_tally::sorted::Sorted;
use fm_tally::tally::Tally;
use std::alloc::Global;

/// What the tasks on a machine request, where that is more than its bandwidth.
#[derive(Debug, Clone, Copy, Drop)]
pub(crate) struct Excess {
    pub(crate) held: u128,
    pub(crate) nic: u32,
}

/// The machines of which that is so, by id. O(m log m) for m machines.
pub(crate) fn excesses_of(
    alloc: Global,
    knowledge: &Knowledge,
    tally: &Tally,
) -> Result<Sorted<MachineId, Excess>, OutOfMemory>
    requires { TallyIsFor knowledge.now tally.now }
    ensures { IfOk result (λ found. found ≡ all_excesses knowledge.now) }
{
    knowledge.known();
    let mut found = Vec::new(alloc);
    for (machine, _) in knowledge.machines().iter() {
        push_some(&mut found, excess_of(knowledge, tally, *machine))?;
    }
    Ok(Sorted::of(found))
}

// Pushes the row, if there is one.
fn push_some(
    rows: &mut Vec<(MachineId, Excess)>,
    row: Option<(MachineId, Excess)>,
) -> Result<(), OutOfMemory>
    ensures { OnOk result (rows.new.items ≡ rows.old.items ++ option_to_list row) }
{
    if let Some(row) = row {
        rows.push(row)?;
    }
    Ok(())
}

// The row of the machine, if it is open and its tasks request more than its bandwidth.
fn excess_of(
    knowledge: &Knowledge,
    tally: &Tally,
    machine: MachineId,
) -> Option<(MachineId, Excess)>
    requires { TallyIsFor knowledge.now tally.now }
    ensures { result ≡ with_value (excess_at knowledge.now) machine }
{
    let held = tally.machines.get(&machine)?.requests;
    let nic = knowledge.open_state(machine)?.nic;
    if held <= u128::from(nic) {
        return None;
    }
    Some((machine, Excess { held, nic }))
}
