//! Proposals in one list, as packets have them, and by attempt, as knowledge has them.
//!
//! Knowledge groups the proposals of an attempt, so that its winner is found at once. A packet has one list under one
//! count, as for all records, in the order of task, attempt and coordinator.

ghost use Rattle.std.specs.Prelude.{◌≡◌, ◌++◌, List, map, OnOk, IfOk};
ghost use Rattle.fm_lattice.specs.Maps.{IsMap, IsRising};
ghost use Rattle.fm_records.specs.Orders.{attempt_cmp};
ghost use Rattle.fm_records.specs.OpsOfTable.{IsFull};
ghost use Rattle.fm_wire.specs.Grammar.{entry_cmp, flat_of, flat_at};

use fm_lattice::constructors::Min;
use fm_lattice::join::OutOfMemory;
use fm_lattice::map::JoinMap;
use fm_records::ids::{CoordId, TaskId};
use fm_records::records::{Proposals, Spot};
use std::alloc::Global;

// Proposals in one list, by task, attempt and coordinator.
pub(crate) type FlatProposals = JoinMap<((TaskId, u32), CoordId), Min<Spot>>;

// The proposals in one list. O(n), since each comes after those before it.
pub(crate) fn entries_in(alloc: Global, proposals: &Proposals) -> Result<FlatProposals, OutOfMemory>
    ensures { IfOk result (λ entries. entries ≡ flat_of proposals.now) }
{
    let mut entries = JoinMap::new(alloc);
    for (attempt, spots) in proposals.iter() {
        add_entries(&mut entries, attempt, spots)?;
    }
    Ok(entries)
}

// Adds the entries for the attempt, which come after all that are there.
fn add_entries(
    entries: &mut FlatProposals,
    attempt: &(TaskId, u32),
    spots: &JoinMap<CoordId, Min<Spot>>,
) -> Result<(), OutOfMemory>
    requires { IsRising entry_cmp (entries.old ++ flat_at attempt.now spots.now) }
    ensures { OnOk result (entries.new ≡ entries.old ++ flat_at attempt.now spots.now) }
{
    for (coordinator, spot) in spots.iter() {
        entries.put((*attempt, *coordinator), *spot)?;
    }
    Ok(())
}

// The proposals of the list. O(n log n).
pub(crate) fn proposals_in(alloc: Global, entries: &FlatProposals) -> Result<Proposals, OutOfMemory>
    ensures entries { IfOk result (λ proposals. flat_of proposals ≡ entries.now) }
    ensures full { IfOk result (λ proposals. IsMap attempt_cmp IsFull proposals) }
{
    let mut proposals = JoinMap::new(alloc);
    for (key, spot) in entries.iter() {
        let mut spots = JoinMap::new(alloc);
        spots.put(key.1, *spot)?;
        proposals.put(key.0, spots)?;
    }
    Ok(proposals)
}
