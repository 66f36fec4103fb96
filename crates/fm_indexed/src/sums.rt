//! What enters and leaves each node.

ghost use Rattle.std.specs.Prelude.{◌≡◌, ◌<◌, ℕ, vec_len, slice_index, IfOk};
ghost use Rattle.fm_cycles.specs.Units.{inflow_at, outflow_at, units_with_end};
ghost use Rattle.fm_indexed.specs.inner.ArcEnds.{node_at_end};

use crate::indexed_network::IndexedNetwork;
use fm_cycles::indexed_arcs::IndexedArc;
use fm_cycles::lookup::value_or;
use fm_lattice::join::OutOfMemory;
use std::alloc::Global;

/// The number at a place, 0 beyond the end.
pub fn at(numbers: &[u64], place: usize) -> u64
    ensures { result ≡ slice_index numbers.now place }
{
    value_or(numbers, place, 0)
}

/// The sum at a place, 0 beyond the end.
pub fn sum_at(sums: &[u128], place: usize) -> u128
    ensures { result ≡ slice_index sums.now place }
{
    value_or(sums, place, 0)
}

// An end of an arc.
#[derive(Clone, Copy, Drop)]
pub(crate) enum End {
    Source,
    Target,
}

/// The units that enter each node. O(arcs).
pub fn inflow(
    alloc: Global,
    numbered: &IndexedNetwork,
    units: &[u64],
) -> Result<Vec<u128>, OutOfMemory>
    ensures sized { IfOk result (λ sums. vec_len sums ≡ numbered.now.places.end) }
    ensures sums { IfOk result (λ sums. (v : ℕ) → v < numbered.now.places.end
        → slice_index sums.items v ≡ inflow_at numbered.now.arcs.items units.now v) }
{
    sums_of(alloc, numbered, units, End::Target)
}

/// The units that leave each node. O(arcs).
pub fn outflow(
    alloc: Global,
    numbered: &IndexedNetwork,
    units: &[u64],
) -> Result<Vec<u128>, OutOfMemory>
    ensures sized { IfOk result (λ sums. vec_len sums ≡ numbered.now.places.end) }
    ensures sums { IfOk result (λ sums. (v : ℕ) → v < numbered.now.places.end
        → slice_index sums.items v ≡ outflow_at numbered.now.arcs.items units.now v) }
{
    sums_of(alloc, numbered, units, End::Source)
}

// The units of the arcs that have this end at each node.
fn sums_of(
    alloc: Global,
    numbered: &IndexedNetwork,
    units: &[u64],
    end: End,
) -> Result<Vec<u128>, OutOfMemory>
    ensures sized { IfOk result (λ sums. vec_len sums ≡ numbered.now.places.end) }
    ensures sums { IfOk result (λ sums. (v : ℕ) → v < numbered.now.places.end
        → slice_index sums.items v ≡ units_with_end (node_at_end end) numbered.now.arcs.items units.now v) }
{
    let mut sums = vec![in alloc; 0u128; numbered.places.end]?;
    for (place, arc) in numbered.arcs.iter().enumerate() {
        let sent = at(units, place);
        if sent != 0 {
            sums[end_of(end, arc)] += u128::from(sent);
        }
    }
    Ok(sums)
}

// The node at this end of the arc.
fn end_of(end: End, arc: &IndexedArc) -> usize
    ensures { result ≡ node_at_end end arc.now }
{
    match end {
        End::Source => arc.from,
        End::Target => arc.to,
    }
}
