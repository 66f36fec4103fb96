//! The units on the last arcs of all paths, to the sink.

use crate::lenient::put;
use fm_indexed::indexed_network::IndexedNetwork;
use fm_indexed::node_ranges::NodeKind;
use fm_indexed::sums::{inflow, sum_at};
use fm_lattice::join::OutOfMemory;
use std::alloc::Global;

/// Sends on to the sink what enters jobs and machines. O(arcs).
pub(crate) fn drain(
    alloc: Global,
    numbered: &IndexedNetwork,
    units: &mut [u64],
) -> Result<(), OutOfMemory> {
    let entered = inflow(alloc, numbered, units)?;
    for (number, arc) in numbered.arcs.iter().enumerate() {
        if let NodeKind::Sink = numbered.places.kind(arc.to) {
            let sent = u64::try_from(sum_at(&entered, arc.from));
            put(units, number, sent.unwrap_or(u64::MAX));
        }
    }
    Ok(())
}
