//! Whether numbers are potentials: then no cycle of negative cost is left, and none need be searched for.
//!
//! It is one walk over the arcs. A further unit must save nothing where one fits, and one unit less must save nothing
//! where there is one (complementary slackness). Each search begins with this test, so a first flow that comes with its
//! potentials costs no search.

ghost use Rattle.std.specs.Prelude.{◌≡◌, ◌<◌, ◌^◌, ◌≤ℤ◌, ◌⊎◌, ◌↔◌, false, IsTrue, length, pos};
ghost use lib.Signed.{◌<ℤ◌};
ghost use Rattle.fm_cycles.specs.Walks.{ArePotentials, AreBounded};
ghost use Rattle.fm_cycles.specs.Residual.{residual, AreArcs};
ghost use Rattle.fm_cycles.specs.Found.{costs_in};

use crate::indexed_arcs::IndexedArc;
use crate::lookup::{cost_at, units_at};

// Whether a further unit saves nothing, if it fits, and neither does one less, where a further one costs so much.
fn fits(sent: u64, capacity: u64, more: i128) -> bool
    ensures ahead { IsTrue result → sent < capacity → pos 0 ≤ℤ more }
    ensures back { IsTrue result → 0 < sent → more ≤ℤ pos 0 }
    ensures refuses { result ≡ false → ((sent < capacity) × (more <ℤ pos 0)) ⊎ ((0 < sent) × (pos 0 <ℤ more)) }
{
    if sent < capacity && more < 0 {
        return false;
    }
    sent == 0 || more <= 0
}

/// Whether the numbers are potentials of the units: a further unit over an arc saves nothing, and neither does one
/// less. The caller must pass arcs between the nodes that have numbers, none beyond 2^100 in size. Allocates nothing.
/// O(arcs).
pub fn are_potentials(arcs: &[IndexedArc], units: &[u64], costs: &[i128]) -> bool
    requires arcs { AreArcs arcs.now (length costs.now) }
    requires small { AreBounded (2 ^ 100) (costs_in costs.now) }
    ensures { IsTrue result ↔ ArePotentials (residual arcs.now units.now) (costs_in costs.now) }
{
    for (place, arc) in arcs.iter().enumerate() {
        let sent = units_at(units, place);
        let more = i128::from(arc.cost) + cost_at(costs, arc.from) - cost_at(costs, arc.to);
        if !fits(sent, arc.capacity, more) {
            return false;
        }
    }
    true
}
