//! Labels of a label-correcting search: the cost at each node, and its parent, the step by which the cost fell last.
//!
//! Labels are corrected in place, one arc after another, so within one sweep a cost falls along all arcs of a walk that
//! come in its order. Sweeps go forwards and backwards by turns (Yen, 1970). Only a lesser cost replaces a label, so a
//! cycle of parents is always one of negative cost.

ghost use Rattle.std.specs.Prelude.{◌≡◌, ◌<◌, ◌^◌, vec_len, length, ℕ, ◌≤ℤ◌, pos};
ghost use Rattle.fm_cycles.specs.Walks.{AreBounded};
ghost use Rattle.fm_cycles.specs.Residual.{residual, AreArcs};
ghost use Rattle.fm_cycles.specs.Found.{costs_in};
ghost use Rattle.fm_cycles.specs.inner.Labels.{costs_of, IsLoweredBy, KeepsFallen, HasFallen, IsRelaxed, IsLabelSweep, IsBoundedBelow};

use crate::indexed_arcs::{IndexedArc, ResidualArc};
use crate::lookup::{cost_at, units_at};

/// The cost at each node, its parent (the step by which the cost fell last, none before it falls), and some node whose
/// cost fell.
#[derive(Debug, Drop)]
pub(crate) struct Labels {
    pub(crate) costs: Vec<i128>,
    pub(crate) parents: Vec<Option<ResidualArc>>,
    pub(crate) fell: Option<usize>,
}

// Makes the step the node's parent, if it can be taken and the cost by it is less than the node's. A tie changes
// nothing.
fn lower(labels: &mut Labels, can: bool, node: usize, cost: i128, step: ResidualArc)
    requires costs { node < vec_len labels.old.costs }
    requires parents { node < vec_len labels.old.parents }
    ensures costs { vec_len labels.new.costs ≡ vec_len labels.old.costs }
    ensures parents { vec_len labels.new.parents ≡ vec_len labels.old.parents }
    ensures lowered { IsLoweredBy can node cost step labels.old labels.new }
    ensures fell { KeepsFallen labels.old labels.new }
{
    if can && cost < labels.costs[node] {
        labels.costs[node] = cost;
        labels.parents[node] = Some(step);
        labels.fell = Some(node);
    }
}

/// Relaxes both steps over an arc, the one backwards from what the one forwards left. At most one of them lowers a
/// cost.
pub(crate) fn relax(arcs: &[IndexedArc], units: &[u64], place: usize, labels: &mut Labels)
    requires arcs { AreArcs arcs.now (vec_len labels.old.costs) }
    requires place { place < length arcs.now }
    requires small { AreBounded (2 ^ 100) (costs_of labels.old) }
    requires parents { vec_len labels.old.parents ≡ vec_len labels.old.costs }
    ensures costs { vec_len labels.new.costs ≡ vec_len labels.old.costs }
    ensures parents { vec_len labels.new.parents ≡ vec_len labels.old.costs }
    ensures relaxed { IsRelaxed (residual arcs.now units.now) place labels.old labels.new }
{
    let arc = arcs[place];
    let sent = units_at(units, place);
    let ahead = cost_at(&labels.costs, arc.from) + i128::from(arc.cost);
    let step = ResidualArc {
        arc: place,
        forward: true,
    };
    lower(labels, sent < arc.capacity, arc.to, ahead, step);
    let back = cost_at(&labels.costs, arc.to) - i128::from(arc.cost);
    let step = ResidualArc {
        arc: place,
        forward: false,
    };
    lower(labels, sent > 0, arc.from, back, step);
}

/// Relaxes each arc once, the last one first if so asked: alternating sweeps follow walks in both orders (Yen, 1970).
/// Allocates nothing. O(arcs).
pub(crate) fn sweep(arcs: &[IndexedArc], units: &[u64], backwards: bool, labels: &mut Labels)
    requires arcs { AreArcs arcs.now (vec_len labels.old.costs) }
    requires low { IsBoundedBelow (2 ^ 97) (costs_of labels.old) }
    requires high { (v : ℕ) → costs_of labels.old v ≤ℤ pos (2 ^ 64) }
    requires parents { vec_len labels.old.parents ≡ vec_len labels.old.costs }
    ensures costs { vec_len labels.new.costs ≡ vec_len labels.old.costs }
    ensures parents { vec_len labels.new.parents ≡ vec_len labels.old.costs }
    ensures swept { IsLabelSweep (residual arcs.now units.now) labels.old labels.new }
    ensures fell { HasFallen labels.new.fell (vec_len labels.old.costs) (costs_of labels.old) (costs_of labels.new) }
{
    labels.fell = None;
    for turn in 0..arcs.len() {
        let place = if backwards {
            arcs.len() - 1 - turn
        } else {
            turn
        };
        relax(arcs, units, place, labels);
    }
}
