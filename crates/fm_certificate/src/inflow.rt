//! What enters each node, as running totals, since the arcs that enter a node lie anywhere in a flow.
//!
//! Without them, each question would be a walk over all arcs. They lie in node order, so a put finds and changes one of them in
//! O(log n). Room for a new total is made before the units change, so that a refusal leaves the flow as it was.

ghost use Rattle.std.specs.Prelude.{◌≡◌, ◌≤◌, ◌<◌, ◌+◌, ◌^◌, cond, IsSome, OnOk};
ghost use Rattle.fm_lattice.specs.Maps.{lookup, IsRising};
ghost use Rattle.fm_net.specs.declared.node.Node.{Node as NodeName};
ghost use Rattle.fm_net.specs.Nodes.{node_cmp};
ghost use Rattle.fm_net.specs.NetworkEquality.{same_node};
ghost use Rattle.fm_certificate.specs.Totals.{total_in};

use fm_lattice::join::OutOfMemory;
use fm_lattice::sorted_vec::{get, insert, set_within};
use fm_net::node::Node;

/// The total of the node; 0 if there is none. O(log n).
pub(crate) fn total_of(totals: &[(Node, u128)], node: &Node) -> u128
    requires { IsRising node_cmp totals.now }
    ensures { result ≡ total_in totals.now node.now }
{
    get(totals, node).unwrap_or(0)
}

/// Makes room for units at the node. No total changes. O(log n), and the totals after a new one move.
pub(crate) fn make_room(
    totals: &mut Vec<(Node, u128)>,
    node: Node,
    units: u64,
) -> Result<(), OutOfMemory>
    requires { IsRising node_cmp totals.old.items }
    ensures rises { IsRising node_cmp totals.new.items }
    ensures same { (n : NodeName) → total_in totals.new.items n ≡ total_in totals.old.items n }
    ensures room { OnOk result (0 < units → IsSome (lookup node_cmp node totals.new.items)) }
{
    if units != 0 && get(totals, &node).is_none() {
        insert(totals, node, 0)?;
    }
    Ok(())
}

/// Takes units of the node's total away, and adds others, for which there is room. O(log n).
pub(crate) fn change(totals: &mut Vec<(Node, u128)>, node: Node, old: u64, new: u64)
    requires rising { IsRising node_cmp totals.old.items }
    requires room { 0 < new → IsSome (lookup node_cmp node totals.old.items) }
    requires part { old ≤ total_in totals.old.items node }
    requires fits { total_in totals.old.items node + 2 ^ 64 < 2 ^ 128 }
    ensures rises { IsRising node_cmp totals.new.items }
    ensures totals { (n : NodeName) → total_in totals.new.items n + cond (same_node node n) old 0
        ≡ total_in totals.old.items n + cond (same_node node n) new 0 }
{
    if old == new {
        return;
    }
    let total = total_of(totals, &node) - u128::from(old) + u128::from(new);
    set_within(totals, node, total);
}
