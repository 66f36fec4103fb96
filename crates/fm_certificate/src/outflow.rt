//! The arcs that leave a node, which lie side by side, so that a binary search finds them.

ghost use Rattle.std.specs.Prelude.{◌≡◌, ◌<◌, ◌≤◌, ◌^◌, length, drop};
ghost use Rattle.fm_lattice.specs.Maps.{IsRising, AreValues};
ghost use Rattle.fm_net.specs.Nodes.{ends_cmp};
ghost use Rattle.fm_certificate.specs.Totals.{source, units_at};
ghost use Rattle.fm_certificate.specs.inner.Outflow.{NoneBelow};

use fm_net::node::Node;

// Where the arcs that leave the node begin, or would begin. O(log n).
fn first_from(units: &[((Node, Node), u64)], node: &Node) -> usize
    requires { IsRising ends_cmp units.now }
    ensures in_range { result ≤ length units.now }
    ensures all { units_at source (drop result units.now) node.now ≡ units_at source units.now node.now }
    ensures none_below { NoneBelow node.now (drop result units.now) }
{
    units.partition_point(|entry| entry.0.0.cmp(node).is_lt())
}

/// What leaves the node. O(log n), and the arcs that leave it.
pub(crate) fn sum_from(units: &[((Node, Node), u64)], node: &Node) -> u128
    requires rises { IsRising ends_cmp units.now }
    requires fits { AreValues (λ units. units < 2 ^ 64) units.now }
    requires short { length units.now < 2 ^ 63 }
    ensures { result ≡ units_at source units.now node.now }
{
    let mut sum = 0;
    for entry in &units[first_from(units, node)..] {
        if entry.0.0 != *node {
            return sum;
        }
        sum += u128::from(entry.1);
    }
    sum
}
