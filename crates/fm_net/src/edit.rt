//! Edits of a network.

use crate::node::Node;

/// One call that changes a network, as data: the nodes that an arc joins or the node, and of an arc that is put its
/// capacity and cost. Who makes the edit must meet the premises of that call.
#[derive(Clone, Copy, Debug, PartialEq, Eq, Drop)]
pub enum Edit {
    /// Drops the arc from one node to another.
    DropArc(Node, Node),
    /// Drops a node.
    DropNode(Node),
    /// Puts a node.
    PutNode(Node),
    /// Puts an arc from one node to another, with its capacity and cost, in place of an existing one.
    PutArc(Node, Node, u64, u32),
}
