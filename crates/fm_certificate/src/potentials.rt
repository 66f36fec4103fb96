//! Potentials of nodes, which show that a flow is least.
//!
//! In a certificate none is beyond 2^100 in size, so that each reduced cost fits 128 bits. They are in node order, so
//! one walk along the network's nodes shows whether each has its potential.

ghost use Rattle.std.specs.Prelude.{◌≡◌, ◌↔◌, ◌<◌, ◌^◌, [], length, IsTrue, OnOk, OnErr};
ghost use Rattle.fm_lattice.specs.Maps.{lookup, put, keep_new, IsRising};
ghost use Rattle.fm_net.specs.Nodes.{node_cmp};
ghost use Rattle.fm_certificate.specs.Certificates.{potential_in};
ghost use Rattle.fm_certificate.specs.inner.Checks.{AreOf};

use fm_lattice::join::OutOfMemory;
use fm_lattice::sorted_vec::{get, insert};
use fm_net::network::Network;
use fm_net::node::Node;
use std::alloc::Global;
use std::marker::Model;

// The greatest size of a potential that a certificate may have.
const GREATEST: u128 = 1 << 100;

/// Potentials for nodes: a finite map, as pairs in order of their nodes.
#[derive(Debug, Drop)]
pub struct Potentials {
    values: Vec<(Node, i128)>,
}

impl Model for Potentials {
    ghost use Rattle.std.specs.Prelude.{List, ℤ};
    ghost use Rattle.fm_lattice.specs.Maps.{IsRising};
    ghost use Rattle.fm_net.specs.declared.node.Node.{Node as NodeName};
    ghost use Rattle.fm_net.specs.Nodes.{node_cmp};

    ghost Value = { List (NodeName × ℤ) };

    ghost view = { λ a. a.values.items };

    ghost invariant = { λ a. IsRising node_cmp a.values.items };
}

impl Potentials {
    /// Potentials of no node.
    pub fn new(alloc: Global) -> Self
        ensures { result ≡ [] }
    {
        Potentials {
            values: Vec::new(alloc),
        }
    }

    /// These potentials, by their nodes. The caller must pass nodes that rise. Allocates nothing. O(1).
    pub fn of(values: Vec<(Node, i128)>) -> Self
        requires { IsRising node_cmp values.items }
        ensures { result ≡ values.items }
    {
        Potentials { values }
    }

    /// Sets the node's potential. If memory runs out, the potentials are unchanged. Amortised O(1) for a node
    /// after the last, and O(log n) for one that has a potential; for any other, those after it move, in O(n).
    pub fn put(&mut self, node: Node, potential: i128) -> Result<(), OutOfMemory>
        ensures ok { OnOk result (self.new ≡ put node_cmp keep_new node potential self.old) }
        ensures err { OnErr result (self.new ≡ self.old) }
    {
        insert(&mut self.values, node, potential)?;
        Ok(())
    }

    /// The node's potential, if it has one. O(log n).
    pub fn at(&self, node: &Node) -> Option<i128>
        ensures { result ≡ lookup node_cmp node.now self.now }
    {
        get(&self.values, node)
    }

    /// The node's potential; 0 if it has none. O(log n).
    pub(crate) fn or_zero(&self, node: &Node) -> i128
        ensures { result ≡ potential_in self.now node.now }
    {
        self.at(node).unwrap_or(0)
    }

    /// What is known of all potentials: their nodes rise.
    pub fn known(&self)
        ensures rises { IsRising node_cmp self.now }
    {
        let _ = &self.values;
    }

    /// How many nodes have a potential.
    pub fn len(&self) -> usize
        ensures len { result ≡ length self.now }
        ensures fits { result < 2 ^ 63 }
    {
        self.values.len()
    }

    /// Whether no node has a potential.
    pub fn is_empty(&self) -> bool
        ensures { IsTrue result ↔ (length self.now ≡ 0) }
    {
        self.values.is_empty()
    }

    /// Whether these are potentials of exactly the network's nodes, none beyond 2^100 in size. O(n).
    pub(crate) fn are_of(&self, network: &Network) -> bool
        ensures { IsTrue result ↔ AreOf self.now network.now.nodes }
    {
        let mut values = self.values.iter();
        for node in network.nodes() {
            let Some((name, potential)) = values.next() else {
                return false;
            };
            if *name != node || potential.unsigned_abs() > GREATEST {
                return false;
            }
        }
        values.next().is_none()
    }
}
