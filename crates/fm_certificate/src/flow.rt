//! Flows: units on arcs, with what enters each node beside them.
//!
//! To check a flow is to compare what enters and what leaves each node. The arcs that leave a node lie side by side,
//! since keys are in order of where arcs come from (`outflow`). Those that enter it lie anywhere, so their sum is kept
//! for each node (`inflow`).

ghost use Rattle.std.specs.Prelude.{◌≡◌, ◌≤◌, ◌<◌, ◌^◌, List, length, IfOk, OnOk, OnErr, [], IsTrue, ◌↔◌};
ghost use Rattle.fm_lattice.specs.Maps.{lookup, put, keep_new, IsRising};
ghost use Rattle.fm_net.specs.Nodes.{ends_cmp, node_cmp};
ghost use Rattle.fm_certificate.specs.Totals.{source, target, units_at, IsTotalled};

use crate::flow_iter::FlowIter;
use crate::inflow::{change, make_room, total_of};
use crate::outflow::sum_from;
use fm_lattice::join::OutOfMemory;
use fm_lattice::sorted_vec::{get, get_hinted, insert};
use fm_net::node::Node;
use std::alloc::Global;
use std::marker::Model;

/// Units for arcs: a finite map from (from, to), as pairs in order of their keys, so that the arcs that leave a node
/// lie side by side. What enters each node it keeps as running totals, which arcs without units do not touch.
#[derive(Debug, Drop)]
pub struct Flow {
    units: Vec<((Node, Node), u64)>,
    entering: Vec<(Node, u128)>,
}

impl Model for Flow {
    ghost use Rattle.std.specs.Prelude.{List};
    ghost use Rattle.fm_certificate.specs.Totals.{Entry, IsTotalled};

    ghost Value = { List Entry };

    ghost view = { λ a. a.units.items };

    ghost invariant = { λ a. IsTotalled a.units.items a.entering.items };
}

impl Flow {
    /// The flow without a key.
    pub fn new(alloc: Global) -> Self
        ensures { result ≡ [] }
    {
        Flow {
            units: Vec::new(alloc),
            entering: Vec::new(alloc),
        }
    }

    /// The flow of these units, by the ends of their arcs, beside what enters the nodes that they lead to. The caller
    /// must pass ends and nodes that rise, and totals that are what enters. O(1), and allocates nothing.
    pub fn of(units: Vec<((Node, Node), u64)>, entering: Vec<(Node, u128)>) -> Self
        requires { IsTotalled units.items entering.items }
        ensures { result ≡ units.items }
    {
        Flow { units, entering }
    }

    /// Sets the units from one node to the other. If memory runs out, the flow is unchanged. Amortised O(1) for
    /// no units on a key after the last, and O(log n) for units there or for a key that the flow has. Before any other
    /// new key the keys after it move, in O(n), and so do totals before the first units that enter a node.
    pub fn put(&mut self, from: Node, to: Node, units: u64) -> Result<(), OutOfMemory>
        ensures ok { OnOk result (self.new ≡ put ends_cmp keep_new (from, to) units self.old) }
        ensures err { OnErr result (self.new ≡ self.old) }
    {
        make_room(&mut self.entering, to, units)?;
        let old = insert(&mut self.units, (from, to), units)?.unwrap_or(0);
        change(&mut self.entering, to, old, units);
        Ok(())
    }

    /// The units from one node to the other, if the flow has this key. O(log n).
    pub fn units(&self, from: Node, to: Node) -> Option<u64>
        ensures { result ≡ lookup ends_cmp (from, to) self.now }
    {
        get(&self.units, &(from, to))
    }

    /// As `units`, whatever place is given: if the key has that place among the flow's keys, as the arcs of a network
    /// have theirs in turn in a flow of this network, it is found at once. O(log n) else.
    pub fn units_near(&self, near: usize, from: Node, to: Node) -> Option<u64>
        ensures { result ≡ lookup ends_cmp (from, to) self.now }
    {
        self.units_at(near, &(from, to))
    }

    /// As `units_near`, by the ends of an arc as a network keeps them.
    pub fn units_at(&self, near: usize, ends: &(Node, Node)) -> Option<u64>
        ensures { result ≡ lookup ends_cmp ends.now self.now }
    {
        get_hinted(&self.units, near, ends)
    }

    /// The units, as (from, to, units), by (from, to).
    pub fn iter(&self) -> FlowIter<'_>
        ensures all { result ≡ self.now }
        ensures fits { length self.now < 2 ^ 63 }
    {
        FlowIter::of(&self.units)
    }

    /// What is known of every flow: its keys rise.
    pub fn known(&self)
        ensures rises { IsRising ends_cmp self.now }
    {
        let _ = &self.units;
    }

    /// How many keys there are.
    pub fn len(&self) -> usize
        ensures len { result ≡ length self.now }
        ensures fits { result < 2 ^ 63 }
    {
        self.units.len()
    }

    /// Whether there is no key.
    pub fn is_empty(&self) -> bool
        ensures { IsTrue result ↔ (length self.now ≡ 0) }
    {
        self.units.is_empty()
    }

    /// What leaves the node. O(log n), and the arcs that leave it.
    pub fn leaving(&self, node: &Node) -> u128
        ensures { result ≡ units_at source self.now node.now }
    {
        sum_from(&self.units, node)
    }

    /// What enters the node. O(log n).
    pub fn entering(&self, node: &Node) -> u128
        ensures { result ≡ units_at target self.now node.now }
    {
        total_of(&self.entering, node)
    }
}
