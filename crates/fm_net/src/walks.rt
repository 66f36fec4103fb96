//! The walks over a network's nodes and arcs.

ghost use Rattle.std.specs.Prelude.{◌≡◌, length, ◌<◌, ◌^◌};
ghost use Rattle.std.specs.Iterator.{YieldsFirst, YieldsFirstBy, item_count};
ghost use Rattle.std.specs.Map.{keys_of};
ghost use Rattle.fm_net.specs.inner.NetworkIter.{arc_entry};

use crate::hybrid_map::{HybridMap, Pairs};
use crate::node::Node;
use std::marker::Model;

/// The nodes that are left of a walk, in node order.
#[derive(Drop)]
pub struct Nodes<'a> {
    rest: Pairs<'a, Node, ()>,
}

impl<'a> Model for Nodes<'a> {
    ghost use Rattle.std.specs.Prelude.{List};
    ghost use Rattle.fm_net.specs.declared.node.Node.{Node as NodeName};
    ghost use Rattle.std.specs.Map.{keys_of};

    ghost Value = { List NodeName };

    ghost view = { λ s. keys_of s.rest };
}

impl<'a> Nodes<'a> {
    pub(crate) fn of(nodes: &'a HybridMap<Node, ()>) -> Self
        ensures all { result ≡ keys_of nodes.now }
        ensures fits { length (keys_of nodes.now) < 2 ^ 63 }
    {
        Nodes { rest: nodes.iter() }
    }
}

impl<'a> Iterator for Nodes<'a> {
    type Item = Node;

    ghost next_gives = { YieldsFirst (λ s. s) };

    ghost remaining = { item_count (λ s. s) };

    fn next(&mut self) -> Option<Node> {
        match self.rest.next() {
            Some((node, ())) => Some(*node),
            None => None,
        }
    }
}

/// The arcs that are left of a walk, as (from, to, capacity, cost), by (from, to).
#[derive(Drop)]
pub struct Arcs<'a> {
    rest: Pairs<'a, (Node, Node), (u64, u32)>,
}

impl<'a> Model for Arcs<'a> {
    ghost use Rattle.std.specs.Prelude.{ℕ, List};
    ghost use Rattle.fm_net.specs.declared.node.Node.{Node as NodeName};

    ghost Value = { List ((NodeName × NodeName) × (ℕ × ℕ)) };

    ghost view = { λ s. s.rest };
}

impl<'a> Arcs<'a> {
    pub(crate) fn of(arcs: &'a HybridMap<(Node, Node), (u64, u32)>) -> Self
        ensures all { result ≡ arcs.now }
        ensures fits { length arcs.now < 2 ^ 63 }
    {
        Arcs { rest: arcs.iter() }
    }
}

impl<'a> Iterator for Arcs<'a> {
    type Item = (Node, Node, u64, u32);

    ghost next_gives = { YieldsFirstBy arc_entry (λ s. s) };

    ghost remaining = { item_count (λ s. s) };

    fn next(&mut self) -> Option<(Node, Node, u64, u32)> {
        match self.rest.next() {
            Some(((from, to), (capacity, cost))) => Some((*from, *to, *capacity, *cost)),
            None => None,
        }
    }
}

/// The arcs that are left of a walk, as the network keeps them: the ends, with the capacity and the cost, by (from, to).
#[derive(Drop)]
pub struct ArcEntries<'a> {
    rest: Pairs<'a, (Node, Node), (u64, u32)>,
}

impl<'a> Model for ArcEntries<'a> {
    ghost use Rattle.std.specs.Prelude.{ℕ, List};
    ghost use Rattle.fm_net.specs.declared.node.Node.{Node as NodeName};

    ghost Value = { List ((NodeName × NodeName) × (ℕ × ℕ)) };

    ghost view = { λ s. s.rest };
}

impl<'a> ArcEntries<'a> {
    pub(crate) fn of(arcs: &'a HybridMap<(Node, Node), (u64, u32)>) -> Self
        ensures all { result ≡ arcs.now }
        ensures fits { length arcs.now < 2 ^ 63 }
    {
        ArcEntries { rest: arcs.iter() }
    }
}

impl<'a> Iterator for ArcEntries<'a> {
    type Item = &'a ((Node, Node), (u64, u32));

    ghost next_gives = { YieldsFirstBy (λ arc. arc.now) (λ s. s) };

    ghost remaining = { item_count (λ s. s) };

    fn next(&mut self) -> Option<&'a ((Node, Node), (u64, u32))> {
        self.rest.next()
    }
}
