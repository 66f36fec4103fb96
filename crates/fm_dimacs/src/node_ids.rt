//! The IDs of the ends of arcs, in most cases found without a search.
//!
//! Arcs come in order. So an end is mostly that of the arc before, or the node after it. Else a small table says where the
//! node may stand (`node_guesses` of `fm_net`).

ghost use Rattle.std.specs.Prelude.{◌≡◌, IfSome};
ghost use Rattle.fm_records.specs.Rising.{Rises};
ghost use Rattle.fm_net.specs.Nodes.{node_cmp};
ghost use Rattle.fm_dimacs.specs.Text.{id_in};

use fm_lattice::join::OutOfMemory;
use fm_net::node::{Node, order};
use fm_net::node_guesses::NodeGuesses;
use std::alloc::Global;
use std::cmp::Ordering;

/// The IDs of an arc's ends.
#[derive(Clone, Copy, Drop)]
pub(crate) struct Ends {
    pub(crate) source: usize,
    pub(crate) target: usize,
}

/// Where the ends of arcs were found so far.
#[derive(Drop)]
pub(crate) struct FoundIds {
    last: Ends,
    guesses: NodeGuesses,
}

impl FoundIds {
    /// None was found yet, among so many nodes.
    pub(crate) fn none(alloc: Global, nodes: usize) -> Result<FoundIds, OutOfMemory> {
        Ok(FoundIds {
            last: Ends {
                source: 1,
                target: 1,
            },
            guesses: NodeGuesses::none(alloc, nodes)?,
        })
    }

    /// The IDs of an arc's ends. Whatever was found before, they are the same.
    pub(crate) fn ends(&mut self, nodes: &[Node], ends: &(Node, Node)) -> Ends
        requires { Rises node_cmp nodes.now }
        ensures source { result.source ≡ id_in nodes.now ends.now.0 }
        ensures target { result.target ≡ id_in nodes.now ends.now.1 }
    {
        let source = self.id_near(nodes, &ends.0, self.last.source);
        let target = self.id_near(nodes, &ends.1, self.last.target);
        self.last = Ends { source, target };
        Ends { source, target }
    }

    // The node's ID, which is found at once if it is the ID or the next one, or if the guess is right. O(log n) else.
    fn id_near(&mut self, nodes: &[Node], node: &Node, id: usize) -> usize
        requires { Rises node_cmp nodes.now }
        ensures { result ≡ id_in nodes.now node.now }
    {
        if let Some(same) = id_at(nodes, node, id.saturating_sub(1)) {
            return same;
        }
        if let Some(next) = id_at(nodes, node, id) {
            return next;
        }
        if let Some(guessed) = id_at(nodes, node, self.guesses.guess(node)) {
            return guessed;
        }
        let found = id_of(nodes, node);
        self.guesses.keep(node, found.saturating_sub(1));
        found
    }
}

// The node's ID, if it is at the place.
fn id_at(nodes: &[Node], node: &Node, place: usize) -> Option<usize>
    requires { Rises node_cmp nodes.now }
    ensures { IfSome result (λ id. id ≡ id_in nodes.now node.now) }
{
    match nodes.get(place) {
        Some(there) if matches!(order(there, node), Ordering::Equal) => Some(place + 1),
        _ => None,
    }
}

// The node's ID: its place, counted from 1. O(log n).
fn id_of(nodes: &[Node], node: &Node) -> usize
    requires { Rises node_cmp nodes.now }
    ensures { result ≡ id_in nodes.now node.now }
{
    match nodes.binary_search(node) {
        Ok(at) => at + 1,
        Err(_) => 0,
    }
}
