//! The index of a node by its name, in most cases without a search.
//!
//! Numbering a network looks up two names for each arc, and a binary search for each would be O(arcs log nodes). Arcs
//! come in order, so the end of one is mostly where that of the arc before was, or next to it. Else a small table says
//! where the node may stand (`node_guesses` of `fm_net`). Only if the guess is wrong, the nodes of the kind are searched.

ghost use Rattle.std.specs.Prelude.{◌≡◌, ◌↔◌, IsTrue, Some, slice_get};
ghost use Rattle.fm_records.specs.Sets.{IsMember};
ghost use Rattle.fm_records.specs.Rising.{Rises};
ghost use Rattle.fm_net.specs.Nodes.{node_cmp};
ghost use Rattle.fm_indexed.specs.NodeRanges.{AreRangesOf};

use crate::node_ranges::{NodeRanges, range_of};
use fm_net::node::Node;
use fm_net::node_guesses::NodeGuesses;

// Whether the node is at the index.
fn stands_at(nodes: &[Node], place: usize, node: &Node) -> bool
    ensures { IsTrue result ↔ (slice_get nodes.now place ≡ Some node.now) }
{
    match nodes.get(place) {
        Some(there) => *there == *node,
        None => false,
    }
}

// The index of a node, looked for among its kind.
fn search(nodes: &[Node], places: &NodeRanges, node: &Node) -> usize
    requires rises { Rises node_cmp nodes.now }
    requires places { AreRangesOf nodes.now places.now }
    requires stands { IsMember node.now nodes.now }
    ensures { slice_get nodes.now result ≡ Some node.now }
{
    let (first, end) = range_of(places, node);
    let Some(of_kind) = nodes.get(first..end) else {
        unreachable!()
    };
    match of_kind.binary_search(node) {
        Ok(place) => first + place,
        Err(_) => unreachable!(),
    }
}

/// The index of a node, looked for at the guess, after it, and then among its kind.
pub(crate) fn index_of(nodes: &[Node], places: &NodeRanges, guess: usize, node: &Node) -> usize
    requires rises { Rises node_cmp nodes.now }
    requires places { AreRangesOf nodes.now places.now }
    requires stands { IsMember node.now nodes.now }
    ensures { slice_get nodes.now result ≡ Some node.now }
{
    let behind = guess.saturating_add(1);
    if stands_at(nodes, guess, node) {
        return guess;
    }
    if stands_at(nodes, behind, node) {
        return behind;
    }
    search(nodes, places, node)
}

/// The index of a node, looked for behind the one near, then at the guess for the node, and then among its kind; that
/// is the guess from then on. Nodes share guesses, so that a guess may be wrong.
pub(crate) fn index_by(
    nodes: &[Node],
    places: &NodeRanges,
    near: usize,
    guesses: &mut NodeGuesses,
    node: &Node,
) -> usize
    requires rises { Rises node_cmp nodes.now }
    requires places { AreRangesOf nodes.now places.now }
    requires stands { IsMember node.now nodes.now }
    ensures { slice_get nodes.now result ≡ Some node.now }
{
    let behind = near.saturating_add(1);
    if stands_at(nodes, behind, node) {
        return behind;
    }
    let guess = guesses.guess(node);
    if stands_at(nodes, guess, node) {
        return guess;
    }
    let place = search(nodes, places, node);
    guesses.keep(node, place);
    place
}
