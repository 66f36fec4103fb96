//! The lines of arcs, read in order.
//!
//! A text is of a network only if its arcs rise, so each is put after the one before. The first line that does not come
//! after it, or that no network can have, is refused.

ghost use Rattle.std.specs.Prelude.{◌≡◌, ◌≤◌, ◌<◌, ◌^◌, ◌+◌, ◌++◌, ◌∷◌, ◌↔◌, ℕ, List, [], IsTrue, IfOk, IfErr, IfSome, IfNone, OnOk, OnErr, length, MatchOption};
ghost use Rattle.std.specs.Ordering.{on};
ghost use Rattle.fm_records.specs.Rising.{Rises};
ghost use Rattle.fm_net.specs.declared.node.Node.{Node as NodeName};
ghost use Rattle.fm_net.specs.Nodes.{node_cmp, ends_cmp};
ghost use Rattle.fm_net.specs.Net.{IsArcKind, has_node};
ghost use Rattle.fm_net.specs.inner.NetworkIter.{arc_entry};
ghost use Rattle.fm_dimacs.specs.Text.{arc_line, id_in};
ghost use Rattle.fm_dimacs.specs.Syntax.{Body, Reaches, IsAfterLast, IsFault};
ghost use Rattle.fm_dimacs.specs.inner.Scan.{IsArcAmong, IsAfter, ids_of};

use crate::tokens;
use fm_lattice::join::OutOfMemory;
use fm_net::network::Network;
use fm_net::node::{Node, order};
use fm_records::ops::MOST_PRICE;
use fm_records::refusal::Refusal;
use std::cmp::Ordering;

// The node with the ID.
fn node_with(nodes: &[Node], id: u64) -> Option<Node>
    requires { Rises node_cmp nodes.now }
    ensures some { IfSome result (λ n. IsTrue (has_node (record { nodes = nodes.now; arcs = [] }) n)
        × (id_in nodes.now n ≡ id)) }
    ensures none { IfNone result ((n : NodeName) → IsTrue (has_node (record { nodes = nodes.now; arcs = [] }) n)
        → id_in nodes.now n ≡ id → ⊥) }
{
    if id == 0 {
        return None;
    }
    match nodes.get((id - 1) as usize) {
        Some(node) => Some(*node),
        None => None,
    }
}

// Whether an arc may go from one node to the other.
fn joins(from: &Node, to: &Node) -> bool
    ensures { IsTrue result ↔ IsArcKind from.now to.now }
{
    match from {
        Node::Task(_) => matches!(
            to,
            Node::Request(_) | Node::Machine(_) | Node::Unscheduled(_)
        ),
        Node::Request(_) => matches!(to, Node::Machine(_)),
        Node::Machine(_) | Node::Unscheduled(_) => matches!(to, Node::Sink),
        Node::Sink => false,
    }
}

// The arc with these IDs of its ends, capacity and cost, if a network of the nodes can have it.
fn arc_with(nodes: &[Node], numbers: (u64, u64, u64, u64)) -> Option<(Node, Node, u64, u32)>
    requires { Rises node_cmp nodes.now }
    ensures some { IfSome result (λ a. IsArcAmong nodes.now (arc_entry a)
        × (ids_of nodes.now (arc_entry a) ≡ numbers)) }
    ensures none { IfNone result ((a : (NodeName × NodeName) × (ℕ × ℕ)) → IsArcAmong nodes.now a
        → ids_of nodes.now a ≡ numbers → ⊥) }
{
    let (source, target, capacity, cost) = numbers;
    let Some(from) = node_with(nodes, source) else {
        return None;
    };
    let Some(to) = node_with(nodes, target) else {
        return None;
    };
    if joins(&from, &to) && capacity >= 1 && cost <= u64::from(MOST_PRICE) {
        Some((from, to, capacity, cost as u32))
    } else {
        None
    }
}

// Whether the arc comes after the one with these ends, if there is one.
fn comes_after(last: Option<(Node, Node)>, arc: &(Node, Node, u64, u32)) -> bool
    ensures { IsTrue result ↔ IsAfter last (arc_entry arc.now) }
{
    match last {
        None => true,
        Some((from, to)) => match order(&from, &arc.0) {
            Ordering::Less => true,
            Ordering::Equal => matches!(order(&to, &arc.1), Ordering::Less),
            Ordering::Greater => false,
        },
    }
}

// The next arc and what follows its line, if its line comes next.
fn next_arc<'a>(
    nodes: &[Node],
    last: Option<(Node, Node)>,
    text: &'a [u8],
) -> Option<((Node, Node, u64, u32), &'a [u8])>
    requires { Rises node_cmp nodes.now }
    ensures some { IfSome result (λ x. IsArcAmong nodes.now (arc_entry x.0) × IsAfter last (arc_entry x.0)
        × (text.now ≡ arc_line nodes.now (arc_entry x.0) ++ x.1.now)) }
    ensures none { IfNone result ((a : (NodeName × NodeName) × (ℕ × ℕ)) (behind : List ℕ) → IsArcAmong nodes.now a
        → IsAfter last a → text.now ≡ arc_line nodes.now a ++ behind → ⊥) }
{
    let Some((numbers, behind)) = tokens::numbers(text) else {
        return None;
    };
    let Some(arc) = arc_with(nodes, numbers) else {
        return None;
    };
    if comes_after(last, &arc) {
        Some((arc, behind))
    } else {
        None
    }
}

// Puts the arc, after which no other was put yet.
fn put(network: &mut Network, arc: &(Node, Node, u64, u32)) -> Result<(), OutOfMemory>
    requires is_arc { IsArcAmong network.old.nodes (arc_entry arc.now) }
    requires last { IsAfterLast (on (λ e. e.0) ends_cmp) network.old.arcs (arc_entry arc.now) }
    ensures { OnOk result (network.new ≡ record {
      nodes = network.old.nodes;
      arcs = network.old.arcs
          ++ (arc_entry arc.now ∷ []);
    }) }
{
    network.known();
    let (from, to, capacity, cost) = *arc;
    let _ = network.put_arc(from, to, capacity, cost)?;
    Ok(())
}

// Puts the arcs of so many lines, after which the text ends; lines before these are counted.
pub(crate) fn read_arcs(
    nodes: &[Node],
    network: &mut Network,
    left: u64,
    lines: usize,
    text: &[u8],
) -> Result<(), Refusal>
    requires rise { Rises node_cmp nodes.now }
    requires nodes { network.old ≡ record { nodes = nodes.now; arcs = [] } }
    requires room { lines + length text.now < 2 ^ 63 }
    ensures nodes { OnOk result (network.new ≡ record { nodes = nodes.now; arcs = network.new.arcs }) }
    ensures ok { OnOk result (Reaches left (Body nodes.now [] [] left) text.now
        (Body nodes.now [] network.new.arcs 0) []) }
    ensures err { IfErr result (IsFault lines (Body nodes.now [] [] left) text.now) }
{
    let mut last = None;
    let mut rest = text;
    for done in 0..left {
        let Some((arc, behind)) = next_arc(nodes, last, rest) else {
            return Err(Refusal::BadDimacs(lines + done as usize + 1));
        };
        put(network, &arc)?;
        last = Some((arc.0, arc.1));
        rest = behind;
    }
    if rest.is_empty() {
        Ok(())
    } else {
        Err(Refusal::BadDimacs(lines + left as usize + 1))
    }
}
