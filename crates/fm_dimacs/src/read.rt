//! The network that a text is of, or the first line that breaks a rule.
//!
//! A network has one text, so the reader accepts no other. Nodes and arcs are in order, numbers have no leading zeros,
//! and the lines of demand and supplies are as `dump` writes them.

ghost use Rattle.std.specs.Prelude.{◌≡◌, ◌≤◌, ◌<◌, ◌^◌, ◌+◌, ◌++◌, ◌∷◌, ◌↔◌, ℕ, List, [], IsTrue, IfOk, IfErr, IfSome, IfNone, OnOk, length, drop, MatchOption, MatchResult};
ghost use Rattle.std.specs.List.{AllByRecursion};
ghost use Rattle.fm_records.specs.declared.refusal.Refusal.TheVariants as refusal;
ghost use Rattle.fm_net.specs.declared.node.Node.{Node as NodeName};
ghost use Rattle.fm_records.specs.Rising.{Rises};
ghost use Rattle.fm_net.specs.Nodes.{IsInRange, node_cmp};
ghost use Rattle.fm_net.specs.Net.{Net, CanBeNet};
ghost use Rattle.fm_dimacs.specs.Text.{node_line, dump_text};
ghost use Rattle.fm_dimacs.specs.Syntax.{Comments, Body, Reaches, IsNextNode, IsFault, WhyNot, with_line, supplies_from, unit_lines};

use crate::arc_lines::read_arcs;
use crate::dump::{count_tasks, write_demand, write_supply};
use crate::tokens;
use fm_lattice::join::OutOfMemory;
use fm_net::network::Network;
use fm_net::node::{Node, order};
use fm_records::refusal::Refusal;
use std::alloc::Global;
use std::cmp::Ordering;

// Whether the node may come behind these.
fn comes_next(nodes: &[Node], node: &Node) -> bool
    requires { IsInRange node.now }
    ensures { IsTrue result ↔ IsNextNode nodes.now node.now }
{
    match nodes.last() {
        Some(last) => matches!(order(last, node), Ordering::Less),
        None => matches!(node, Node::Sink),
    }
}

// The next node and what follows its comment, if its comment comes next.
fn next_node<'a>(
    alloc: Global,
    nodes: &[Node],
    text: &'a [u8],
) -> Result<Option<(Node, &'a [u8])>, Refusal>
    requires { length nodes.now + length text.now < 2 ^ 63 }
    ensures some { IfOk result (λ found. IfSome found
        (λ x. IsNextNode nodes.now x.0 × (text.now ≡ node_line (length nodes.now + 1) x.0 ++ x.1.now))) }
    ensures none { IfOk result (λ found. IfNone found ((n : NodeName) (behind : List ℕ) → IsNextNode nodes.now n
        → text.now ≡ node_line (length nodes.now + 1) n ++ behind → ⊥)) }
    ensures err { IfErr result (IsFault (length nodes.now) (Comments nodes.now) text.now) }
{
    let id = nodes.len() + 1;
    match tokens::node(alloc, id as u64, text) {
        Err(refusal) => Err(refusal),
        Ok(None) => Ok(None),
        Ok(Some((node, behind))) => {
            if comes_next(nodes, &node) {
                Ok(Some((node, behind)))
            } else {
                Err(Refusal::BadDimacs(id))
            }
        }
    }
}

// The nodes of the comments, and what follows these.
fn read_nodes(alloc: Global, text: &[u8]) -> Result<(Vec<Node>, &[u8]), Refusal>
    ensures ok { IfOk result (λ x. Reaches (length x.0.items) (Comments []) text.now (Comments x.0.items) x.1.now) }
    ensures last { IfOk result (λ x. (n : NodeName) (behind : List ℕ) → IsNextNode x.0.items n
        → x.1.now ≡ node_line (length x.0.items + 1) n ++ behind → ⊥) }
    ensures err { IfErr result (IsFault 0 (Comments []) text.now) }
{
    let mut nodes = Vec::new(alloc);
    let mut rest = text;
    loop {
        match next_node(alloc, &nodes, rest) {
            Err(refusal) => return Err(refusal),
            Ok(None) => return Ok((nodes, rest)),
            Ok(Some((node, behind))) => {
                nodes.push(node)?;
                rest = behind;
            }
        }
    }
}

// The number of arcs of the problem line, and what follows it.
fn read_problem<'a>(nodes: &[Node], text: &'a [u8]) -> Result<(u64, &'a [u8]), Refusal>
    requires room { length nodes.now + length text.now < 2 ^ 63 }
    requires no_node { (n : NodeName) (behind : List ℕ) → IsNextNode nodes.now n
        → text.now ≡ node_line (length nodes.now + 1) n ++ behind → ⊥ }
    ensures ok { IfOk result
        (λ x. Reaches 1 (Comments nodes.now) text.now (Body nodes.now (unit_lines nodes.now) [] x.0) x.1.now) }
    ensures err { IfErr result (IsFault (length nodes.now) (Comments nodes.now) text.now) }
{
    if nodes.is_empty() {
        return Err(Refusal::BadDimacs(1));
    }
    match tokens::problem(nodes.len() as u64, text) {
        Some(found) => Ok(found),
        None => Err(Refusal::BadDimacs(nodes.len() + 1)),
    }
}

// How many lines the line is, none if it is empty, and what follows it.
fn read_unit<'a>(line: &[u8], lines: usize, text: &'a [u8]) -> Result<(usize, &'a [u8]), Refusal>
    requires { lines < 2 ^ 63 }
    ensures ok { IfOk result (λ x. (nodes : List NodeName) (units : List (List ℕ)) (left : ℕ)
        → Reaches x.0 (Body nodes (with_line line.now units) [] left) text.now (Body nodes units [] left) x.1.now) }
    ensures room { IfOk result (λ x. x.0 + length x.1.now ≤ length text.now) }
    ensures err { (nodes : List NodeName) (units : List (List ℕ)) (left : ℕ)
        → IfErr result (IsFault lines (Body nodes (with_line line.now units) [] left) text.now) }
{
    if line.is_empty() {
        return Ok((0, text));
    }
    match tokens::after(text, line) {
        Some(rest) => Ok((1, rest)),
        None => Err(Refusal::BadDimacs(lines + 1)),
    }
}

// How many lines of supplies there are, and what follows them.
fn read_supplies<'a>(
    nodes: &[Node],
    line: &mut String,
    lines: usize,
    text: &'a [u8],
) -> Result<(usize, &'a [u8]), Refusal>
    requires { lines + length text.now < 2 ^ 63 }
    ensures ok { IfOk result
        (λ x. (left : ℕ) → Reaches x.0 (Body nodes.now (supplies_from 1 nodes.now) [] left) text.now
        (Body nodes.now [] [] left) x.1.now) }
    ensures room { IfOk result (λ x. x.0 + length x.1.now ≤ length text.now) }
    ensures err { (left : ℕ)
        → IfErr result (IsFault lines (Body nodes.now (supplies_from 1 nodes.now) [] left) text.now) }
{
    let mut count = 0;
    let mut rest = text;
    for (i, node) in nodes.iter().enumerate() {
        line.clear();
        write_supply(line, i + 1, node)?;
        let (more, behind) = read_unit(line.as_bytes(), lines + count, rest)?;
        count += more;
        rest = behind;
    }
    Ok((count, rest))
}

// How many lines of demand and supplies there are, and what follows them.
fn read_units<'a>(
    alloc: Global,
    nodes: &[Node],
    lines: usize,
    text: &'a [u8],
) -> Result<(usize, &'a [u8]), Refusal>
    requires { lines + length text.now < 2 ^ 63 }
    ensures ok { IfOk result
        (λ x. (left : ℕ) → Reaches x.0 (Body nodes.now (unit_lines nodes.now) [] left) text.now
        (Body nodes.now [] [] left) x.1.now) }
    ensures room { IfOk result (λ x. x.0 + length x.1.now ≤ length text.now) }
    ensures err { (left : ℕ) → IfErr result (IsFault lines (Body nodes.now (unit_lines nodes.now) [] left) text.now) }
{
    let mut line = String::new(alloc);
    write_demand(&mut line, count_tasks(nodes))?;
    let (demands, rest) = read_unit(line.as_bytes(), lines, text)?;
    let (supplies, rest) = read_supplies(nodes, &mut line, lines + demands, rest)?;
    Ok((demands + supplies, rest))
}

// Puts the nodes, which come after those of the network.
fn put_nodes(network: &mut Network, nodes: &[Node]) -> Result<(), OutOfMemory>
    requires rise { Rises node_cmp (network.old.nodes ++ nodes.now) }
    requires in_range { AllByRecursion IsInRange nodes.now }
    ensures { OnOk result (network.new ≡ record { nodes = network.old.nodes ++ nodes.now; arcs = network.old.arcs }) }
{
    for node in nodes {
        let _ = network.put_node(*node)?;
    }
    Ok(())
}

// The network of the nodes alone.
fn network_of(alloc: Global, nodes: &[Node]) -> Result<Network, OutOfMemory>
    requires first { nodes.now ≡ NodeName.Sink ∷ drop 1 nodes.now }
    requires rise { Rises node_cmp nodes.now }
    requires in_range { AllByRecursion IsInRange nodes.now }
    ensures { IfOk result (λ net. net ≡ record { nodes = nodes.now; arcs = [] }) }
{
    let mut network = Network::new(alloc)?;
    put_nodes(&mut network, &nodes[1..])?;
    Ok(network)
}

// The network of the text whose comments, of these nodes, are read.
fn read_body(alloc: Global, nodes: &[Node], text: &[u8]) -> Result<Network, Refusal>
    requires room { length nodes.now + length text.now < 2 ^ 63 }
    requires first { 0 < length nodes.now → nodes.now ≡ NodeName.Sink ∷ drop 1 nodes.now }
    requires rise { Rises node_cmp nodes.now }
    requires in_range { AllByRecursion IsInRange nodes.now }
    requires no_node { (n : NodeName) (behind : List ℕ) → IsNextNode nodes.now n
        → text.now ≡ node_line (length nodes.now + 1) n ++ behind → ⊥ }
    ensures ok { IfOk result
        (λ net. (k : ℕ) × Reaches k (Comments nodes.now) text.now (Body net.nodes [] net.arcs 0) []) }
    ensures err { IfErr result (IsFault (length nodes.now) (Comments nodes.now) text.now) }
{
    let (left, rest) = read_problem(nodes, text)?;
    let lines = nodes.len() + 1;
    let (units, rest) = read_units(alloc, nodes, lines, rest)?;
    let mut network = network_of(alloc, nodes)?;
    read_arcs(nodes, &mut network, left, lines + units, rest)?;
    Ok(network)
}

/// The network that the text is of, if there is one, of which there is one at most. Refused with the number of the
/// first line that breaks a rule, counted from 1, which is the line that is missing if the text ends too early; or
/// because memory ran out. O(bytes log bytes).
pub fn read(alloc: Global, text: &[u8]) -> Result<Network, Refusal>
    ensures found { IfOk result (λ net. CanBeNet net × (text.now ≡ dump_text net)) }
    ensures only { (net : Net) → CanBeNet net → text.now ≡ dump_text net
        → MatchResult result (λ found. found ≡ net) (λ e. e ≡ refusal.OutOfMemory) }
    ensures broken { IfErr result (WhyNot text.now) }
{
    match read_nodes(alloc, text) {
        Err(refusal) => Err(refusal),
        Ok((nodes, rest)) => {
            let network = read_body(alloc, &nodes, rest)?;
            network.known();
            Ok(network)
        }
    }
}
