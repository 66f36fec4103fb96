//! The text of a network: in DIMACS lines (1991), which other solvers read, and with one text for each network.
//!
//! Comments name the nodes, whose IDs are their places in node order. Arcs come in the network's order. So two networks
//! are the same if their texts are.

ghost use Rattle.std.specs.Prelude.{◌≡◌, ◌++◌, ◌∷◌, [], OnOk, OnErr, IfErr, IfSome, IsOkUnless, count_by, codes, decimal, length, string_bytes};
ghost use Rattle.std.specs.List.{flat_map};
ghost use Rattle.std.specs.Io.KnownBytes.{Appends};
ghost use Rattle.fm_records.specs.Rising.{Rises};
ghost use Rattle.fm_net.specs.Nodes.{node_cmp};
ghost use Rattle.fm_dimacs.specs.Sending.{AppendsPrefix, StopsBy, IsSent};
ghost use Rattle.fm_dimacs.specs.Text.{node_line, problem_line, is_task_node, demand_line, supply_line, arc_line, lines_from, id_in, dump_text};

use crate::decimals::push_number;
use crate::node_ids::{Ends, FoundIds};
use crate::out::Out;
use crate::write_all::put_all;
use fm_lattice::join::OutOfMemory;
use fm_net::network::Network;
use fm_net::node::Node;
use fm_records::refusal::Refusal;
use std::alloc::Global;

/// Writes the network's text. After a refusal a prefix of it is written: refused by the writer, which then has failed,
/// in this call unless it had before; or because memory ran out. O(arcs log nodes) at worst.
pub fn dump<W: Out>(alloc: Global, network: &Network, out: &mut W) -> Result<(), Refusal>
    ensures ok { OnOk result (Appends (W.written out.old) (W.written out.new) (dump_text network.now)) }
    ensures ok_fails_not { OnOk result (W.has_failed out.new ≡ W.has_failed out.old) }
    ensures err { OnErr result (AppendsPrefix (W.written out.old) (W.written out.new) (dump_text network.now)) }
    ensures cause { IfErr result (λ refusal. StopsBy refusal (W.has_failed out.old) (W.has_failed out.new)) }
{
    network.known();
    let nodes: Vec<Node> = network.nodes().collect(alloc)?;
    put_text(alloc, network, &nodes, out)
}

// Writes the text of the network with these nodes and the network's arcs.
fn put_text<W: Out>(
    alloc: Global,
    network: &Network,
    nodes: &[Node],
    out: &mut W,
) -> Result<(), Refusal>
    requires { Rises node_cmp nodes.now }
    ensures { IsSent result (W.written out.old) (W.written out.new) (W.has_failed out.old) (W.has_failed out.new)
        (dump_text (record { nodes = nodes.now; arcs = network.now.arcs })) }
{
    let mut line = String::new(alloc);
    put_nodes(alloc, nodes, &mut line, out)?;
    put_problem(network, nodes, &mut line, out)?;
    put_demand(nodes, &mut line, out)?;
    put_supplies(nodes, &mut line, out)?;
    put_arcs(alloc, network, nodes, &mut line, out)
}

// Writes each node's comment.
fn put_nodes<W: Out>(
    alloc: Global,
    nodes: &[Node],
    line: &mut String,
    out: &mut W,
) -> Result<(), Refusal>
    ensures { IsSent result (W.written out.old) (W.written out.new) (W.has_failed out.old) (W.has_failed out.new)
        (lines_from node_line 1 nodes.now) }
{
    for (i, node) in nodes.iter().enumerate() {
        put_node(alloc, i + 1, node, line, out)?;
    }
    Ok(())
}

// Writes a node's comment.
fn put_node<W: Out>(
    alloc: Global,
    id: usize,
    node: &Node,
    line: &mut String,
    out: &mut W,
) -> Result<(), Refusal>
    ensures { IsSent result (W.written out.old) (W.written out.new) (W.has_failed out.old) (W.has_failed out.new)
        (node_line id node.now) }
{
    line.clear();
    write_node(alloc, line, id, node)?;
    put_all(out, line.as_bytes())
}

// Appends a node's comment.
fn write_node(alloc: Global, line: &mut String, id: usize, node: &Node) -> Result<(), Refusal>
    ensures ok { OnOk result (string_bytes line.new ≡ string_bytes line.old ++ node_line id node.now) }
    ensures err { IsOkUnless result Refusal.OutOfMemory }
{
    push_number(line, "c ", id as u64)?;
    match *node {
        Node::Sink => line.push_str(" S\n")?,
        Node::Unscheduled(job) => write_name(line, " U ", &job.text(alloc)?)?,
        Node::Request(request) => {
            push_number(line, " R ", request as u64)?;
            line.push_str("\n")?;
        }
        Node::Machine(machine) => write_name(line, " M ", &machine.text(alloc)?)?,
        Node::Task(task) => write_name(line, " T ", &task.text(alloc)?)?,
    }
    Ok(())
}

// Appends the name behind its kind, and ends the line.
fn write_name(line: &mut String, kind: &str, name: &str) -> Result<(), OutOfMemory>
    ensures { OnOk result (string_bytes line.new ≡ string_bytes line.old ++ (kind.now ++ (name.now ++ codes "\n"))) }
{
    line.push_str(kind)?;
    line.push_str(name)?;
    line.push_str("\n")?;
    Ok(())
}

// Writes the problem line.
fn put_problem<W: Out>(
    network: &Network,
    nodes: &[Node],
    line: &mut String,
    out: &mut W,
) -> Result<(), Refusal>
    ensures { IsSent result (W.written out.old) (W.written out.new) (W.has_failed out.old) (W.has_failed out.new)
        (problem_line (length nodes.now) (length network.now.arcs)) }
{
    let node_count = nodes.len();
    let arc_count = network.arcs_len();
    line.clear();
    write!(line, "p min {node_count} {arc_count}\n")?;
    put_all(out, line.as_bytes())
}

fn is_task(node: &Node) -> bool
    ensures { result ≡ is_task_node node.now }
{
    matches!(node, Node::Task(_))
}

// Writes the sink's demand, if there is a task.
fn put_demand<W: Out>(nodes: &[Node], line: &mut String, out: &mut W) -> Result<(), Refusal>
    ensures { IsSent result (W.written out.old) (W.written out.new) (W.has_failed out.old) (W.has_failed out.new)
        (demand_line (count_by is_task_node nodes.now)) }
{
    line.clear();
    write_demand(line, count_tasks(nodes))?;
    put_all(out, line.as_bytes())
}

// How many tasks there are.
pub(crate) fn count_tasks(nodes: &[Node]) -> usize
    ensures { result ≡ count_by is_task_node nodes.now }
{
    nodes.iter().filter(|node| is_task(node)).count()
}

// Appends the sink's demand, if there is a task.
pub(crate) fn write_demand(line: &mut String, tasks: usize) -> Result<(), Refusal>
    ensures ok { OnOk result (string_bytes line.new ≡ string_bytes line.old ++ demand_line tasks) }
    ensures err { IsOkUnless result Refusal.OutOfMemory }
{
    if tasks != 0 {
        write!(line, "n 1 -{tasks}\n")?;
    }
    Ok(())
}

// Writes each task's supply.
fn put_supplies<W: Out>(nodes: &[Node], line: &mut String, out: &mut W) -> Result<(), Refusal>
    ensures { IsSent result (W.written out.old) (W.written out.new) (W.has_failed out.old) (W.has_failed out.new)
        (lines_from supply_line 1 nodes.now) }
{
    for (i, node) in nodes.iter().enumerate() {
        put_supply(i + 1, node, line, out)?;
    }
    Ok(())
}

// Writes the supply of a task, and nothing for another node.
fn put_supply<W: Out>(id: usize, node: &Node, line: &mut String, out: &mut W) -> Result<(), Refusal>
    ensures { IsSent result (W.written out.old) (W.written out.new) (W.has_failed out.old) (W.has_failed out.new)
        (supply_line id node.now) }
{
    line.clear();
    write_supply(line, id, node)?;
    put_all(out, line.as_bytes())
}

// Appends the supply of a task, and nothing for another node.
pub(crate) fn write_supply(line: &mut String, id: usize, node: &Node) -> Result<(), Refusal>
    ensures ok { OnOk result (string_bytes line.new ≡ string_bytes line.old ++ supply_line id node.now) }
    ensures err { IsOkUnless result Refusal.OutOfMemory }
{
    if is_task(node) {
        push_number(line, "n ", id as u64)?;
        line.push_str(" 1\n")?;
    }
    Ok(())
}

// Writes the arcs.
fn put_arcs<W: Out>(
    alloc: Global,
    network: &Network,
    nodes: &[Node],
    line: &mut String,
    out: &mut W,
) -> Result<(), Refusal>
    requires { Rises node_cmp nodes.now }
    ensures { IsSent result (W.written out.old) (W.written out.new) (W.has_failed out.old) (W.has_failed out.new)
        (flat_map (arc_line nodes.now) network.now.arcs) }
{
    let mut found = FoundIds::none(alloc, nodes.len())?;
    for arc in network.arc_entries() {
        put_arc(nodes, arc, &mut found, line, out)?;
    }
    Ok(())
}

// Writes an arc, by the IDs of its ends.
fn put_arc<W: Out>(
    nodes: &[Node],
    arc: &((Node, Node), (u64, u32)),
    found: &mut FoundIds,
    line: &mut String,
    out: &mut W,
) -> Result<(), Refusal>
    requires { Rises node_cmp nodes.now }
    ensures { IsSent result (W.written out.old) (W.written out.new) (W.has_failed out.old) (W.has_failed out.new)
        (arc_line nodes.now arc.now) }
{
    let (ends, (capacity, cost)) = arc;
    let ids = found.ends(nodes, ends);
    line.clear();
    write_arc(line, &ids, *capacity, *cost)?;
    put_all(out, line.as_bytes())
}

// Appends the line of an arc between the ends.
fn write_arc(line: &mut String, ends: &Ends, capacity: u64, cost: u32) -> Result<(), OutOfMemory>
    ensures { OnOk result (string_bytes line.new
        ≡ string_bytes line.old ++ (codes "a " ++ (decimal ends.now.source
        ++ (codes " " ++ (decimal ends.now.target
        ++ (codes " 0 " ++ (decimal capacity ++ (codes " " ++ (decimal cost ++ codes "\n"))))))))) }
{
    push_number(line, "a ", ends.source as u64)?;
    push_number(line, " ", ends.target as u64)?;
    push_number(line, " 0 ", capacity)?;
    push_number(line, " ", cost as u64)?;
    line.push_str("\n")?;
    Ok(())
}
