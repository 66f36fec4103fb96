//! That a node is guessed where it was found last: a guess that is wrong costs a search, and no clause says how often guesses are
//! right.

use fm_net::node::Node;
use fm_net::node_guesses::NodeGuesses;
use fm_records::ids::{JobId, MachineId, TaskId};
use std::alloc::Global;
use std::test::Fail;

// Of each kind as many nodes, whose names are in no order.
fn nodes(alloc: Global) -> Result<Vec<Node>, Fail> {
    let mut nodes = Vec::new(alloc);
    nodes.push(Node::Sink)?;
    for number in 0..20u128 {
        let id = number.saturating_mul(7) % 20 + 20;
        nodes.push(Node::Unscheduled(JobId::new(id)))?;
        nodes.push(Node::Machine(MachineId::new(id + 20)))?;
        nodes.push(Node::Task(TaskId::new(id + 40)))?;
    }
    Ok(nodes)
}

// Of how many nodes the place is guessed.
fn guessed(guesses: &NodeGuesses, nodes: &[Node]) -> usize {
    let mut guessed = 0usize;
    for (place, node) in nodes.iter().enumerate() {
        if guesses.guess(node) == place {
            guessed = guessed.saturating_add(1);
        }
    }
    guessed
}

#[test]
fn a_node_is_guessed_where_it_was_found(rt: HostRuntime) -> Result<(), Fail> {
    let nodes = nodes(rt.alloc())?;
    let mut guesses = NodeGuesses::none(rt.alloc(), 100)?;
    for (place, node) in nodes.iter().enumerate() {
        guesses.keep(node, place);
    }
    assert_eq!(rt; guessed(&guesses, &nodes), 61);
    Ok(())
}
