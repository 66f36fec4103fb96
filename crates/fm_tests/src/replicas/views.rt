//! Views that are held while their coordinator goes on.

use crate::coordinators::keeping;
use crate::samples::MACHINE;
use fm_coord::coordinator::Coordinator;
use fm_coord::view::View;
use fm_edit::keepers::Keeper;
use fm_records::refusal::Refusal;

// The functions below have no contract: the tests are of what is answered, and proofs of them stay short. Each may be
// refused at few places, and holds few values there: a proof considers what is dropped at each.

type Node = Coordinator<Keeper>;

// Tells it of one more machine, which is one more node and one more arc.
fn tell(node: &mut Node, number: u128) -> Result<(), Refusal> {
    node.tell(0, MACHINE.id(number).op())
}

fn view(node: &mut Node) -> Result<View, Refusal> {
    node.view(0)
}

// How many nodes and arcs the network of a view has.
fn sizes(view: &View) -> (usize, usize) {
    let network = view.network.get();
    (network.nodes_len(), network.arcs_len())
}

// What a view shows now.
fn seen(node: &mut Node) -> Result<(usize, usize), Refusal> {
    Ok(sizes(&view(node)?))
}

// What the node's next view shows after it was told of one more machine.
fn seen_after(node: &mut Node, number: u128) -> Result<(usize, usize), Refusal> {
    tell(node, number)?;
    seen(node)
}

// What a view shows that is held while the node is told of more, and the next view.
fn held(node: &mut Node) -> Result<((usize, usize), (usize, usize)), Refusal> {
    let first = view(node)?;
    let next = seen_after(node, 11)?;
    Ok((sizes(&first), next))
}

// What two views show that no one holds when the node is told of more.
fn let_go(node: &mut Node) -> Result<((usize, usize), (usize, usize)), Refusal> {
    let first = seen_after(node, 12)?;
    let next = seen_after(node, 13)?;
    Ok((first, next))
}

#[test]
fn a_view_that_is_held_stays_as_it_was(rt: HostRuntime) -> Result<(), Refusal> {
    for edits in [true, false] {
        let mut node = keeping(rt.alloc(), 1, 100, edits)?;
        tell(&mut node, 10)?;
        assert_eq!(rt; held(&mut node), Ok(((2, 1), (3, 2))));
        assert_eq!(rt; let_go(&mut node), Ok(((4, 3), (5, 4))));
    }
    Ok(())
}
