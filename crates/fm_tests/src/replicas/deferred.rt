//! The keeper of the program: at which reads it edits, and at which it builds.

use crate::coordinators::coordinator_id;
use crate::samples::MACHINE;
use fm_coord::coordinator::Coordinator;
use fm_edit::deferred::Deferred;
use fm_policy::build::build;
use fm_records::refusal::Refusal;
use std::alloc::Global;

// The functions below have no contract: the tests are of what is answered, and proofs of them stay short. Each may be
// refused at few places, and holds few values there: a proof considers what is dropped at each.

type Node = Coordinator<Deferred>;

fn node(alloc: Global) -> Result<Node, Refusal> {
    let number = coordinator_id(1)?;
    let keeper = Deferred::new(alloc)?;
    Ok(Coordinator::new(alloc, number, 1_000, keeper))
}

// What a look finds: whether the network is what is built, and how many looks were answered by edits and by builds so
// far.
type Look = (bool, u64, u64);

fn look(alloc: Global, node: &mut Node) -> Result<Look, Refusal> {
    let view = node.view(0)?;
    let is_built = *view.network.get() == build(alloc, view.knowledge.get())?;
    let (edits, builds) = node.keeper().counts();
    Ok((is_built, edits, builds))
}

fn tell(node: &mut Node, from: u128, to: u128) -> Result<(), Refusal> {
    for number in from..to {
        node.tell(0, MACHINE.id(number).op())?;
    }
    Ok(())
}

// A look after machines with the numbers from one to another are told.
fn look_after(alloc: Global, node: &mut Node, from: u128, to: u128) -> Result<Look, Refusal> {
    tell(node, from, to)?;
    look(alloc, node)
}

// Looks after many new machines, after one, after another one, and after nothing.
fn looks(alloc: Global) -> Result<[Look; 4], Refusal> {
    let mut node = node(alloc)?;
    let many = look_after(alloc, &mut node, 0, 100)?;
    let first = look_after(alloc, &mut node, 100, 101)?;
    let second = look_after(alloc, &mut node, 101, 102)?;
    let again = look(alloc, &mut node)?;
    Ok([many, first, second, again])
}

#[test]
fn a_keeper_builds_until_few_records_changed_and_then_edits(rt: HostRuntime) {
    assert_eq!(rt;
        looks(rt.alloc()),
        Ok([(true, 0, 1), (true, 0, 2), (true, 1, 2), (true, 1, 2)])
    );
}

// A node that edited once.
fn editing(alloc: Global) -> Result<Node, Refusal> {
    let mut node = node(alloc)?;
    look_after(alloc, &mut node, 0, 100)?;
    look_after(alloc, &mut node, 100, 101)?;
    look_after(alloc, &mut node, 101, 102)?;
    Ok(node)
}

// Its looks after nine new machines, and after three times one.
fn later_looks(alloc: Global) -> Result<[Look; 4], Refusal> {
    let mut node = editing(alloc)?;
    let many = look_after(alloc, &mut node, 102, 111)?;
    let first = look_after(alloc, &mut node, 111, 112)?;
    let second = look_after(alloc, &mut node, 112, 113)?;
    let third = look_after(alloc, &mut node, 113, 114)?;
    Ok([many, first, second, third])
}

#[test]
fn an_editor_that_was_hardly_used_is_waited_for_longer(rt: HostRuntime) {
    assert_eq!(rt;
        later_looks(rt.alloc()),
        Ok([(true, 1, 3), (true, 1, 4), (true, 1, 5), (true, 2, 5)])
    );
}
