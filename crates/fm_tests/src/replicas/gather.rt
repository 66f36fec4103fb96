//! Histories that form one list of steps, and histories that do not.

use crate::coordinators::{building, gathered, step, world_of};
use crate::samples::JOB;
use crate::told::packet_from;
use fm_coord::coordinator::Coordinator;
use fm_coord::entry::Range;
use fm_delta::packet::Packet;
use fm_policy::rebuilder::Rebuilder;
use fm_records::refusal::Refusal;
use fm_world::distinct::distinct;
use fm_world::gather::gather;
use fm_world::step::{Act, Step};
use fm_world::world::World;
use std::alloc::Global;
use std::test::Fail;

type Node = Coordinator<Rebuilder>;

// The functions below have no contract: the tests are of what is answered, and proofs of them stay short.

// A world of the coordinators 2, 1 and 9.
fn world(alloc: Global) -> Result<World<Rebuilder>, Fail> {
    let mut nodes = Vec::new(alloc);
    nodes.push(building(alloc, 2, 100)?)?;
    nodes.push(building(alloc, 1, 100)?)?;
    nodes.push(building(alloc, 9, 100)?)?;
    world_of(nodes)
}

fn tell(at: u8, version: u64) -> Step {
    step(at, Act::Tell(JOB.version(version).op()))
}

fn cut(at: u8) -> Step {
    step(at, Act::Cut(Range::Full))
}

// A step as its coordinator and a letter; a delivery as its packet's digit.
fn short(step: &Step) -> (u8, u8) {
    let letter = match &step.act {
        Act::Tell(_) => b't',
        Act::Cut(_) => b'c',
        Act::Deliver(0) => b'0',
        _ => b'?',
    };
    (step.at, letter)
}

fn are(steps: &[Step], expected: &[(u8, u8)]) -> bool {
    steps.len() == expected.len() && steps.iter().zip(expected).all(|(s, e)| short(s) == *e)
}

// Whether the first coordinators are gathered to these steps.
fn gives(alloc: Global, nodes: &[Node], expected: &[(u8, u8)]) -> bool {
    match gathered(alloc, nodes) {
        Some(steps) => are(steps.as_slice(), expected),
        None => false,
    }
}

// Whether gathering is stuck after these steps, with these numbers left.
fn is_stuck(alloc: Global, nodes: &[Node], expected: &[(u8, u8)], left: &[u8]) -> bool {
    if !distinct(nodes) {
        return false;
    }
    match gather(alloc, nodes) {
        Ok(_) => false,
        Err(fault) => {
            fault.refusal == Refusal::Stuck
                && are(fault.steps.as_slice(), expected)
                && fault.left.len() == left.len()
                && fault.left.iter().zip(left).all(|(l, n)| l.value() == *n)
        }
    }
}

fn first(world: &World<Rebuilder>, count: usize) -> &[Node] {
    match world.coordinators().get(..count) {
        Some(nodes) => nodes,
        None => world.coordinators(),
    }
}

#[test]
fn a_merge_waits_for_its_cut(rt: HostRuntime) -> Result<(), Fail> {
    let mut world = world(rt.alloc())?;
    let steps = [tell(1, 1), cut(1), step(2, Act::Deliver(0))];
    assert_eq!(rt; world.run(&steps).err(), None);
    let expected = [(1, b't'), (1, b'c'), (2, b'0')];
    assert!(rt; gives(rt.alloc(), first(&world, 2), &expected));
    assert!(rt; is_stuck(rt.alloc(), first(&world, 1), &[], &[2]));
    assert!(rt; gives(rt.alloc(), first(&world, 0), &[]));
    Ok(())
}

#[test]
fn a_stranger_s_packet_is_waited_for(rt: HostRuntime) -> Result<(), Fail> {
    let mut world = world(rt.alloc())?;
    let theirs = [tell(9, 1), cut(9)];
    let ours = [tell(1, 1), step(1, Act::Deliver(0)), tell(1, 2), tell(2, 3)];
    assert_eq!(rt; world.run(&theirs).err(), None);
    assert_eq!(rt; world.run(&ours).err(), None);
    assert!(rt; is_stuck(rt.alloc(), first(&world, 2), &[(2, b't'), (1, b't')], &[1]));
    Ok(())
}

fn with_merge(mut node: Node, packet: Packet) -> Result<Node, Fail> {
    node.merge(0, packet)?;
    Ok(node)
}

fn with_cut(mut node: Node) -> Result<Node, Fail> {
    node.cut(0, Range::Full)?;
    Ok(node)
}

// A coordinator that cut a packet, after it merged one of another.
fn in_ring(alloc: Global, number: u8, sender: u8) -> Result<Node, Fail> {
    let packet = packet_from(alloc, sender, 1, &[JOB.op()])?;
    with_cut(with_merge(building(alloc, number, 100)?, packet)?)
}

fn ring(alloc: Global) -> Result<Vec<Node>, Fail> {
    let mut nodes = Vec::new(alloc);
    nodes.push(in_ring(alloc, 1, 2)?)?;
    nodes.push(in_ring(alloc, 2, 1)?)?;
    Ok(nodes)
}

#[test]
fn merges_in_a_ring_are_stuck(rt: HostRuntime) -> Result<(), Fail> {
    let nodes = ring(rt.alloc())?;
    assert!(rt; is_stuck(rt.alloc(), nodes.as_slice(), &[], &[1, 2]));
    Ok(())
}
