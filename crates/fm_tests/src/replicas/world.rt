//! Steps of a world, accepted and refused, and its dumps.

use crate::coordinators::{building, dumped, step, world_of};
use crate::samples::JOB;
use fm_coord::entry::Range;
use fm_delta::packet::Packet;
use fm_policy::rebuilder::Rebuilder;
use fm_records::ids::CoordId;
use fm_records::refusal::Refusal;
use fm_world::step::{Act, RunStop, Step};
use fm_world::world::World;
use std::alloc::Global;
use std::test::Fail;

// A world of the coordinators 1, 2 and 3.
fn world(alloc: Global, limit: usize) -> Result<World<Rebuilder>, Fail> {
    let mut coordinators = Vec::new(alloc);
    coordinators.push(building(alloc, 1, limit)?)?;
    coordinators.push(building(alloc, 2, limit)?)?;
    coordinators.push(building(alloc, 3, limit)?)?;
    world_of(coordinators)
}

// The functions below have no contract: the tests are of what is answered, and proofs of them stay short.

// A version of a job, told at coordinator 1.
fn tell(version: u64, wait: u32) -> Step {
    let op = JOB.version(version).wait(wait).op();
    step(1, Act::Tell(op))
}

fn cut(from: u64, to: u64) -> Step {
    step(1, Act::Cut(Range::Interval(from, to)))
}

fn deliver(at: u8, packet: usize) -> Step {
    step(at, Act::Deliver(packet))
}

fn run(world: &mut World<Rebuilder>, steps: &[Step]) -> Option<RunStop> {
    world.run(steps).err()
}

fn stop(place: usize, refusal: Refusal) -> Option<RunStop> {
    Some(RunStop { place, refusal })
}

#[test]
fn a_step_at_an_unlisted_number_is_refused(rt: HostRuntime) -> Result<(), Fail> {
    let mut world = world(rt.alloc(), 1)?;
    assert_eq!(rt;
        run(&mut world, &[step(4, Act::View)]),
        stop(0, Refusal::NoCoordinator)
    );
    Ok(())
}

#[test]
fn a_packet_is_delivered_only_once_it_is_cut(rt: HostRuntime) -> Result<(), Fail> {
    let mut world = world(rt.alloc(), 1)?;
    assert_eq!(rt;
        run(&mut world, &[deliver(1, 0)]),
        stop(0, Refusal::NoPacket)
    );
    Ok(())
}

#[test]
fn a_second_tell_is_refused_at_a_limit_of_one(rt: HostRuntime) -> Result<(), Fail> {
    let mut world = world(rt.alloc(), 1)?;
    assert_eq!(rt;
        run(&mut world, &[tell(1, 500), tell(1, 500)]),
        stop(1, Refusal::HistoryFull)
    );
    Ok(())
}

#[test]
fn a_cut_from_below_the_floor_is_refused(rt: HostRuntime) -> Result<(), Fail> {
    let mut world = world(rt.alloc(), 100)?;
    assert_eq!(rt; run(&mut world, &[tell(1, 500), tell(2, 600)]), None);
    assert_eq!(rt;
        run(&mut world, &[step(1, Act::Trim(1)), cut(0, 2)]),
        stop(1, Refusal::Trimmed(1))
    );
    Ok(())
}

// What the view of a View step says of the entries before it.
fn seen_at(world: &mut World<Rebuilder>, number: u8) -> Result<Option<usize>, Refusal> {
    let view = world.step(&step(number, Act::View))?;
    Ok(view.map(|seen| seen.at))
}

#[test]
fn a_view_step_is_answered(rt: HostRuntime) -> Result<(), Fail> {
    let mut world = world(rt.alloc(), 100)?;
    assert_eq!(rt; run(&mut world, &[tell(1, 500)]), None);
    assert_eq!(rt; seen_at(&mut world, 1), Ok(Some(1)));
    Ok(())
}

#[test]
fn a_dump_is_written(rt: HostRuntime) -> Result<(), Fail> {
    let mut world = world(rt.alloc(), 1)?;
    assert!(rt; !dumped(rt.alloc(), &mut world, 2)?.is_empty());
    Ok(())
}

// The whole of what coordinator 1 of a world of its own knows after two tells, as a packet.
fn packet_of_another_world(alloc: Global) -> Result<Packet, Fail> {
    let mut world = world(alloc, 100)?;
    world
        .run(&[tell(1, 500), tell(2, 600), step(1, Act::Cut(Range::Full))])
        .map_err(|_| "a step was refused")?;
    let packet = world.packet(0).ok_or("no packet was cut")?;
    Ok(packet.copy()?)
}

#[test]
fn a_packet_of_another_world_is_merged(rt: HostRuntime) -> Result<(), Fail> {
    let alloc = rt.alloc();
    let mut world = world(alloc, 100)?;
    assert_eq!(rt; run(&mut world, &[tell(1, 500), tell(2, 600)]), None);
    assert_eq!(rt; agree(&world, 1, 2), Some(false));
    assert_eq!(rt; world.take(2, 0, packet_of_another_world(alloc)?), Ok(()));
    assert_eq!(rt; agree(&world, 1, 2), Some(true));
    assert_eq!(rt;
        world.take(4, 0, packet_of_another_world(alloc)?),
        Err(Refusal::NoCoordinator)
    );
    Ok(())
}

// Whether two coordinators know the same.
fn agree(world: &World<Rebuilder>, first: u8, second: u8) -> Option<bool> {
    let first = world.coordinator(CoordId::new(first)?)?;
    let second = world.coordinator(CoordId::new(second)?)?;
    Some(first.knowledge() == second.knowledge())
}

#[test]
fn deltas_alone_and_together_and_again_come_to_one(rt: HostRuntime) -> Result<(), Fail> {
    let mut world = world(rt.alloc(), 100)?;
    assert_eq!(rt; run(&mut world, &[tell(1, 500), tell(2, 600)]), None);
    assert_eq!(rt; run(&mut world, &[cut(0, 1), cut(1, 2), cut(0, 2)]), None);
    assert_eq!(rt; agree(&world, 1, 2), Some(false));
    assert_eq!(rt; run(&mut world, &[deliver(2, 2), deliver(3, 1)]), None);
    assert_eq!(rt;
        run(&mut world, &[deliver(3, 0), deliver(3, 1), deliver(3, 0)]),
        None
    );
    assert_eq!(rt; agree(&world, 1, 2), Some(true));
    assert_eq!(rt; agree(&world, 1, 3), Some(true));
    Ok(())
}
