//! What threads did is gathered, and run again in one thread.

use crate::coordinators::{dump_of, dumped, gathered, keeping, world_of};
use crate::samples::{JOB, MACHINE, TASK};
use fm_coord::coordinator::Coordinator;
use fm_edit::keepers::Keeper;
use fm_fleet::round::NoGate;
use fm_gossip::member::Member;
use fm_gossip::member_threads::run_fleet;
use fm_records::ops::Op;
use fm_world::step::Step;
use fm_world::world::World;
use std::alloc::Global;
use std::sync::Wait;
use std::test::Fail;
use std::thread::Threads;

const COUNT: u8 = 3;

const ROUNDS: u32 = 4;

// A job, a machine and two tasks that each member is told, with ids and versions of its own.
fn tells(alloc: Global, number: u8) -> Result<Vec<Op>, Fail> {
    let own = u128::from(number);
    let ops = [
        JOB.id(own).writer(number).op(),
        MACHINE.id(own).writer(number).slots(1).op(),
        task(number, own),
        task(number, own + 10),
    ];
    Ok(ops.to_vec(alloc)?)
}

fn task(number: u8, id: u128) -> Op {
    TASK.id(id).writer(number).job(u128::from(number)).op()
}

fn members(alloc: Global) -> Result<Vec<Member<Keeper, NoGate>>, Fail> {
    let mut members = Vec::new(alloc);
    for number in 1..=COUNT {
        let coordinator = keeping(alloc, number, 1_000, number == 2)?;
        let tells = tells(alloc, number)?;
        members.push(Member::new(coordinator, tells, NoGate))?;
    }
    Ok(members)
}

// The functions below have no contract: the tests are of what is answered, and proofs of them stay short.

// A new world of as many coordinators, which all edit their networks, or all build them.
fn world(alloc: Global, edits: bool) -> Result<World<Keeper>, Fail> {
    let mut coordinators = Vec::new(alloc);
    coordinators.push(keeping(alloc, 1, 1_000, edits)?)?;
    coordinators.push(keeping(alloc, 2, 1_000, edits)?)?;
    coordinators.push(keeping(alloc, 3, 1_000, edits)?)?;
    world_of(coordinators)
}

// A new world in which the steps were taken.
fn again(alloc: Global, steps: &[Step], edits: bool) -> Result<World<Keeper>, Fail> {
    let mut world = world(alloc, edits)?;
    if world.run(steps).is_err() {
        return Err("a step was refused".into());
    }
    Ok(world)
}

// Whether the coordinators of the world know what those of threads do, and have equal histories.
fn know_alike(world: &World<Keeper>, served: &[Coordinator<Keeper>]) -> bool {
    for (one, other) in world.coordinators().iter().zip(served) {
        if one.knowledge() != other.knowledge() || one.history() != other.history() {
            return false;
        }
    }
    true
}

// The dumps of all networks.
fn dumps_of(alloc: Global, served: Vec<Coordinator<Keeper>>) -> Result<Vec<Vec<u8>>, Fail> {
    let mut dumps = Vec::new(alloc);
    for mut coordinator in served {
        dumps.push(dump_of(alloc, &mut coordinator)?)?;
    }
    Ok(dumps)
}

// Whether the coordinators of the world dump these texts.
fn dump_alike(alloc: Global, world: &mut World<Keeper>, dumps: &[Vec<u8>]) -> Result<bool, Fail> {
    let mut number = 1u8;
    for dump in dumps {
        if dumped(alloc, world, number)?.as_slice() != dump.as_slice() {
            return Ok(false);
        }
        number = number.saturating_add(1);
    }
    Ok(true)
}

// Whether the worlds came to what the coordinators of threads did.
fn come_to(
    alloc: Global,
    mut builds: World<Keeper>,
    mut edits: World<Keeper>,
    served: Vec<Coordinator<Keeper>>,
) -> Result<bool, Fail> {
    if !know_alike(&builds, &served) || !know_alike(&edits, &served) {
        return Ok(false);
    }
    let dumps = dumps_of(alloc, served)?;
    Ok(dump_alike(alloc, &mut builds, &dumps)? && dump_alike(alloc, &mut edits, &dumps)?)
}

// The coordinators once their threads ended.
fn served<R: Threads + Wait + Sync>(
    rt: &R,
    alloc: Global,
) -> Result<Vec<Coordinator<Keeper>>, Fail> {
    match run_fleet(rt, alloc, members(alloc)?, ROUNDS) {
        Ok(served) => Ok(served),
        Err(fault) => Err(fault.refusal)?,
    }
}

// Whether what threads did is gathered, and comes to the same on coordinators that build and on ones that edit.
fn is_run_again<R: Threads + Wait + Sync>(rt: &R, alloc: Global) -> Result<bool, Fail> {
    let served = served(rt, alloc)?;
    let Some(steps) = gathered(alloc, &served) else {
        return Ok(false);
    };
    let builds = again(alloc, steps.as_slice(), false)?;
    let edits = again(alloc, steps.as_slice(), true)?;
    come_to(alloc, builds, edits, served)
}

#[test]
fn what_threads_did_is_run_again_by_builders_and_by_editors(rt: HostRuntime) -> Result<(), Fail> {
    assert!(rt; is_run_again(&rt, rt.alloc())?);
    Ok(())
}
