//! Drawn exchanges of coordinators are gathered, and run again.

use crate::coordinators::{dumped, gathered, keeping, placing, world_of};
use crate::samples::{JOB, MACHINE, TASK};
use fm_coord::entry::Range;
use fm_edit::keepers::Keeper;
use fm_records::ids::{MachineId, TaskId};
use fm_records::ops::Op;
use fm_records::refusal::Refusal;
use fm_round::plan::{Place, Plan};
use fm_world::step::{Act, Step};
use fm_world::world::World;
use std::alloc::Global;
use std::test::Fail;

const SEEDS: u32 = 40;

const STEPS: u32 = 60;

// A world of the coordinators 1 to 5, of which every second edits its network: the first where that is asked.
fn world(alloc: Global, first_edits: bool) -> Result<World<Keeper>, Fail> {
    let mut nodes = Vec::new(alloc);
    nodes.push(keeping(alloc, 1, 1_000, first_edits)?)?;
    nodes.push(keeping(alloc, 2, 1_000, !first_edits)?)?;
    nodes.push(keeping(alloc, 3, 1_000, first_edits)?)?;
    nodes.push(keeping(alloc, 4, 1_000, !first_edits)?)?;
    nodes.push(keeping(alloc, 5, 1_000, first_edits)?)?;
    world_of(nodes)
}

// The functions below have no contract: the tests are of what is answered, and proofs of them stay short.

fn draw(state: &mut u32, below: u32) -> u32 {
    *state = state.wrapping_mul(1_103_515_245).wrapping_add(12_345);
    (*state >> 16) % below.max(1)
}

// An operation on one of few jobs, machines and tasks.
fn operation(state: &mut u32) -> Op {
    let version = u64::from(draw(state, 4));
    match draw(state, 3) {
        0 => JOB.version(version).wait(draw(state, 100)).op(),
        1 => MACHINE
            .id(u128::from(draw(state, 3)))
            .version(version)
            .up(draw(state, 5) > 0)
            .op(),
        _ => TASK
            .id(u128::from(draw(state, 5)))
            .version(version)
            .request(draw(state, 400))
            .op(),
    }
}

// A plan that places a task.
fn plan(alloc: Global, state: &mut u32) -> Result<Plan, Refusal> {
    let place = Place {
        task: TaskId::new(u128::from(draw(state, 5))),
        machine: MachineId::new(u128::from(draw(state, 3))),
        incarnation: 1,
    };
    placing(alloc, place)
}

// An act, if so many packets were cut.
fn act(alloc: Global, state: &mut u32, cuts: u32) -> Result<Act, Refusal> {
    Ok(match draw(state, 7) {
        0 => Act::Cut(Range::Full),
        1 | 2 if cuts > 0 => Act::Deliver(draw(state, cuts) as usize),
        3 => Act::View,
        4 => Act::Trim(u64::from(draw(state, 3))),
        5 => Act::Commit(plan(alloc, state)?),
        _ => Act::Tell(operation(state)),
    })
}

// Lets the first coordinators, so many, do what is drawn, asked by seats 0 to 2, and answers how many steps were
// accepted: a trim may ask for more than there is.
fn play(alloc: Global, world: &mut World<Keeper>, seed: u32, count: u8) -> Result<usize, Fail> {
    let mut state = seed;
    let mut cuts = 0u32;
    let mut accepted = 0usize;
    for _i in 0..STEPS {
        let at = u8::try_from(draw(&mut state, u32::from(count))).unwrap_or(0);
        let at = at.saturating_add(1);
        let by = draw(&mut state, 3);
        let act = act(alloc, &mut state, cuts)?;
        let is_cut = matches!(act, Act::Cut(_));
        if world.step(&Step { at, by, act }).is_ok() {
            accepted = accepted.saturating_add(1);
            cuts = cuts.saturating_add(u32::from(is_cut));
        }
    }
    Ok(accepted)
}

// Whether the coordinators of the two worlds know the same, have as long histories, and dump the same.
fn are_alike(
    alloc: Global,
    first: &mut World<Keeper>,
    second: &mut World<Keeper>,
    count: u8,
) -> Result<bool, Fail> {
    for (one, other) in first.coordinators().iter().zip(second.coordinators()) {
        if one.knowledge() != other.knowledge() || one.history().len() != other.history().len() {
            return Ok(false);
        }
    }
    for number in 1..=count {
        if dumped(alloc, first, number)? != dumped(alloc, second, number)? {
            return Ok(false);
        }
    }
    Ok(true)
}

// Whether what is drawn is gathered to as many steps as were accepted, which a new world takes and which come to the
// same.
fn is_gathered(alloc: Global, seed: u32) -> Result<bool, Fail> {
    let count = 2 + (seed % 4) as u8;
    let mut played = world(alloc, true)?;
    let accepted = play(alloc, &mut played, seed, count)?;
    let Some(steps) = gathered(alloc, played.coordinators()) else {
        return Ok(false);
    };
    let mut again = world(alloc, false)?;
    if steps.len() != accepted || again.run(steps.as_slice()).is_err() {
        return Ok(false);
    }
    are_alike(alloc, &mut played, &mut again, count)
}

#[test]
fn drawn_exchanges_are_gathered_and_run_again(rt: HostRuntime) -> Result<(), Fail> {
    for seed in 0..SEEDS {
        assert_eq!(rt; (seed, is_gathered(rt.alloc(), seed)?), (seed, true));
    }
    Ok(())
}
