//! Histories gathered.

use crate::cluster::{numbered, op, packet, plan};
use crate::memory::Memory;
use crate::verdict::{Verdict, judged};
use fm_coord::coordinator::Coordinator;
use fm_coord::entry::Range;
use fm_coord::shared::Shared;
use fm_delta::packet::Packet;
use fm_policy::rebuilder::Rebuilder;
use fm_records::ops::Op;
use fm_records::refusal::Refusal;
use fm_round::plan::Plan;
use fm_world::distinct::distinct;
use fm_world::gather::gather;
use std::alloc::Global;

// How many operations each is told, and how many entries a history may have.
const TOLD: u32 = 61;

const LIMIT: usize = 1000;

// A coordinator that builds its network when it is asked for.
type Builder = Coordinator<Rebuilder>;

// What histories were gathered to: why they were not, how many steps, and how many coordinators are left.
#[derive(PartialEq, Drop)]
struct Outcome {
    refusal: Option<Refusal>,
    steps: usize,
    left: usize,
}

/// Two histories are gathered, of coordinators that exchanged what they know, and one of which committed a plan.
pub(crate) fn gathered(memory: Memory) -> Result<Verdict, Refusal> {
    let coordinators = two(memory)?;
    let whole = Outcome {
        refusal: None,
        steps: entries(coordinators.as_slice()),
        left: 0,
    };
    gathers(memory, coordinators.as_slice(), &whole)
}

/// The same, but the last merge of the second one is of a packet that was not cut.
pub(crate) fn stuck(memory: Memory) -> Result<Verdict, Refusal> {
    let mut coordinators = two(memory)?;
    merge_at_last(memory.alloc, coordinators.as_mut_slice())?;
    let but_one = Outcome {
        refusal: Some(Refusal::Stuck),
        steps: entries(coordinators.as_slice()).saturating_sub(1),
        left: 1,
    };
    gathers(memory, coordinators.as_slice(), &but_one)
}

fn two(memory: Memory) -> Result<Vec<Builder>, Refusal> {
    let mut both = Vec::new(memory.alloc);
    for number in 1..=2 {
        both.push(told(memory.alloc, number)?)?;
    }
    tell_one_another(memory.alloc, both.as_mut_slice())?;
    Ok(both)
}

// A coordinator that was told operations.
fn told(alloc: Global, number: u8) -> Result<Builder, Refusal> {
    let mut coordinator = new(alloc, number)?;
    for number in 0..TOLD {
        tell(&mut coordinator, op(number))?;
    }
    Ok(coordinator)
}

fn new(alloc: Global, number: u8) -> Result<Builder, Refusal> {
    let number = numbered(number)?;
    let keeper = Rebuilder::new(alloc)?;
    Ok(Coordinator::new(alloc, number, LIMIT, keeper))
}

fn tell(coordinator: &mut Builder, op: Op) -> Result<(), Refusal> {
    coordinator.tell(0, op)
}

fn merge(coordinator: &mut Builder, packet: Packet) -> Result<(), Refusal> {
    coordinator.merge(0, packet)
}

fn cut(coordinator: &mut Builder) -> Result<Shared<Packet>, Refusal> {
    coordinator.cut(0, Range::Full)
}

fn commit(coordinator: &mut Builder, plan: Plan) -> Result<(), Refusal> {
    let _admitted = coordinator.commit(0, plan)?;
    Ok(())
}

fn tell_one_another(alloc: Global, both: &mut [Builder]) -> Result<(), Refusal> {
    if let [one, other] = both {
        commit(one, plan(alloc)?)?;
        pass_on(one, other)?;
        pass_on(other, one)?;
    }
    Ok(())
}

fn pass_on(from: &mut Builder, to: &mut Builder) -> Result<(), Refusal> {
    let packet = cut(from)?;
    merge(to, packet.get().copy()?)
}

fn merge_at_last(alloc: Global, both: &mut [Builder]) -> Result<(), Refusal> {
    if let [_, other] = both {
        merge(other, packet(alloc, 40, 48)?)?;
    }
    Ok(())
}

// How many entries they have.
fn entries(coordinators: &[Builder]) -> usize {
    let mut entries = 0usize;
    for coordinator in coordinators {
        entries = entries.saturating_add(coordinator.history().len());
    }
    entries
}

fn gathers(memory: Memory, coordinators: &[Builder], wanted: &Outcome) -> Result<Verdict, Refusal> {
    memory.refuse();
    let found = steps_of(memory.alloc, coordinators)?;
    memory.give();
    if found.refusal == Some(Refusal::OutOfMemory) {
        return Ok(judged(found.refusal, found.steps == 0 && found.left == 0));
    }
    Ok(judged(None, found == *wanted))
}

fn steps_of(alloc: Global, coordinators: &[Builder]) -> Result<Outcome, Refusal> {
    if !distinct(coordinators) {
        return Err(Refusal::NoCoordinator);
    }
    match gather(alloc, coordinators) {
        Ok(steps) => Ok(Outcome {
            refusal: None,
            steps: steps.len(),
            left: 0,
        }),
        Err(fault) => Ok(Outcome {
            refusal: Some(fault.refusal),
            steps: fault.steps.len(),
            left: fault.left.len(),
        }),
    }
}
