//! The part of a plan that a coordinator carries out.
//!
//! Each coordinator plans for all that it knows, so those that know the same would all start the same tasks. A share
//! lets each of them carry out the entries of its own tasks alone. What the others do is in its plan already.

ghost use Rattle.std.specs.Prelude.{◌≡◌, [], filter, IfOk};
ghost use Rattle.fm_share.specs.Shares.{has_task, first_on_each, at_most_on_each, share_of, whole};

use crate::taken_places::TakenPlaces;
use crate::writers::Writers;
use fm_know::knowledge::Knowledge;
use fm_lattice::join::OutOfMemory;
use fm_records::ids::TaskId;
use fm_round::listed::Listed;
use fm_round::plan::{Place, Plan, Preempt};
use std::alloc::Global;

/// Which entries of a plan are carried out. Without writers and without a number it is the whole plan.
#[derive(Debug, Clone, Copy, PartialEq, Eq, Drop)]
pub struct Share {
    /// Only entries whose task's spec one of them wrote. If none are named, entries of all tasks, also of those whose
    /// spec is not known.
    pub writers: Option<Writers>,
    /// At most so many of these places on each machine, the first ones in the order of the plan. Preempts are not
    /// counted.
    pub each: Option<u32>,
}

impl Share {
    /// The whole plan.
    pub fn whole() -> Share
        ensures { result ≡ whole }
    {
        Share {
            writers: None,
            each: None,
        }
    }
}

/// The entries of the plan that the share has, in their order: the places and preempts of tasks whose spec one of its
/// writers wrote, and of these places on each machine the first, as many as it allows. Refused only if memory runs
/// out. O(p (log n + log m)) for p entries, n tasks and m machines. A whole share gives a copy of the plan, which
/// callers that can use the plan itself need not make.
pub fn share_of(
    alloc: Global,
    knowledge: &Knowledge,
    share: &Share,
    plan: &Plan,
) -> Result<Plan, OutOfMemory>
    ensures { IfOk result (λ part. part ≡ share_of knowledge.now share.now plan.now) }
{
    let writers = &share.writers;
    let places = places_of(alloc, knowledge, writers, plan.places.as_slice())?;
    let preempts = preempts_of(alloc, knowledge, writers, plan.preempts.as_slice())?;
    let places = at_most_on_each(alloc, share.each, places)?;
    Ok(Plan {
        places: Listed::new(places),
        preempts: Listed::new(preempts),
    })
}

// Whether one of the writers wrote the task's spec, if writers are named.
fn has_task(knowledge: &Knowledge, writers: &Option<Writers>, task: TaskId) -> bool
    ensures { result ≡ has_task knowledge.now writers.now task }
{
    let Some(writers) = writers else {
        return true;
    };
    match knowledge.spec(task) {
        Some(spec) => writers.contains(spec.writer),
        None => false,
    }
}

// The places of the writers' tasks.
fn places_of(
    alloc: Global,
    knowledge: &Knowledge,
    writers: &Option<Writers>,
    places: &[Place],
) -> Result<Vec<Place>, OutOfMemory>
    ensures { IfOk result
        (λ found. found.items ≡ filter (λ p. has_task knowledge.now writers.now p.task) places.now) }
{
    let mut found = Vec::new(alloc);
    for place in places {
        if has_task(knowledge, writers, place.task) {
            found.push(*place)?;
        }
    }
    Ok(found)
}

// The preempts of the writers' tasks.
fn preempts_of(
    alloc: Global,
    knowledge: &Knowledge,
    writers: &Option<Writers>,
    preempts: &[Preempt],
) -> Result<Vec<Preempt>, OutOfMemory>
    ensures { IfOk result
        (λ found. found.items ≡ filter (λ p. has_task knowledge.now writers.now p.task) preempts.now) }
{
    let mut found = Vec::new(alloc);
    for preempt in preempts {
        if has_task(knowledge, writers, preempt.task) {
            found.push(*preempt)?;
        }
    }
    Ok(found)
}

// At most so many of the places on each machine, the first ones, if there is a limit.
fn at_most_on_each(
    alloc: Global,
    each: Option<u32>,
    places: Vec<Place>,
) -> Result<Vec<Place>, OutOfMemory>
    ensures { IfOk result (λ kept. kept.items ≡ at_most_on_each each places.items) }
{
    match each {
        Some(each) => first_on_each(alloc, each, places.as_slice()),
        None => Ok(places),
    }
}

// The places before which fewer than so many are on their machine.
fn first_on_each(alloc: Global, each: u32, places: &[Place]) -> Result<Vec<Place>, OutOfMemory>
    ensures { IfOk result (λ kept. kept.items ≡ first_on_each each [] places.now) }
{
    let mut taken = TakenPlaces::new(alloc);
    let mut kept = Vec::new(alloc);
    for place in places {
        if taken.take(place.machine, each)? {
            kept.push(*place)?;
        }
    }
    Ok(kept)
}
