//! Knowledge of one operation and of several, joined.

use crate::crdt::lattice::joined;
use crate::samples::{JOB, PROGRESS, PROPOSAL, REPORT, TASK};
use crate::told::{delta, join, known};
use fm_know::knowledge::Knowledge;
use fm_records::ids::{MachineId, TaskId};
use fm_records::ops::{Op, Phase};
use fm_records::prefer::Prefer;
use std::alloc::Global;
use std::test::Fail;

// The functions below have no contract: the tests are of what is answered, and proofs of them stay short.

fn copy(known: &Knowledge) -> Result<Knowledge, Fail> {
    Ok(known.copy()?)
}

// How many keys each map has.
fn keys(known: &Knowledge) -> [usize; 4] {
    [
        known.jobs().len(),
        known.tasks().len(),
        known.machines().len(),
        known.proposals().len(),
    ]
}

// With ample memory nothing is refused; what comes out is said by the contracts.
#[test]
fn a_job_is_known_once(rt: HostRuntime) -> Result<(), Fail> {
    let first = known(rt.alloc(), &[JOB.op()])?;
    let mut second = copy(&first)?;
    join(&mut second, &delta(rt.alloc(), &JOB.version(2).op())?)?;
    assert_eq!(rt; keys(&second), [1, 0, 0, 0]);
    Ok(())
}

#[test]
fn whole_knowledges_are_joined(rt: HostRuntime) -> Result<(), Fail> {
    let known = known(rt.alloc(), &[JOB.op()])?;
    assert_eq!(rt; keys(&joined(&known, &known)?), [1, 0, 0, 0]);
    Ok(())
}

// What is known of a task that runs. The operation is written out: a proof has to see that its fields are in range.
fn running(alloc: Global) -> Result<Knowledge, Fail> {
    let ops = [Op::Progress {
        id: TaskId::new(17),
        attempt: 1,
        phase: Phase::Running,
    }];
    Ok(Knowledge::told(alloc, &ops)?)
}

#[test]
fn operations_are_told_together(rt: HostRuntime) -> Result<(), Fail> {
    assert_eq!(rt; keys(&running(rt.alloc())?), [0, 1, 0, 0]);
    Ok(())
}

// What is known to be preferred if the operations are told.
fn preferred(alloc: Global, ops: &[Op]) -> Result<Option<Prefer>, Fail> {
    let known = known(alloc, ops)?;
    Ok(known.spec(TaskId::new(17)).map(|spec| spec.prefer()))
}

#[test]
fn of_two_specs_the_longer_list_counts(rt: HostRuntime) -> Result<(), Fail> {
    let entries = [(MachineId::new(10), 1), (MachineId::new(11), 1)];
    let (short, long) = (TASK.prefer(&entries[..1]).op(), TASK.prefer(&entries).op());
    let wanted = Prefer::new(&entries);
    assert_eq!(rt; preferred(rt.alloc(), &[short, long])?, wanted);
    assert_eq!(rt; preferred(rt.alloc(), &[long, short])?, wanted);
    Ok(())
}

// Operations of which each is of another kind, with keys of their own.
fn ops(number: u128) -> [Op; 4] {
    [
        JOB.id(number).op(),
        PROGRESS.id(number).op(),
        REPORT.id(number).op(),
        PROPOSAL.id(number).attempt(1).machine(number).op(),
    ]
}

// What so many fours of operations come to, each by itself.
fn lots(alloc: Global, count: u32) -> Result<Vec<Knowledge>, Fail> {
    let mut lots = Vec::new(alloc);
    for number in 0..count {
        lots.push(known(alloc, &ops(u128::from(number)))?)?;
    }
    Ok(lots)
}

fn has_joined(known: &mut Knowledge, other: &Knowledge) -> bool {
    known.join_into(other).is_ok()
}

// Whether it has a key more in each map, or if memory ran out in none.
fn joins_or_not(known: &mut Knowledge, other: &Knowledge) -> bool {
    let before = keys(known);
    let more = usize::from(has_joined(known, other));
    keys(known) == before.map(|count| count.saturating_add(more))
}

// Memory is ample here. `tests/wrong_bodies` has an allocation among these joins refused, in a tree in which one joins
// map by map.
#[test]
fn a_refused_join_leaves_no_key(rt: HostRuntime) -> Result<(), Fail> {
    let mut known = Knowledge::empty(rt.alloc());
    for other in &lots(rt.alloc(), 100)? {
        assert!(rt; joins_or_not(&mut known, other));
    }
    Ok(())
}
