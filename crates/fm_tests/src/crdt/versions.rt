//! The operations by which a coordinator speaks after what it knows.

use crate::samples::{JOB, MACHINE, PROGRESS};
use crate::told::known;
use fm_know::knowledge::Knowledge;
use fm_records::ids::{JobId, MachineId, TaskId};
use fm_records::ops::{Op, Phase};
use fm_records::refusal::Refusal;
use std::alloc::Global;
use std::test::Fail;

// What is spoken of next.
#[derive(Clone, Copy, Drop)]
enum Spoken {
    Job,
    Machine(u64),
    Attempt,
}

// The functions below have no contract: the tests are of what is answered, and proofs of them stay short.

fn next(known: &Knowledge, spoken: Spoken) -> Result<Op, Refusal> {
    match spoken {
        Spoken::Job => known.next_job(JobId::new(1), 1, false, 500, 800),
        Spoken::Machine(incarnation) => {
            known.next_machine(MachineId::new(10), incarnation, 1, true, 2, 1_000)
        }
        Spoken::Attempt => known.next_attempt(TaskId::new(17)),
    }
}

// Whether this is said after the operations.
fn is_said(
    alloc: Global,
    ops: &[Op],
    spoken: Spoken,
    wanted: Result<Op, Refusal>,
) -> Result<bool, Fail> {
    let known = known(alloc, ops)?;
    Ok(next(&known, spoken) == wanted)
}

#[test]
fn a_job_is_spoken_of_at_its_next_version(rt: HostRuntime) -> Result<(), Fail> {
    let last = JOB.version(18_446_744_073_709_551_615).op();
    let spent = Err(Refusal::VersionsSpent);
    assert!(rt; is_said(rt.alloc(), &[], Spoken::Job, Ok(JOB.op()))?);
    let (second, third) = (JOB.version(2).op(), JOB.version(3).op());
    assert!(rt; is_said(rt.alloc(), &[second], Spoken::Job, Ok(third))?);
    assert!(rt; is_said(rt.alloc(), &[last], Spoken::Job, spent)?);
    Ok(())
}

#[test]
fn a_machine_is_spoken_of_by_incarnation(rt: HostRuntime) -> Result<(), Fail> {
    let first = [MACHINE.op()];
    let last = [MACHINE.version(18_446_744_073_709_551_615).op()];
    let spent = Err(Refusal::VersionsSpent);
    let (second, back) = (MACHINE.version(2).op(), MACHINE.incarnation(2).op());
    assert!(rt; is_said(rt.alloc(), &first, Spoken::Machine(1), Ok(second))?);
    assert!(rt; is_said(rt.alloc(), &first, Spoken::Machine(2), Ok(back))?);
    assert!(rt; is_said(rt.alloc(), &last, Spoken::Machine(1), spent)?);
    Ok(())
}

#[test]
fn a_task_goes_on_to_its_next_attempt(rt: HostRuntime) -> Result<(), Fail> {
    let last = [PROGRESS.attempt(4_294_967_295).op()];
    let first = Ok(PROGRESS.phase(Phase::Pending).op());
    let spent = Err(Refusal::AttemptsSpent);
    assert!(rt; is_said(rt.alloc(), &[], Spoken::Attempt, first)?);
    assert!(rt; is_said(rt.alloc(), &last, Spoken::Attempt, spent)?);
    Ok(())
}
