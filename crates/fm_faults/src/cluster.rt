//! What is known of a cluster.
//!
//! Calls with long contracts are by themselves here and elsewhere, in functions without one: so the proofs of what
//! goes through many of them are short.

use fm_delta::packet::Packet;
use fm_know::knowledge::Knowledge;
use fm_lattice::join::Join;
use fm_records::ids::{CoordId, JobId, MachineId, TaskId};
use fm_records::ops::{Op, Phase};
use fm_records::prefer::Prefer;
use fm_records::refusal::Refusal;
use fm_round::listed::Listed;
use fm_round::plan::{Place, Plan, Preempt};
use std::alloc::Global;

const JOBS: u32 = 5;

const MACHINES: u32 = 20;

// The number of a record, by which ids come in no order.
fn scattered(number: u32) -> u128 {
    u128::from(number).wrapping_mul(0x9e37_79b9_7f4a_7c15_f39c_c060_5ced_c835)
}

fn job(number: u32) -> Op {
    let wait = number.wrapping_mul(7919) % 3000;
    Op::Job {
        id: JobId::new(scattered(number % JOBS)),
        version: u64::from(number),
        writer: 1,
        withdrawn: false,
        wait,
        preempt: wait / 2,
    }
}

fn machine(number: u32) -> Op {
    Op::Machine {
        id: MachineId::new(scattered(number % MACHINES)),
        incarnation: 1,
        version: u64::from(number),
        writer: 1,
        up: true,
        slots: 3,
        nic: 1000,
    }
}

fn report(number: u32) -> Op {
    Op::Report {
        id: MachineId::new(scattered(number % MACHINES)),
        incarnation: 1,
        number: u64::from(number),
        used: number % 3 * 100,
    }
}

fn task(number: u32) -> Op {
    Op::Spec {
        id: TaskId::new(scattered(number)),
        version: 1,
        writer: 1,
        withdrawn: false,
        job: JobId::new(scattered(number % JOBS)),
        request: number % 7 * 50,
        prefer: preferred(number),
    }
}

// Two machines, but none for a third of the tasks.
fn preferred(number: u32) -> Prefer {
    let one = MachineId::new(scattered(number % MACHINES));
    let other = MachineId::new(scattered(number.wrapping_add(7) % MACHINES));
    let entries = if one < other {
        [(one, 10), (other, 20)]
    } else {
        [(other, 10), (one, 20)]
    };
    match Prefer::new(&entries) {
        Some(prefer) if number % 3 > 0 => prefer,
        _ => Prefer::default(),
    }
}

// Two machines, each by its number and with its credit.
fn preferring(one: (u32, u32), other: (u32, u32)) -> Prefer {
    let first = (MachineId::new(scattered(one.0)), one.1);
    let second = (MachineId::new(scattered(other.0)), other.1);
    let entries = if first.0 < second.0 {
        [first, second]
    } else {
        [second, first]
    };
    Prefer::new(&entries).unwrap_or_default()
}

fn progress(number: u32) -> Op {
    Op::Progress {
        id: TaskId::new(scattered(number)),
        attempt: 1,
        phase: Phase::Running,
    }
}

fn proposal(number: u32) -> Op {
    Op::Propose {
        id: TaskId::new(scattered(number)),
        attempt: 0,
        coordinator: 1,
        machine: MachineId::new(scattered(number % MACHINES)),
        incarnation: 1,
    }
}

/// One operation of many, of which every eight are a job, a machine, a report, three tasks, a further attempt of one of
/// these, and where that one or another was to run.
pub(crate) fn op(number: u32) -> Op {
    let group = number / 8;
    match number % 8 {
        0 => job(group),
        1 => machine(group),
        2 => report(group),
        6 => progress(number.wrapping_sub(1)),
        7 => proposal(number.wrapping_sub(2 + group % 2)),
        _ => task(number),
    }
}

/// The knowledge of these operations, the second number's not among them.
pub(crate) fn known(alloc: Global, from: u32, to: u32) -> Result<Knowledge, Refusal> {
    let mut known = Knowledge::empty(alloc);
    for number in from..to {
        tell(alloc, &mut known, &op(number))?;
    }
    Ok(known)
}

/// What is known of a chain of so many machines of one slot, and of one more behind them: a task of each prefers it and, a little
/// less, the next one, and one task more prefers the first two. So all tasks but one have to move on.
pub(crate) fn chain(alloc: Global, machines: u32) -> Result<Knowledge, Refusal> {
    let mut known = Knowledge::empty(alloc);
    tell(alloc, &mut known, &patient_job())?;
    for number in 0..=machines {
        let first = number.saturating_sub(1);
        tell(alloc, &mut known, &narrow_machine(number))?;
        tell(alloc, &mut known, &chained_task(number, first))?;
    }
    Ok(known)
}

fn patient_job() -> Op {
    Op::Job {
        id: JobId::new(scattered(0)),
        version: 1,
        writer: 1,
        withdrawn: false,
        wait: 1_000_000,
        preempt: 1_000_000,
    }
}

fn narrow_machine(number: u32) -> Op {
    Op::Machine {
        id: MachineId::new(scattered(number)),
        incarnation: 1,
        version: 1,
        writer: 1,
        up: true,
        slots: 1,
        nic: 1000,
    }
}

fn chained_task(number: u32, first: u32) -> Op {
    Op::Spec {
        id: TaskId::new(scattered(number)),
        version: 1,
        writer: 1,
        withdrawn: false,
        job: JobId::new(scattered(0)),
        request: 1000,
        prefer: preferring((first, 20), (first.saturating_add(1), 10)),
    }
}

/// Takes the operation in.
pub(crate) fn tell(alloc: Global, known: &mut Knowledge, op: &Op) -> Result<(), Refusal> {
    op.check()?;
    let delta = Knowledge::delta_of(alloc, op)?;
    join(known, &delta)
}

/// Takes the other in.
pub(crate) fn join(known: &mut Knowledge, other: &Knowledge) -> Result<(), Refusal> {
    known.join_into(other)?;
    Ok(())
}

/// Another that is the same.
pub(crate) fn copied(known: &Knowledge) -> Result<Knowledge, Refusal> {
    Ok(known.copy()?)
}

/// Whether both are the same.
pub(crate) fn are_same(one: &Knowledge, other: &Knowledge) -> bool {
    one == other
}

/// A packet of the knowledge of these operations.
pub(crate) fn packet(alloc: Global, from: u32, to: u32) -> Result<Packet, Refusal> {
    Ok(Packet {
        sender: numbered(2)?,
        number: 1,
        value: known(alloc, from, to)?,
    })
}

/// A plan for some of the first tasks: three are to run, of which one runs already, and that one is to stop.
pub(crate) fn plan(alloc: Global) -> Result<Plan, Refusal> {
    let mut places = Vec::new(alloc);
    for number in [3, 11, 13] {
        places.push(Place {
            task: TaskId::new(scattered(number)),
            machine: MachineId::new(scattered(1)),
            incarnation: 1,
        })?;
    }
    let mut preempts = Vec::new(alloc);
    preempts.push(Preempt {
        task: TaskId::new(scattered(13)),
        attempt: 0,
    })?;
    Ok(Plan {
        places: Listed::new(places),
        preempts: Listed::new(preempts),
    })
}

/// The number of a coordinator.
pub(crate) fn numbered(number: u8) -> Result<CoordId, Refusal> {
    match CoordId::new(number) {
        Some(number) => Ok(number),
        None => Err(Refusal::NoCoordinator),
    }
}
