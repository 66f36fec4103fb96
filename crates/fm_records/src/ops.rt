//! Operations, which are what a coordinator is told: one fact each, with a check of the ranges of its fields.
//!
//! What was merged cannot be taken back. So an operation is checked before it becomes a delta, and packets and networks
//! need to be right only for fields in their ranges.

ghost use Rattle.std.specs.Prelude.{◌≡◌, ◌↔◌, ◌&&◌, if◌then◌else◌, nat_le, IsOk, IfErr, option_map};
ghost use Rattle.fm_records.specs.Ids.{is_coordinator};
ghost use Rattle.std.specs.List.{list_all};
ghost use Rattle.fm_records.specs.Ops.{op_fault, is_price, is_preference};
ghost use Rattle.fm_records.specs.Preferences.{machines_rise, rises_above};

use crate::ids::{JobId, MachineId, TaskId};
use crate::prefer::Prefer;
use crate::refusal::Refusal;
use std::fmt;

/// The greatest cost, of waiting, of a preemption and of an arc, and the greatest credit.
pub const MOST_PRICE: u32 = 1_000_000_000;

/// The greatest bandwidth of a machine, and the greatest request of a task.
pub const MOST_BANDWIDTH: u32 = 1_000_000;

/// The most tasks that a machine takes at a time.
pub const MOST_SLOTS: u32 = 1_000;

/// The greatest use that a machine reports.
pub const MOST_USE: u32 = 1_000_000_000;

/// How far an attempt to run a task is.
#[derive(Debug, Clone, Copy, PartialEq, Eq, PartialOrd, Ord, Drop)]
pub enum Phase {
    Pending,
    Running,
    Done,
}

/// One thing that a coordinator is told: a register of a job or a task, how far a task is, the state or a report of a
/// machine at an incarnation, or where a coordinator would place an attempt.
#[derive(Debug, Clone, Copy, PartialEq, Eq, Drop)]
pub enum Op {
    Job {
        id: JobId,
        version: u64,
        writer: u8,
        withdrawn: bool,
        wait: u32,
        preempt: u32,
    },
    Spec {
        id: TaskId,
        version: u64,
        writer: u8,
        withdrawn: bool,
        job: JobId,
        request: u32,
        prefer: Prefer,
    },
    Progress {
        id: TaskId,
        attempt: u32,
        phase: Phase,
    },
    Machine {
        id: MachineId,
        incarnation: u64,
        version: u64,
        writer: u8,
        up: bool,
        slots: u32,
        nic: u32,
    },
    Report {
        id: MachineId,
        incarnation: u64,
        number: u64,
        used: u32,
    },
    Propose {
        id: TaskId,
        attempt: u32,
        coordinator: u8,
        machine: MachineId,
        incarnation: u64,
    },
}

/// A field of an operation that has a range of its own.
#[derive(Debug, Clone, Copy, PartialEq, Eq, Drop)]
pub enum Field {
    Writer,
    Wait,
    Preempt,
    Request,
    Prefer,
    Slots,
    Nic,
    Used,
    Coordinator,
}

impl fmt::Display for Field {
    fn fmt<W: fmt::Write>(&self, f: &mut fmt::Formatter<W>) -> fmt::Result {
        match self {
            Field::Writer => write!(f, "writer"),
            Field::Wait => write!(f, "wait"),
            Field::Preempt => write!(f, "preempt"),
            Field::Request => write!(f, "request"),
            Field::Prefer => write!(f, "prefer"),
            Field::Slots => write!(f, "slots"),
            Field::Nic => write!(f, "nic"),
            Field::Used => write!(f, "used"),
            Field::Coordinator => write!(f, "coordinator"),
        }
    }
}

impl Op {
    /// Whether each field is in its range: a writer and a coordinator from 1 to 64, wait, preempt and used to
    /// 1,000,000,000, request and nic to 1,000,000, slots from 1 to 1,000; machines that are preferred rise, with credits
    /// to 1,000,000,000. A refusal names the first field, in the order of the operation's fields, that is not.
    pub fn check(&self) -> Result<(), Refusal>
        ensures ok { IsOk result ↔ (op_fault self.now ≡ None) }
        ensures err { IfErr result (λ e. option_map Refusal.BadOp (op_fault self.now) ≡ Some e) }
    {
        match *self {
            Op::Job {
                writer,
                wait,
                preempt,
                ..
            } => {
                within_coordinators(Field::Writer, writer)?;
                within(Field::Wait, 0, wait, MOST_PRICE)?;
                within(Field::Preempt, 0, preempt, MOST_PRICE)
            }
            Op::Spec {
                writer,
                request,
                prefer,
                ..
            } => {
                within_coordinators(Field::Writer, writer)?;
                within(Field::Request, 0, request, MOST_BANDWIDTH)?;
                within_preferences(&prefer)
            }
            Op::Progress { .. } => Ok(()),
            Op::Machine {
                writer,
                slots,
                nic,
                ..
            } => {
                within_coordinators(Field::Writer, writer)?;
                within(Field::Slots, 1, slots, MOST_SLOTS)?;
                within(Field::Nic, 0, nic, MOST_BANDWIDTH)
            }
            Op::Report { used, .. } => within(Field::Used, 0, used, MOST_USE),
            Op::Propose { coordinator, .. } => within_coordinators(Field::Coordinator, coordinator),
        }
    }
}

// Whether the field names a coordinator, as writers do too: from 1 to 64.
fn within_coordinators(field: Field, number: u8) -> Result<(), Refusal>
    ensures { result ≡ (if is_coordinator number then Ok tt else Err (Refusal.BadOp field)) }
{
    within(field, 1, number as u32, 64)
}

// Whether the machines rise, and each credit is in the range of a cost.
fn within_preferences(prefer: &Prefer) -> Result<(), Refusal>
    ensures { result ≡ (if is_preference prefer.now then Ok tt else Err (Refusal.BadOp Field.Prefer)) }
{
    let entries = prefer.entries();
    if machines_rise(entries) && credits_within(entries) {
        Ok(())
    } else {
        Err(Refusal::BadOp(Field::Prefer))
    }
}

// Whether each machine is above the one before it.
fn machines_rise(entries: &[(MachineId, u32)]) -> bool
    ensures { result ≡ machines_rise entries.now }
{
    match entries {
        [] => true,
        [(first, _), rest @ ..] => rises_above(*first, rest),
    }
}

// Whether the first machine is above the one given, and each further one above the one before it.
fn rises_above(last: MachineId, entries: &[(MachineId, u32)]) -> bool
    ensures { result ≡ rises_above last entries.now }
{
    match entries {
        [] => true,
        [(first, _), rest @ ..] => last < *first && rises_above(*first, rest),
    }
}

// Whether each credit is in the range of a cost.
fn credits_within(entries: &[(MachineId, u32)]) -> bool
    ensures { result ≡ list_all (λ entry. is_price entry.1) entries.now }
{
    entries.iter().all(|(_, credit)| *credit <= MOST_PRICE)
}

// Whether the field's value is from the least to the greatest.
fn within(field: Field, least: u32, value: u32, greatest: u32) -> Result<(), Refusal>
    ensures { result ≡ (if nat_le least value && nat_le value greatest then Ok tt else Err (Refusal.BadOp field)) }
{
    if least <= value && value <= greatest {
        Ok(())
    } else {
        Err(Refusal::BadOp(field))
    }
}
