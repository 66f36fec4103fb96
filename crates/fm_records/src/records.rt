//! Records: what is known of a job, a task or a machine.
//!
//! Two coordinators may write the same job before they hear of each other. So each record has a total order, and the
//! greatest one is kept, whatever came first. Jobs, specs and states go by version, then writer, then the other fields:
//! last-writer-wins registers (Shapiro, Preguica, Baquero and Zawirski, 2011) with versions in place of times. Of the
//! spots that one coordinator proposes for an attempt the least is kept.

ghost use Rattle.std.specs.Prelude.{◌≡◌};
ghost use Rattle.fm_records.specs.OpRecords.{job_record, spec_record, progress_record, machine_record, report_record, spot_record};

use crate::ids::{CoordId, JobId, MachineId, TaskId};
use crate::ops::{Op, Phase};
use crate::prefer::Prefer;
use fm_lattice::chain::Chain;
use fm_lattice::constructors::{Both, Lex, Max, Min, Opt};
use fm_lattice::map::JoinMap;

/// What is known of a task: its spec, if that is known, and its progress.
pub type TaskRec = Both<Opt<Max<SpecReg>>, Max<Progress>>;

/// What is known of a machine: its incarnation, and its state and its report at that, if known.
pub type MachineRec = Lex<u64, Both<Opt<Max<MachineReg>>, Opt<Max<Report>>>>;

/// Where coordinators would run an attempt of a task: by task and attempt, and then by coordinator.
pub type Proposals = JoinMap<(TaskId, u32), JoinMap<CoordId, Min<Spot>>>;

/// What is known of a job: whether it is withdrawn, and what waiting and a preemption cost.
/// Ordered by version, writer, and then the other fields, false before true.
#[derive(Debug, Clone, Copy, PartialEq, Eq, PartialOrd, Ord, Drop)]
pub struct JobReg {
    pub version: u64,
    pub writer: u8,
    pub withdrawn: bool,
    pub wait: u32,
    pub preempt: u32,
}

impl Chain for JobReg {
    ghost use Rattle.fm_records.specs.laws.OrderLaws.{same_job};

    ghost same = { same_job };
}

impl JobReg {
    /// The record of a Job operation whose check is Ok; none of another kind, or of one whose check refuses.
    pub fn of(op: &Op) -> Option<JobReg>
        ensures { result ≡ job_record op.now }
    {
        match *op {
            Op::Job {
                version,
                writer,
                withdrawn,
                wait,
                preempt,
                ..
            } if op.check().is_ok() => Some(JobReg {
                version,
                writer,
                withdrawn,
                wait,
                preempt,
            }),
            _ => None,
        }
    }

    /// The number of the change.
    pub fn version(&self) -> u64
        ensures { result ≡ self.now.version }
    {
        self.version
    }

    /// Who wrote it, from 1 to 64.
    pub fn writer(&self) -> u8
        ensures { result ≡ self.now.writer }
    {
        self.writer
    }

    /// Whether it is withdrawn.
    pub fn withdrawn(&self) -> bool
        ensures { result ≡ self.now.withdrawn }
    {
        self.withdrawn
    }

    /// What a task of the job that is left waiting costs.
    pub fn wait(&self) -> u32
        ensures { result ≡ self.now.wait }
    {
        self.wait
    }

    /// What a preemption of a task of the job costs.
    pub fn preempt(&self) -> u32
        ensures { result ≡ self.now.preempt }
    {
        self.preempt
    }
}

/// What is known of a task: whether it is withdrawn, its job, the bandwidth that it requests, and the machines that it prefers.
/// Ordered by version, writer, and then the other fields, false before true.
#[derive(Debug, Clone, Copy, PartialEq, Eq, PartialOrd, Ord, Drop)]
pub struct SpecReg {
    pub version: u64,
    pub writer: u8,
    pub withdrawn: bool,
    pub job: JobId,
    pub request: u32,
    pub prefer: Prefer,
}

impl Chain for SpecReg {
    ghost use Rattle.fm_records.specs.laws.OrderLaws.{same_spec};

    ghost same = { same_spec };
}

impl SpecReg {
    /// The record of a Spec operation whose check is Ok; none of another kind, or of one whose check refuses.
    pub fn of(op: &Op) -> Option<SpecReg>
        ensures { result ≡ spec_record op.now }
    {
        match *op {
            Op::Spec {
                version,
                writer,
                withdrawn,
                job,
                request,
                prefer,
                ..
            } if op.check().is_ok() => Some(SpecReg {
                version,
                writer,
                withdrawn,
                job,
                request,
                prefer,
            }),
            _ => None,
        }
    }

    /// The number of the change.
    pub fn version(&self) -> u64
        ensures { result ≡ self.now.version }
    {
        self.version
    }

    /// Who wrote it, from 1 to 64.
    pub fn writer(&self) -> u8
        ensures { result ≡ self.now.writer }
    {
        self.writer
    }

    /// Whether it is withdrawn.
    pub fn withdrawn(&self) -> bool
        ensures { result ≡ self.now.withdrawn }
    {
        self.withdrawn
    }

    /// The job of the task.
    pub fn job(&self) -> JobId
        ensures { result ≡ self.now.job }
    {
        self.job
    }

    /// The bandwidth that the task requests.
    pub fn request(&self) -> u32
        ensures { result ≡ self.now.request }
    {
        self.request
    }

    /// The machines that the task prefers.
    pub fn prefer(&self) -> Prefer
        ensures { result ≡ self.now.prefer }
    {
        self.prefer
    }
}

/// How far a task is: its attempt, and the phase of that.
/// Ordered by attempt and then phase, so a later attempt beats one that is done.
#[derive(Debug, Clone, Copy, PartialEq, Eq, PartialOrd, Ord, Drop)]
pub struct Progress {
    pub attempt: u32,
    pub phase: Phase,
}

impl Chain for Progress {
    ghost use Rattle.fm_records.specs.laws.OrderLaws.{same_progress};

    ghost same = { same_progress };
}

impl Progress {
    /// The record of a Progress operation, whose check is always Ok; none of another kind.
    pub fn of(op: &Op) -> Option<Progress>
        ensures { result ≡ progress_record op.now }
    {
        match *op {
            Op::Progress { attempt, phase, .. } => Some(Progress { attempt, phase }),
            _ => None,
        }
    }

    /// The progress at the attempt and the phase.
    pub fn new(attempt: u32, phase: Phase) -> Progress
        ensures attempt { result.attempt ≡ attempt }
        ensures phase { result.phase ≡ phase }
    {
        Progress { attempt, phase }
    }

    /// The attempt, counted from 0.
    pub fn attempt(&self) -> u32
        ensures { result ≡ self.now.attempt }
    {
        self.attempt
    }

    /// How far the attempt is.
    pub fn phase(&self) -> Phase
        ensures { result ≡ self.now.phase }
    {
        self.phase
    }
}

/// The state of a machine at an incarnation: whether it is up, how many tasks it takes, and its bandwidth.
/// Ordered by version, writer, and then the other fields, false before true.
#[derive(Debug, Clone, Copy, PartialEq, Eq, PartialOrd, Ord, Drop)]
pub struct MachineReg {
    pub version: u64,
    pub writer: u8,
    pub up: bool,
    pub slots: u32,
    pub nic: u32,
}

impl Chain for MachineReg {
    ghost use Rattle.fm_records.specs.laws.OrderLaws.{same_machine};

    ghost same = { same_machine };
}

impl MachineReg {
    /// The record of a Machine operation whose check is Ok; none of another kind, or of one whose check refuses.
    pub fn of(op: &Op) -> Option<MachineReg>
        ensures { result ≡ machine_record op.now }
    {
        match *op {
            Op::Machine {
                version,
                writer,
                up,
                slots,
                nic,
                ..
            } if op.check().is_ok() => Some(MachineReg {
                version,
                writer,
                up,
                slots,
                nic,
            }),
            _ => None,
        }
    }

    /// The number of the change.
    pub fn version(&self) -> u64
        ensures { result ≡ self.now.version }
    {
        self.version
    }

    /// Who wrote it, from 1 to 64.
    pub fn writer(&self) -> u8
        ensures { result ≡ self.now.writer }
    {
        self.writer
    }

    /// Whether the machine is up.
    pub fn up(&self) -> bool
        ensures { result ≡ self.now.up }
    {
        self.up
    }

    /// How many tasks the machine takes.
    pub fn slots(&self) -> u32
        ensures { result ≡ self.now.slots }
    {
        self.slots
    }

    /// The bandwidth of the machine.
    pub fn nic(&self) -> u32
        ensures { result ≡ self.now.nic }
    {
        self.nic
    }
}

/// What a machine reported at an incarnation: the number of the report, and the bandwidth in use.
/// Ordered by number and then use.
#[derive(Debug, Clone, Copy, PartialEq, Eq, PartialOrd, Ord, Drop)]
pub struct Report {
    pub number: u64,
    pub used: u32,
}

impl Chain for Report {
    ghost use Rattle.fm_records.specs.laws.OrderLaws.{same_report};

    ghost same = { same_report };
}

impl Report {
    /// The record of a Report operation whose check is Ok; none of another kind, or of one whose check refuses.
    pub fn of(op: &Op) -> Option<Report>
        ensures { result ≡ report_record op.now }
    {
        match *op {
            Op::Report { number, used, .. } if op.check().is_ok() => Some(Report { number, used }),
            _ => None,
        }
    }

    /// The number of the report.
    pub fn number(&self) -> u64
        ensures { result ≡ self.now.number }
    {
        self.number
    }

    /// The bandwidth in use.
    pub fn used(&self) -> u32
        ensures { result ≡ self.now.used }
    {
        self.used
    }
}

/// Where a coordinator would run an attempt: a machine at an incarnation. Ordered by machine and then incarnation.
#[derive(Debug, Clone, Copy, PartialEq, Eq, PartialOrd, Ord, Drop)]
pub struct Spot {
    pub machine: MachineId,
    pub incarnation: u64,
}

impl Chain for Spot {
    ghost use Rattle.fm_records.specs.laws.OrderLaws.{same_spot};

    ghost same = { same_spot };
}

impl Spot {
    /// The record of a Propose operation whose check is Ok; none of another kind, or of one whose check refuses.
    pub fn of(op: &Op) -> Option<Spot>
        ensures { result ≡ spot_record op.now }
    {
        match *op {
            Op::Propose {
                machine,
                incarnation,
                ..
            } if op.check().is_ok() => Some(Spot {
                machine,
                incarnation,
            }),
            _ => None,
        }
    }

    /// The machine.
    pub fn machine(&self) -> MachineId
        ensures { result ≡ self.now.machine }
    {
        self.machine
    }

    /// The incarnation of the machine.
    pub fn incarnation(&self) -> u64
        ensures { result ≡ self.now.incarnation }
    {
        self.incarnation
    }
}
