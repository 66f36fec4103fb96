//! The operations that tests tell, as `JOB.version(2).wait(600).op()`: a constant of each kind has the usual fields, a
//! method changes the one of its name, and `op` gives the operation. Ids are plain numbers.
//!
//! The functions have no contract: the tests are of what is answered, and proofs of them stay short.

use fm_records::ids::{JobId, MachineId, TaskId};
use fm_records::ops::{Op, Phase};
use fm_records::prefer::Prefer;

#[derive(Clone, Copy, Drop)]
pub(crate) struct Job {
    id: u128,
    version: u64,
    writer: u8,
    wait: u32,
    preempt: u32,
}

pub(crate) const JOB: Job = Job {
    id: 1,
    version: 1,
    writer: 1,
    wait: 500,
    preempt: 800,
};

impl Job {
    pub(crate) fn id(self, id: u128) -> Job {
        Job { id, ..self }
    }

    pub(crate) fn version(self, version: u64) -> Job {
        Job { version, ..self }
    }

    pub(crate) fn writer(self, writer: u8) -> Job {
        Job { writer, ..self }
    }

    pub(crate) fn wait(self, wait: u32) -> Job {
        Job { wait, ..self }
    }

    pub(crate) fn preempt(self, preempt: u32) -> Job {
        Job { preempt, ..self }
    }

    pub(crate) fn op(self) -> Op {
        Op::Job {
            id: JobId::new(self.id),
            version: self.version,
            writer: self.writer,
            withdrawn: false,
            wait: self.wait,
            preempt: self.preempt,
        }
    }
}

#[derive(Clone, Copy, Drop)]
pub(crate) struct Task {
    id: u128,
    version: u64,
    writer: u8,
    job: u128,
    request: u32,
    prefer: Option<Prefer>,
}

/// A task of the usual job, which prefers no machine.
pub(crate) const TASK: Task = Task {
    id: 17,
    version: 1,
    writer: 1,
    job: 1,
    request: 100,
    prefer: None,
};

impl Task {
    pub(crate) fn id(self, id: u128) -> Task {
        Task { id, ..self }
    }

    pub(crate) fn version(self, version: u64) -> Task {
        Task { version, ..self }
    }

    pub(crate) fn writer(self, writer: u8) -> Task {
        Task { writer, ..self }
    }

    pub(crate) fn job(self, job: u128) -> Task {
        Task { job, ..self }
    }

    pub(crate) fn request(self, request: u32) -> Task {
        Task { request, ..self }
    }

    /// Four machines at most: a longer list is taken as none.
    pub(crate) fn prefer(self, machines: &[(MachineId, u32)]) -> Task {
        let prefer = Prefer::new(machines);
        Task { prefer, ..self }
    }

    pub(crate) fn op(self) -> Op {
        Op::Spec {
            id: TaskId::new(self.id),
            version: self.version,
            writer: self.writer,
            withdrawn: false,
            job: JobId::new(self.job),
            request: self.request,
            prefer: self.prefer.unwrap_or_default(),
        }
    }
}

#[derive(Clone, Copy, Drop)]
pub(crate) struct Progress {
    id: u128,
    attempt: u32,
    phase: Phase,
}

/// Of the usual task.
pub(crate) const PROGRESS: Progress = Progress {
    id: 17,
    attempt: 1,
    phase: Phase::Running,
};

impl Progress {
    pub(crate) fn id(self, id: u128) -> Progress {
        Progress { id, ..self }
    }

    pub(crate) fn attempt(self, attempt: u32) -> Progress {
        Progress { attempt, ..self }
    }

    pub(crate) fn phase(self, phase: Phase) -> Progress {
        Progress { phase, ..self }
    }

    pub(crate) fn op(self) -> Op {
        Op::Progress {
            id: TaskId::new(self.id),
            attempt: self.attempt,
            phase: self.phase,
        }
    }
}

#[derive(Clone, Copy, Drop)]
pub(crate) struct Machine {
    id: u128,
    incarnation: u64,
    version: u64,
    writer: u8,
    up: bool,
    slots: u32,
    nic: u32,
}

pub(crate) const MACHINE: Machine = Machine {
    id: 10,
    incarnation: 1,
    version: 1,
    writer: 1,
    up: true,
    slots: 2,
    nic: 1_000,
};

impl Machine {
    pub(crate) fn id(self, id: u128) -> Machine {
        Machine { id, ..self }
    }

    pub(crate) fn incarnation(self, incarnation: u64) -> Machine {
        Machine {
            incarnation,
            ..self
        }
    }

    pub(crate) fn version(self, version: u64) -> Machine {
        Machine { version, ..self }
    }

    pub(crate) fn writer(self, writer: u8) -> Machine {
        Machine { writer, ..self }
    }

    pub(crate) fn up(self, up: bool) -> Machine {
        Machine { up, ..self }
    }

    pub(crate) fn slots(self, slots: u32) -> Machine {
        Machine { slots, ..self }
    }

    pub(crate) fn nic(self, nic: u32) -> Machine {
        Machine { nic, ..self }
    }

    pub(crate) fn op(self) -> Op {
        Op::Machine {
            id: MachineId::new(self.id),
            incarnation: self.incarnation,
            version: self.version,
            writer: self.writer,
            up: self.up,
            slots: self.slots,
            nic: self.nic,
        }
    }
}

#[derive(Clone, Copy, Drop)]
pub(crate) struct Report {
    id: u128,
    incarnation: u64,
    number: u64,
    used: u32,
}

/// Of the usual machine.
pub(crate) const REPORT: Report = Report {
    id: 10,
    incarnation: 1,
    number: 1,
    used: 0,
};

impl Report {
    pub(crate) fn id(self, id: u128) -> Report {
        Report { id, ..self }
    }

    pub(crate) fn incarnation(self, incarnation: u64) -> Report {
        Report {
            incarnation,
            ..self
        }
    }

    pub(crate) fn number(self, number: u64) -> Report {
        Report { number, ..self }
    }

    pub(crate) fn used(self, used: u32) -> Report {
        Report { used, ..self }
    }

    pub(crate) fn op(self) -> Op {
        Op::Report {
            id: MachineId::new(self.id),
            incarnation: self.incarnation,
            number: self.number,
            used: self.used,
        }
    }
}

#[derive(Clone, Copy, Drop)]
pub(crate) struct Proposal {
    id: u128,
    attempt: u32,
    coordinator: u8,
    machine: u128,
    incarnation: u64,
}

/// The usual machine for the first attempt of the usual task.
pub(crate) const PROPOSAL: Proposal = Proposal {
    id: 17,
    attempt: 0,
    coordinator: 1,
    machine: 10,
    incarnation: 1,
};

impl Proposal {
    pub(crate) fn id(self, id: u128) -> Proposal {
        Proposal { id, ..self }
    }

    pub(crate) fn attempt(self, attempt: u32) -> Proposal {
        Proposal { attempt, ..self }
    }

    pub(crate) fn coordinator(self, coordinator: u8) -> Proposal {
        Proposal {
            coordinator,
            ..self
        }
    }

    pub(crate) fn machine(self, machine: u128) -> Proposal {
        Proposal { machine, ..self }
    }

    pub(crate) fn incarnation(self, incarnation: u64) -> Proposal {
        Proposal {
            incarnation,
            ..self
        }
    }

    pub(crate) fn op(self) -> Op {
        Op::Propose {
            id: TaskId::new(self.id),
            attempt: self.attempt,
            coordinator: self.coordinator,
            machine: MachineId::new(self.machine),
            incarnation: self.incarnation,
        }
    }
}

/// A job, a machine, and a task of the job for which the machine has a slot and the bandwidth.
pub(crate) fn small_cluster() -> [Op; 3] {
    [JOB.op(), MACHINE.op(), TASK.op()]
}
