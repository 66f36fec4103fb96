//! Random clusters: what is known of jobs, machines and tasks.

use crate::draw::Draw;
use fm_know::knowledge::Knowledge;
use fm_lattice::join::{Join, OutOfMemory};
use fm_records::ids::{CoordId, JobId, MachineId, TaskId};
use fm_records::ops::{Op, Phase};
use fm_records::prefer::Prefer;
use fm_records::refusal::Refusal;
use fm_round::admission::admit;
use fm_round::plan::Plan;
use fm_tally::sorted::Sorted;
use std::alloc::Global;

/// How large a cluster is, and how dear waiting may be in it.
#[derive(Debug, Clone, Copy, Drop)]
pub(crate) struct Sizes {
    pub(crate) jobs: u32,
    pub(crate) machines: u32,
    pub(crate) tasks: u32,
    pub(crate) requests: u32,
    pub(crate) wait: u32,
    /// Of a hundred drawn tasks, how many prefer machines.
    pub(crate) preferring: u32,
}

/// A cluster: what is known of it, and how many tasks there were so far.
#[derive(Drop)]
pub(crate) struct Cluster {
    alloc: Global,
    sizes: Sizes,
    pub(crate) known: Knowledge,
    tasks: u32,
    changes: u64,
}

// The number of a record, by which ids come in no order.
fn scattered(number: u32) -> u128 {
    u128::from(number).wrapping_mul(0x9e37_79b9_7f4a_7c15_f39c_c060_5ced_c835)
}

/// One of so many, 0 if there are none.
pub(crate) fn one_of(draw: &mut Draw, count: u32) -> u32 {
    if count == 0 { 0 } else { draw.below(count) }
}

// What each task of a chain asks for, and what it saves at the first machine that it prefers: it costs 1 there, and 2
// at the second.
const LINK: u32 = 1000;

const CREDIT: u32 = LINK - 1;

/// The preference of machines, each by its number and with its credit; of one machine twice, the last. None of more than four.
pub(crate) fn preferring(alloc: Global, choices: &[(u32, u32)]) -> Result<Prefer, OutOfMemory> {
    let mut entries = Sorted::new(alloc);
    for (machine, credit) in choices {
        entries.put(MachineId::new(scattered(*machine)), *credit)?;
    }
    Ok(Prefer::new(entries.pairs()).unwrap_or_default())
}

// The number of the task's last attempt.
fn last_attempt(known: &Knowledge, id: TaskId) -> u32 {
    known.attempt(id).attempt
}

impl Cluster {
    /// A cluster of which nothing is known yet.
    pub(crate) fn empty(alloc: Global, sizes: Sizes) -> Cluster {
        Cluster {
            alloc,
            sizes,
            known: Knowledge::empty(alloc),
            tasks: 0,
            changes: 0,
        }
    }

    /// A chain of so many machines of one slot, and one more after them: a task of each prefers it and, a little less,
    /// the next one, and one task more prefers the first two. So the least flow moves all tasks on but one.
    pub(crate) fn chained(alloc: Global, machines: u32) -> Result<Cluster, Refusal> {
        let sizes = Sizes {
            jobs: 1,
            machines: machines.saturating_add(1),
            tasks: machines.saturating_add(1),
            requests: 1,
            wait: 1_000_000,
            preferring: 0,
        };
        let mut cluster = Cluster::empty(alloc, sizes);
        cluster.tell_job(0, sizes.wait, sizes.wait)?;
        for number in 0..sizes.machines {
            cluster.tell_machine(number, true, 1, LINK)?;
            let near = number.saturating_sub(1);
            let choices = [(near, CREDIT), (near.saturating_add(1), CREDIT - 1)];
            cluster.tell_task(0, LINK, preferring(alloc, &choices)?)?;
        }
        Ok(cluster)
    }

    /// Jobs, machines and tasks, of which every third is proposed for a machine.
    pub(crate) fn new(alloc: Global, draw: &mut Draw, sizes: Sizes) -> Result<Cluster, Refusal> {
        let mut cluster = Cluster::empty(alloc, sizes);
        for number in 0..sizes.jobs {
            cluster.add_job(draw, number)?;
        }
        for number in 0..sizes.machines {
            cluster.add_machine(draw, number)?;
        }
        for number in 0..sizes.tasks {
            cluster.add_task(draw)?;
            if number % 3 == 0 {
                cluster.propose(draw, number)?;
            }
        }
        Ok(cluster)
    }

    /// Tells an operation.
    pub(crate) fn tell(&mut self, op: Op) -> Result<(), Refusal> {
        op.check()?;
        let delta = Knowledge::delta_of(self.alloc, &op)?;
        self.known.join_into(&delta)?;
        Ok(())
    }

    // A version that is above those before it.
    fn next(&mut self) -> u64 {
        self.changes = self.changes.saturating_add(1);
        self.changes
    }

    /// Tells what it costs if a task of the job waits, and if it is preempted.
    pub(crate) fn tell_job(&mut self, number: u32, wait: u32, preempt: u32) -> Result<(), Refusal> {
        let version = self.next();
        self.tell(Op::Job {
            id: JobId::new(scattered(number)),
            version,
            writer: 1,
            withdrawn: false,
            wait,
            preempt,
        })
    }

    /// Tells whether the machine is up, its slots and its bandwidth.
    pub(crate) fn tell_machine(
        &mut self,
        number: u32,
        up: bool,
        slots: u32,
        nic: u32,
    ) -> Result<(), Refusal> {
        let version = self.next();
        self.tell(Op::Machine {
            id: MachineId::new(scattered(number)),
            incarnation: 1,
            version,
            writer: 1,
            up,
            slots,
            nic,
        })
    }

    /// Adds a task, which waits, with the next number.
    pub(crate) fn tell_task(
        &mut self,
        job: u32,
        request: u32,
        prefer: Prefer,
    ) -> Result<(), Refusal> {
        let number = self.tasks;
        self.tasks = self.tasks.saturating_add(1);
        self.tell(Op::Spec {
            id: TaskId::new(scattered(number)),
            version: 1,
            writer: 1,
            withdrawn: false,
            job: JobId::new(scattered(job)),
            request,
            prefer,
        })
    }

    /// Of a hundred tasks that are drawn from now on, so many prefer machines.
    pub(crate) fn prefer_in(&mut self, preferring: u32) {
        self.sizes.preferring = preferring;
    }

    fn add_job(&mut self, draw: &mut Draw, number: u32) -> Result<(), Refusal> {
        let wait = one_of(draw, self.sizes.wait);
        let preempt = wait.saturating_add(draw.below(5000));
        self.tell_job(number, wait, preempt)
    }

    fn add_machine(&mut self, draw: &mut Draw, number: u32) -> Result<(), Refusal> {
        let slots = draw.between(1, 20);
        let nic = draw.between(500, 20_000);
        self.tell_machine(number, true, slots, nic)
    }

    /// Adds a drawn task, which waits.
    pub(crate) fn add_task(&mut self, draw: &mut Draw) -> Result<(), Refusal> {
        let job = one_of(draw, self.sizes.jobs);
        let step = 1000 / self.sizes.requests.max(1);
        let request = one_of(draw, self.sizes.requests).saturating_mul(step);
        let prefer = self.prefer(draw)?;
        self.tell_task(job, request, prefer)
    }

    // The preference of a drawn task: for two machines or one, or for none.
    fn prefer(&self, draw: &mut Draw) -> Result<Prefer, OutOfMemory> {
        let percent = self.sizes.preferring;
        if percent == 0 || draw.below(100) >= percent {
            return Ok(Prefer::default());
        }
        let near = (one_of(draw, self.sizes.machines), draw.below(4000));
        let far = (one_of(draw, self.sizes.machines), draw.below(4000));
        preferring(self.alloc, &[near, far])
    }

    /// Proposes a machine for the task's first attempt.
    pub(crate) fn propose(&mut self, draw: &mut Draw, number: u32) -> Result<(), Refusal> {
        self.tell(Op::Propose {
            id: TaskId::new(scattered(number)),
            attempt: 0,
            coordinator: 1,
            machine: MachineId::new(scattered(one_of(draw, self.sizes.machines))),
            incarnation: 1,
        })
    }

    // A machine reports how much bandwidth is used.
    fn report(&mut self, draw: &mut Draw) -> Result<(), Refusal> {
        let number = one_of(draw, self.sizes.machines);
        self.tell_report(number, draw.below(5000))
    }

    /// The machine reports that so much bandwidth is used.
    pub(crate) fn tell_report(&mut self, machine: u32, used: u32) -> Result<(), Refusal> {
        let number = self.next();
        self.tell(Op::Report {
            id: MachineId::new(scattered(machine)),
            incarnation: 1,
            number,
            used,
        })
    }

    /// Proposes the machine for the task's last attempt.
    pub(crate) fn hold(&mut self, number: u32, machine: u32) -> Result<(), Refusal> {
        let id = TaskId::new(scattered(number));
        let attempt = last_attempt(&self.known, id);
        self.tell(Op::Propose {
            id,
            attempt,
            coordinator: 1,
            machine: MachineId::new(scattered(machine)),
            incarnation: 1,
        })
    }

    /// The task's last attempt is done.
    pub(crate) fn end(&mut self, number: u32) -> Result<(), Refusal> {
        let id = TaskId::new(scattered(number));
        let attempt = last_attempt(&self.known, id);
        self.tell(Op::Progress {
            id,
            attempt,
            phase: Phase::Done,
        })
    }

    /// Commits a plan, as a coordinator does.
    pub(crate) fn commit(&mut self, plan: &Plan) -> Result<(), Refusal> {
        let Some(number) = CoordId::new(1) else {
            return Err(Refusal::NoCoordinator);
        };
        let admitted = admit(self.alloc, &self.known, number, plan)?;
        for op in admitted.ops.as_slice() {
            self.tell(*op)?;
        }
        Ok(())
    }

    /// Changes so many tasks: of three one is done, one is new, and one is proposed for a machine; for every sixth a
    /// machine reports too.
    pub(crate) fn change(&mut self, draw: &mut Draw, count: u32) -> Result<(), Refusal> {
        for change in 0..count {
            let task = one_of(draw, self.tasks);
            match change % 3 {
                0 => self.tell(Op::Progress {
                    id: TaskId::new(scattered(task)),
                    attempt: 0,
                    phase: Phase::Done,
                })?,
                1 => self.add_task(draw)?,
                _ => self.propose(draw, task)?,
            }
            if change % 6 == 0 {
                self.report(draw)?;
            }
        }
        Ok(())
    }
}
