//! Clusters with the corners of rounds: requests of 0, costs that tie, more tasks held than slots, loads beyond the bandwidth,
//! machines that are down, costs and slots that change, and preferences.

use crate::cluster::{Cluster, Sizes, one_of, preferring};
use crate::draw::Draw;
use fm_lattice::join::OutOfMemory;
use fm_records::prefer::Prefer;
use fm_records::refusal::Refusal;
use fm_round::plan::Plan;
use std::alloc::Global;

// What costs, slots, bandwidths and requests of a cluster are drawn from. Each is below its bound.
#[derive(Clone, Copy, Drop)]
struct Bounds {
    costs: u32,
    slots: u32,
    nic: u32,
    requests: u32,
    unit: u32,
    // Of a hundred tasks, how many prefer machines.
    preferring: u32,
}

/// How many machines and tasks clusters of a kind have at most, and whether tasks may prefer machines.
#[derive(Clone, Copy, Drop)]
pub(crate) struct Kind {
    pub(crate) machines: u32,
    pub(crate) tasks: u32,
    pub(crate) is_preferring: bool,
}

/// Such a cluster.
#[derive(Drop)]
pub(crate) struct Corners {
    alloc: Global,
    pub(crate) cluster: Cluster,
    bounds: Bounds,
    jobs: u32,
    machines: u32,
    tasks: u32,
}

// One of the choices.
fn one(draw: &mut Draw, choices: &[u32; 4]) -> u32 {
    choices[draw.below(4) as usize]
}

// Whether it is one of so many in a hundred.
fn happens(draw: &mut Draw, percent: u32) -> bool {
    draw.below(100) < percent
}

fn drawn_bounds(draw: &mut Draw, is_preferring: bool) -> Bounds {
    let preferring = one(draw, &[10, 20, 40, 80]);
    Bounds {
        costs: one(draw, &[3, 6, 20, 1000]),
        slots: one(draw, &[1, 2, 3, 5]),
        nic: one(draw, &[3, 10, 40, 400]),
        requests: one(draw, &[1, 2, 4, 8]),
        unit: one(draw, &[1, 2, 5, 10]),
        preferring: if is_preferring { preferring } else { 0 },
    }
}

impl Corners {
    /// A cluster of the kind.
    pub(crate) fn new(alloc: Global, draw: &mut Draw, kind: Kind) -> Result<Corners, Refusal> {
        let sizes = Sizes {
            jobs: draw.between(1, 4),
            machines: one_of(draw, kind.machines).saturating_add(1),
            tasks: one_of(draw, kind.tasks),
            requests: 0,
            wait: 0,
            preferring: 0,
        };
        let mut corners = Corners {
            alloc,
            cluster: Cluster::empty(alloc, sizes),
            bounds: drawn_bounds(draw, kind.is_preferring),
            jobs: sizes.jobs,
            machines: sizes.machines,
            tasks: 0,
        };
        corners.begin(draw, sizes)?;
        Ok(corners)
    }

    // Its jobs, machines and first tasks.
    fn begin(&mut self, draw: &mut Draw, sizes: Sizes) -> Result<(), Refusal> {
        for number in 0..sizes.jobs {
            self.put_job(draw, number)?;
        }
        for number in 0..sizes.machines {
            self.put_machine(draw, number)?;
            self.report(draw, number)?;
        }
        for _ in 0..sizes.tasks {
            self.add_task(draw)?;
            if happens(draw, 40) {
                self.hold_any(draw)?;
            }
        }
        Ok(())
    }

    fn put_job(&mut self, draw: &mut Draw, number: u32) -> Result<(), Refusal> {
        let most = self.bounds.costs.saturating_mul(3);
        let wait = one_of(draw, most);
        let preempt = one_of(draw, most);
        self.cluster.tell_job(number, wait, preempt)
    }

    fn put_machine(&mut self, draw: &mut Draw, number: u32) -> Result<(), Refusal> {
        let up = !happens(draw, 15);
        let slots = one_of(draw, self.bounds.slots).saturating_add(1);
        let nic = one_of(draw, self.bounds.nic);
        self.cluster.tell_machine(number, up, slots, nic)
    }

    fn report(&mut self, draw: &mut Draw, number: u32) -> Result<(), Refusal> {
        let used = one_of(draw, self.bounds.costs);
        self.cluster.tell_report(number, used)
    }

    fn add_task(&mut self, draw: &mut Draw) -> Result<(), Refusal> {
        let job = one_of(draw, self.jobs);
        let request = one_of(draw, self.bounds.requests).saturating_mul(self.bounds.unit);
        let prefer = self.prefer(draw)?;
        self.tasks = self.tasks.saturating_add(1);
        self.cluster.tell_task(job, request, prefer)
    }

    // Up to four machines, of which some may be one, or none.
    fn prefer(&self, draw: &mut Draw) -> Result<Prefer, OutOfMemory> {
        if !happens(draw, self.bounds.preferring) {
            return Ok(Prefer::default());
        }
        let most = self.bounds.costs.saturating_mul(2);
        let mut choices = Vec::new(self.alloc);
        for _ in 0..draw.between(1, 4) {
            choices.push((one_of(draw, self.machines), one_of(draw, most)))?;
        }
        preferring(self.alloc, &choices)
    }

    fn hold_any(&mut self, draw: &mut Draw) -> Result<(), Refusal> {
        let task = one_of(draw, self.tasks);
        let machine = one_of(draw, self.machines);
        self.cluster.hold(task, machine)
    }

    /// Commits a plan.
    pub(crate) fn commit(&mut self, plan: &Plan) -> Result<(), Refusal> {
        self.cluster.commit(plan)
    }

    /// Changes up to five things.
    pub(crate) fn change(&mut self, draw: &mut Draw) -> Result<(), Refusal> {
        for _ in 0..draw.below(6) {
            self.change_one(draw)?;
        }
        Ok(())
    }

    fn change_one(&mut self, draw: &mut Draw) -> Result<(), Refusal> {
        let machine = one_of(draw, self.machines);
        match draw.below(7) {
            0 => {
                let task = one_of(draw, self.tasks);
                self.cluster.end(task)
            }
            1 | 2 => self.add_task(draw),
            3 => self.report(draw, machine),
            4 => self.put_machine(draw, machine),
            5 => {
                let job = one_of(draw, self.jobs);
                self.put_job(draw, job)
            }
            _ => self.hold_any(draw),
        }
    }
}
