//! An instance while it is made, from whatever lists machines, requests and tasks.
//!
//! Machines and requests are added in the order of their numbers. Tasks come in any order, each with a number of its own,
//! by which whoever adds it knows it again: the instance has them sorted, as the search takes them.

use crate::Tried;
use crate::instance::{Instance, Machine, PreferredMachine, Preferring, RequestTasks};
use fm_lattice::join::OutOfMemory;
use std::alloc::Global;

/// The numbers under which the tasks of an instance were added, in its order.
#[derive(Drop)]
pub struct TaskNumbers {
    /// Of the held tasks, machine after machine.
    pub held: Vec<usize>,
    /// Of the waiting tasks without preferences, request after request.
    pub waiting: Vec<usize>,
    /// Of the waiting tasks that prefer machines.
    pub preferring: Vec<usize>,
}

// A held task. Those of one machine are sorted by these fields.
#[derive(Clone, Copy, PartialEq, Eq, PartialOrd, Ord, Drop)]
struct Held {
    price: i64,
    task: usize,
}

// No task.
const NOT_HELD: Held = Held { price: 0, task: 0 };

// A waiting task without preferences, its worth negated. They are sorted by these fields.
#[derive(Clone, Copy, PartialEq, Eq, PartialOrd, Ord, Drop)]
struct Waiter {
    request: usize,
    below: i64,
    task: usize,
}

/// Machines, requests and tasks that were added so far.
#[derive(Drop)]
pub struct Draft {
    instance: Instance,
    numbers: TaskNumbers,
    // The held tasks, each with the number of its machine.
    held: Vec<(usize, Held)>,
    waiters: Vec<Waiter>,
    // The choices before this one are those of tasks that were added.
    chosen: usize,
}

impl Draft {
    /// Nothing was added yet.
    pub fn new(alloc: Global) -> Draft {
        Draft {
            instance: Instance {
                machines: Vec::new(alloc),
                held: Vec::new(alloc),
                requests: Vec::new(alloc),
                worths: Vec::new(alloc),
                preferring: Vec::new(alloc),
                choices: Vec::new(alloc),
            },
            numbers: TaskNumbers {
                held: Vec::new(alloc),
                waiting: Vec::new(alloc),
                preferring: Vec::new(alloc),
            },
            held: Vec::new(alloc),
            waiters: Vec::new(alloc),
            chosen: 0,
        }
    }

    /// Adds the next machine. They come by rising load, so that of those with a free slot the first that has room is the
    /// cheapest. Its spare bandwidth is below 0 if it has room for no request. Refused if memory runs out, as each call here.
    pub fn add_machine(&mut self, load: i64, spare: i64, slots: i64) -> Result<(), OutOfMemory> {
        self.instance.machines.push(Machine {
            load,
            spare,
            slots,
            first: 0,
            end: 0,
        })?;
        Ok(())
    }

    /// The machine of the number, as it was added; if there is none, one that has room for nothing.
    pub fn machine(&self, number: usize) -> Machine {
        self.instance.machine(number)
    }

    /// Adds the next request. They come by rising size.
    pub fn add_request(&mut self, size: i64) -> Result<(), OutOfMemory> {
        self.instance.requests.push(RequestTasks {
            size,
            first: 0,
            end: 0,
        })?;
        Ok(())
    }

    /// Adds a task that the machine holds, with what it costs to preempt it. It is gone if there is no such machine.
    pub fn hold(&mut self, machine: usize, price: i64, task: usize) -> Result<(), OutOfMemory> {
        self.held.push((machine, Held { price, task }))?;
        Ok(())
    }

    /// Adds a choice of the waiting task that is added next: a machine that it prefers and that has room for it, and
    /// what it saves there.
    pub fn choose(&mut self, machine: usize, gain: i64) -> Result<(), OutOfMemory> {
        self.instance
            .choices
            .push(PreferredMachine { machine, gain })?;
        Ok(())
    }

    /// Adds a waiting task of the request. It prefers machines if choices were added since the waiting task before.
    pub fn wait(&mut self, request: usize, worth: i64, task: usize) -> Result<(), OutOfMemory> {
        let first = self.chosen;
        let end = self.instance.choices.len();
        if first < end {
            self.chosen = end;
            self.numbers.preferring.push(task)?;
            self.instance.preferring.push(Preferring {
                request,
                worth,
                first,
                end,
            })?;
        } else {
            let below = worth.saturating_neg();
            self.waiters.push(Waiter {
                request,
                below,
                task,
            })?;
        }
        Ok(())
    }

    /// The instance of what was added, and the numbers of its tasks. O(n log n) in the tasks.
    pub fn finish(mut self, alloc: Global) -> Result<(Instance, TaskNumbers), OutOfMemory> {
        self.share_out(alloc)?;
        self.waiters.sort_unstable();
        self.queue()?;
        Ok((self.instance, self.numbers))
    }

    // Counts the held tasks of each machine, and says where they begin.
    fn count_held(&mut self) {
        for (number, _) in &self.held {
            if let Some(machine) = self.instance.machines.get_mut(*number) {
                machine.end = machine.end.saturating_add(1);
            }
        }
        let mut end = 0usize;
        for machine in self.instance.machines.iter_mut() {
            let first = end;
            end = first.saturating_add(machine.end);
            machine.first = first;
            machine.end = first;
        }
    }

    // Gives each machine its held tasks, by what it costs to preempt them.
    fn share_out(&mut self, alloc: Global) -> Tried<()> {
        self.count_held();
        let mut tasks = vec![in alloc; NOT_HELD; self.held.len()]?;
        put_behind(&mut self.instance.machines, &self.held, &mut tasks);
        for machine in &self.instance.machines {
            if let Some(tasks) = tasks.as_mut_slice().get_mut(machine.first..machine.end) {
                tasks.sort_unstable();
            }
        }
        for held in &tasks {
            self.instance.held.push(held.price)?;
            self.numbers.held.push(held.task)?;
        }
        Ok(())
    }

    // Gives each request its tasks without preferences, by falling worth.
    fn queue(&mut self) -> Tried<()> {
        for (number, waiter) in self.waiters.iter().enumerate() {
            self.instance.worths.push(waiter.below.saturating_neg())?;
            self.numbers.waiting.push(waiter.task)?;
            if let Some(request) = self.instance.requests.get_mut(waiter.request) {
                if request.end == 0 {
                    request.first = number;
                }
                request.end = number.saturating_add(1);
            }
        }
        Ok(())
    }
}

// Puts each held task behind the others of its machine.
fn put_behind(machines: &mut [Machine], held: &[(usize, Held)], tasks: &mut [Held]) {
    for (number, task) in held {
        if let Some(machine) = machines.get_mut(*number) {
            if let Some(there) = tasks.get_mut(machine.end) {
                *there = *task;
            }
            machine.end = machine.end.saturating_add(1);
        }
    }
}
