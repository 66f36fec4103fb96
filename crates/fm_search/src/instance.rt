//! What is to be placed: machines, requests and tasks by number, with no trace of where they come from.
//!
//! All costs sit at two ends. A waiting task is worth what it costs to let it wait, less its request. A slot costs its
//! machine's load, whoever takes it, and a slot that a held task gives up costs the price of preempting that task too. By
//! its own arc a task that prefers a machine saves something there. So there is no cost for a pair of a request and
//! a machine, and none is listed.

use crate::costs::FAR;

/// An open machine, and which of the held tasks it holds.
#[derive(Clone, Copy, Drop)]
pub struct Machine {
    pub load: i64,
    /// Less than any request if the load is beyond the bandwidth.
    pub spare: i64,
    pub slots: i64,
    pub first: usize,
    pub end: usize,
}

// A machine of which nothing can be had.
const NO_MACHINE: Machine = Machine {
    load: FAR,
    spare: -1,
    slots: 0,
    first: 0,
    end: 0,
};

/// A request, and which of the waiting tasks without preferences ask for it.
#[derive(Clone, Copy, Drop)]
pub struct RequestTasks {
    pub size: i64,
    pub first: usize,
    pub end: usize,
}

// A request that no machine has room for.
const NO_REQUEST: RequestTasks = RequestTasks {
    size: FAR,
    first: 0,
    end: 0,
};

/// A waiting task that prefers machines, and which of the choices are its own.
#[derive(Clone, Copy, Drop)]
pub struct Preferring {
    pub request: usize,
    pub worth: i64,
    pub first: usize,
    pub end: usize,
}

// A task that is worth nothing.
const NO_TASK: Preferring = Preferring {
    request: 0,
    worth: 0,
    first: 0,
    end: 0,
};

/// A machine that a task prefers and that has room for it, and what the task saves there.
#[derive(Clone, Copy, Drop)]
pub struct PreferredMachine {
    pub machine: usize,
    pub gain: i64,
}

/// Machines by rising load, requests by rising size, and tasks.
#[derive(Drop)]
pub struct Instance {
    pub machines: Vec<Machine>,
    /// What it costs to preempt each held task, machine after machine, rising.
    pub held: Vec<i64>,
    pub requests: Vec<RequestTasks>,
    /// What each waiting task without preferences is worth, request after request, falling.
    pub worths: Vec<i64>,
    pub preferring: Vec<Preferring>,
    pub choices: Vec<PreferredMachine>,
}

impl Instance {
    /// The machine of the number.
    pub(crate) fn machine(&self, machine: usize) -> Machine {
        self.machines.get(machine).copied().unwrap_or(NO_MACHINE)
    }

    /// The request of the number.
    pub(crate) fn request(&self, request: usize) -> RequestTasks {
        self.requests.get(request).copied().unwrap_or(NO_REQUEST)
    }

    /// The task of the number, which prefers machines.
    pub(crate) fn task(&self, task: usize) -> Preferring {
        self.preferring.get(task).copied().unwrap_or(NO_TASK)
    }

    /// What it costs to preempt each task that the machine holds, rising.
    pub(crate) fn held_by(&self, machine: &Machine) -> &[i64] {
        self.held.get(machine.first..machine.end).unwrap_or(&[])
    }

    /// What the tasks of the request without preferences are worth, falling.
    pub(crate) fn worths_of(&self, request: usize) -> &[i64] {
        let RequestTasks { first, end, .. } = self.request(request);
        self.worths.get(first..end).unwrap_or(&[])
    }

    /// The choices of a task that prefers machines.
    pub(crate) fn choices_of(&self, task: &Preferring) -> &[PreferredMachine] {
        self.choices.get(task.first..task.end).unwrap_or(&[])
    }

    /// What the task of the number saves at the machine.
    pub(crate) fn gain(&self, task: usize, machine: usize) -> i64 {
        for choice in self.choices_of(&self.task(task)) {
            if choice.machine == machine {
                return choice.gain;
            }
        }
        0
    }

    /// How many tasks of the request a machine has slots and bandwidth for.
    pub(crate) fn fitting(&self, request: usize, machine: usize) -> i64 {
        let size = self.request(request).size;
        let machine = self.machine(machine);
        if machine.spare < size {
            return 0;
        }
        match machine.spare.checked_div(size) {
            Some(count) => count.min(machine.slots),
            None => machine.slots,
        }
    }
}
