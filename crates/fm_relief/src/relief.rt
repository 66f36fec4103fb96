//! Relief: for each machine that holds more than its bandwidth the tasks to preempt, so that what is left fits.
//!
//! Coordinators that did not hear of each other yet can both place tasks on a machine, and these can request more than
//! its bandwidth. Admission preempts nothing for that, since each of them had room for its own places. So the tasks are
//! preempted that cost least, and no more of them than must be.

ghost use Rattle.std.specs.Prelude.{◌≡◌, ◌++◌, ℕ, Some, map, sum_by, IfOk, OnOk};
ghost use Rattle.std.specs.Ordering.{nat_cmp};
ghost use Rattle.fm_records.specs.Rising.{Rises};
ghost use Rattle.fm_tally.specs.Tallies.{TallyIsFor};
ghost use Rattle.fm_relief.specs.Relief.{tasks_on, preempted, relief_of, as_preempt, plan_of_relief};
ghost use Rattle.fm_relief.specs.declared.excess.Excess.{Excess as ExcessOf};
ghost use Rattle.fm_relief.specs.inner.Excesses.{excess_at, all_excesses};
ghost use Rattle.fm_relief.specs.inner.HeldLists.{held_on};

use crate::excess::{Excess, excesses_of};
use crate::held_task::HeldTask;
use crate::held_tasks::HeldTasks;
use crate::preempted::preempted;
use fm_know::knowledge::Knowledge;
use fm_lattice::join::{Join, OutOfMemory};
use fm_records::ids::MachineId;
use fm_round::listed::Listed;
use fm_round::plan::{Plan, Preempt};
use fm_tally::sorted::Sorted;
use fm_tally::tally::Tally;
use std::alloc::Global;

/// An open machine whose tasks request more than its bandwidth.
#[derive(Debug, Drop)]
pub struct OverfullMachine {
    pub machine: MachineId,
    /// The sum of the requests of the tasks that it holds.
    pub held: u128,
    /// Its bandwidth.
    pub nic: u32,
    /// Those of its tasks to preempt, in that order: by rising price, then by falling request, then by id.
    pub preempts: Listed<HeldTask>,
}

/// The relief of what is known: each open machine whose tasks request more than its bandwidth, by id, with the tasks to
/// preempt. These are the first in their order, as many as it takes until the others fit. Refused only if memory runs
/// out. It makes a tally, looks up each machine and each task that is held, and sorts the tasks of the machines that are
/// listed: O(n log n) at most.
pub fn relief_of(
    alloc: Global,
    knowledge: &Knowledge,
) -> Result<Listed<OverfullMachine>, OutOfMemory>
    ensures { IfOk result (λ relief. relief ≡ relief_of knowledge.now) }
{
    knowledge.known();
    let tally = Tally::of(alloc, knowledge)?;
    relief_by(alloc, knowledge, &tally)
}

// The relief by the tally of what is known.
fn relief_by(
    alloc: Global,
    knowledge: &Knowledge,
    tally: &Tally,
) -> Result<Listed<OverfullMachine>, OutOfMemory>
    requires { TallyIsFor knowledge.now tally.now }
    ensures { IfOk result (λ relief. relief ≡ relief_of knowledge.now) }
{
    let machines = excesses_of(alloc, knowledge, tally)?;
    let held = HeldTasks::on(alloc, knowledge, tally, &machines)?;
    overfull_machines(alloc, knowledge, &machines, &held)
}

// Each of the machines with the tasks to preempt.
fn overfull_machines(
    alloc: Global,
    knowledge: &Knowledge,
    machines: &Sorted<MachineId, Excess>,
    held: &HeldTasks,
) -> Result<Listed<OverfullMachine>, OutOfMemory>
    requires machines { machines.now ≡ all_excesses knowledge.now }
    requires held { (m : ℕ) (x : ExcessOf) → excess_at knowledge.now m ≡ Some x
        → held_on held.now m ≡ tasks_on knowledge.now m }
    ensures { IfOk result (λ relief. relief ≡ relief_of knowledge.now) }
{
    knowledge.known();
    let pairs = machines.pairs();
    let mut found = Vec::new(alloc);
    for (machine, excess) in pairs {
        found.push(overfull_machine(alloc, held, *machine, *excess)?)?;
    }
    Ok(Listed::new(found))
}

// The machine with the tasks to preempt.
fn overfull_machine(
    alloc: Global,
    held: &HeldTasks,
    machine: MachineId,
    excess: Excess,
) -> Result<OverfullMachine, OutOfMemory>
    requires by_id { Rises nat_cmp (map (λ e. e.task) (held_on held.now machine)) }
    requires all { excess.held ≡ sum_by (λ e. e.request) (held_on held.now machine) }
    ensures { IfOk result (λ overfull. overfull ≡ record {
      machine = machine;
      held = excess.held;
      nic = excess.nic;
      preempts = preempted (held_on held.now machine) excess.nic;
    }) }
{
    let tasks = held.of_machine(alloc, machine)?;
    let preempts = preempted(tasks, excess.held, excess.nic)?;
    Ok(OverfullMachine {
        machine,
        held: excess.held,
        nic: excess.nic,
        preempts: Listed::new(preempts),
    })
}

/// The plan that carries the relief out: it preempts all of these tasks, in their order, and has no places. Refused only
/// if memory runs out. O(n) for n tasks.
pub fn plan_of(alloc: Global, relief: &Listed<OverfullMachine>) -> Result<Plan, OutOfMemory>
    ensures { IfOk result (λ plan. plan ≡ plan_of_relief relief.now) }
{
    let machines = relief.as_slice();
    let mut preempts = Vec::new(alloc);
    for machine in machines {
        add_preempts(&mut preempts, machine.preempts.as_slice())?;
    }
    Ok(Plan {
        places: Listed::new(Vec::new(alloc)),
        preempts: Listed::new(preempts),
    })
}

// Adds a preempt for each of the tasks.
fn add_preempts(preempts: &mut Vec<Preempt>, tasks: &[HeldTask]) -> Result<(), OutOfMemory>
    ensures { OnOk result (preempts.new.items ≡ preempts.old.items ++ map as_preempt tasks.now) }
{
    for held in tasks {
        preempts.push(Preempt {
            task: held.task,
            attempt: held.attempt,
        })?;
    }
    Ok(())
}
