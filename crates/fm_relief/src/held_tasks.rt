//! The tasks that machines hold, listed by machine.

ghost use Rattle.std.specs.Prelude.{◌≡◌, ◌==◌, ◌++◌, ℕ, Some, option_to_list, IfOk, OnOk};
ghost use Rattle.fm_records.specs.Options.{only_if, when};
ghost use Rattle.fm_tally.specs.Tallies.{TallyIsFor};
ghost use Rattle.fm_relief.specs.Relief.{tasks_on};
ghost use Rattle.fm_relief.specs.declared.excess.Excess.{Excess as ExcessOf};
ghost use Rattle.fm_relief.specs.inner.Excesses.{excess_at, all_excesses};
ghost use Rattle.fm_relief.specs.inner.HeldLists.{held_on, has_excess, task_entry, listed_entry};

use crate::excess::Excess;
use crate::held_task::HeldTask;
use fm_know::knowledge::Knowledge;
use fm_lattice::join::{Join, OutOfMemory};
use fm_records::ids::{MachineId, TaskId};
use fm_tally::sorted::Sorted;
use fm_tally::tally::{LiveTask, Tally};
use std::alloc::Global;
use std::collections::BTreeMap;

/// The tasks that machines hold, by machine, and those of one machine by id.
#[derive(Drop)]
pub(crate) struct HeldTasks {
    pub(crate) by_machine: BTreeMap<MachineId, Vec<HeldTask>>,
}

impl HeldTasks {
    /// The tasks of these machines alone. One walk over the tasks of the tally, and look-ups for those that are held.
    pub(crate) fn on(
        alloc: Global,
        knowledge: &Knowledge,
        tally: &Tally,
        machines: &Sorted<MachineId, Excess>,
    ) -> Result<HeldTasks, OutOfMemory>
        requires tally { TallyIsFor knowledge.now tally.now }
        requires machines { machines.now ≡ all_excesses knowledge.now }
        ensures { IfOk result (λ held. (m : ℕ) (x : ExcessOf) → excess_at knowledge.now m ≡ Some x
            → held_on held m ≡ tasks_on knowledge.now m) }
    {
        knowledge.known();
        let mut held = HeldTasks {
            by_machine: BTreeMap::new(alloc),
        };
        let pairs = tally.tasks.pairs();
        for (task, live) in pairs {
            held.add_live(alloc, knowledge, machines, *task, live)?;
        }
        Ok(held)
    }

    // Adds the task behind those of the machine that holds it, if that is one of these.
    fn add_live(
        &mut self,
        alloc: Global,
        knowledge: &Knowledge,
        machines: &Sorted<MachineId, Excess>,
        task: TaskId,
        live: &LiveTask,
    ) -> Result<(), OutOfMemory>
        ensures { OnOk result ((m : ℕ) → held_on self.new m ≡ held_on self.old m
            ++ option_to_list (listed_entry knowledge.now machines.now m (task, live.now))) }
    {
        match holder_among(machines, live) {
            Some(machine) => self.add(alloc, machine, task_entry(knowledge, task, live)),
            None => Ok(()),
        }
    }

    // Adds the task behind those of the machine.
    fn add(&mut self, alloc: Global, machine: MachineId, task: HeldTask) -> Result<(), OutOfMemory>
        ensures { OnOk result ((m : ℕ) → held_on self.new m
            ≡ held_on self.old m ++ option_to_list (when (machine == m) task)) }
    {
        let held = self.by_machine.remove(&machine);
        let mut tasks = held.unwrap_or(Vec::new(alloc));
        tasks.push(task)?;
        self.by_machine.insert(machine, tasks)?;
        Ok(())
    }

    /// Those of the machine, in memory of their own.
    pub(crate) fn of_machine(
        &self,
        alloc: Global,
        machine: MachineId,
    ) -> Result<Vec<HeldTask>, OutOfMemory>
        ensures { IfOk result (λ tasks. tasks.items ≡ held_on self.now machine) }
    {
        match self.by_machine.get(&machine) {
            Some(tasks) => Ok(Vec::from_slice(alloc, tasks.as_slice())?),
            None => Ok(Vec::new(alloc)),
        }
    }
}

// The machine that holds the task, if it is one of these.
fn holder_among(machines: &Sorted<MachineId, Excess>, live: &LiveTask) -> Option<MachineId>
    ensures { result ≡ only_if (has_excess machines.now) live.now.holder }
{
    let machine = live.holder?;
    if machines.get(&machine).is_some() {
        Some(machine)
    } else {
        None
    }
}

// What decides whether the task is preempted.
fn task_entry(knowledge: &Knowledge, task: TaskId, live: &LiveTask) -> HeldTask
    ensures { result ≡ task_entry knowledge.now task live.now }
{
    HeldTask {
        task,
        attempt: knowledge.attempt(task).attempt,
        request: live.request,
        price: live.price,
    }
}
